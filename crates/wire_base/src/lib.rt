//! Reading a DNS message, its names, owned octets, and internet addresses; names, octets and addresses as text.
#![tactic(auto)]

mod addresses;
mod errors;
mod label_iter;
mod name;
mod name_comparisons;
mod name_parts;
mod name_texts;
mod octets;
mod owned_name;
mod parser;
mod printed;
mod records;
mod rtype;

pub use addresses::{Address, Ipv4Addr, Ipv6Addr};
pub use errors::{LongRecordData, NoMemory, ParseError, ShortInput};
pub use label_iter::LabelIter;
pub use name::ParsedName;
pub use name_texts::DottedName;
pub use octets::Octets;
pub use owned_name::Name;
pub use parser::Parser;
pub use printed::PrintedOctets;
pub use records::{CanonicalOrd, ComposeRecordData, ParseRecordData, RecordData};
pub use rtype::Rtype;
