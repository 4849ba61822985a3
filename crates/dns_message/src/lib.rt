//! A DNS message from its header to its records (RFC 1035, section 4.1), read in place.
//!
//! ```
//! let message = Message::from_octets(&octets)?;
//! let mut found = message.find(&owner, Rtype::HTTPS)?;
//! while let Some(record) = found.next() {
//!     let https = SvcbRef::<HttpsVariant>::parse(&mut record?.parser())?;
//!     println!(rt; "{}", https.priority())?;
//! }
//! ```
//!
//! Nothing is copied, and no memory is taken: questions and records are views of the octets of the message, and names
//! are followed into it. Only the data that `ParsedRecord::data` gives is a copy.
#![tactic(auto)]

mod aliases;
mod entries;
mod errors;
mod found;
mod header;
pub mod laws;
mod message;
mod question;
mod record;

pub use entries::{Entries, ParseEntry, Questions, Records};
pub use errors::AliasError;
pub use found::FoundRecords;
pub use header::Header;
pub use message::Message;
pub use question::Question;
pub use record::ParsedRecord;
