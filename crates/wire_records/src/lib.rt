//! Record data of addresses, and of any type; serial numbers, and octets printed in base16.
#![tactic(auto)]

mod a;
mod aaaa;
mod base16;
mod parsing;
mod serial;
mod unknown;
mod unknown_comparisons;

pub use a::A;
pub use aaaa::Aaaa;
pub use base16::Base16;
pub use serial::Serial;
pub use unknown::UnknownRecordData;
