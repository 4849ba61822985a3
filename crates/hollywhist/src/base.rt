//! What all record data rests on: messages, names, octets, numbers and texts.

pub mod cmp;
pub mod iana;
pub mod message;
pub mod name;
pub mod net;
pub mod rdata;
pub mod scan;
pub mod serial;
pub mod wire;
pub mod zonefile_fmt;

pub use registry::Integer;
pub use wire_base::{NoMemory, Octets, PrintedOctets};
