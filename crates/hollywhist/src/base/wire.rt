//! The octets of a message, as they are read and composed.

pub use registry::ShortBuf;
pub use wire_base::{ParseError, Parser, ShortInput};
