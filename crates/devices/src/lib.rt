//! The two ends of a program: sources and sinks of octets, and the loops that read a whole input and write a whole
//! report.
#![tactic(auto)]

mod device;
mod memory;
mod standard;
mod sure;
mod transfer;

pub use device::{Failed, Sink, Source};
pub use memory::{MemorySink, MemorySource};
pub use standard::{StdSink, StdSource};
pub use sure::{SureSink, SureSource};
pub use transfer::{MAX_INPUT, ReadError, read_input, write_all};
