//! The library for C: `include/hollywhist.h` declares what is exported here.
//!
//! No call has a state, hands out a pointer or keeps one. Each tests the numbers that it is given, answers a status,
//! and writes into buffers of the caller's: what is due at the front, and nothing behind it. A call that is refused
//! leaves the buffers as they were.
#![tactic(auto)]

pub mod answers;
mod buffers;
mod faults;
pub mod items;
pub mod messages;
pub mod names;
pub mod record_orders;
pub mod record_texts;
mod record_types;
pub mod records;
pub mod status;
pub mod status_texts;
pub mod svcb_reading;
pub mod svcb_rebuilding;
mod whole_data;
