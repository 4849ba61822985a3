//! What a client chooses from the SVCB or HTTPS records of an owner (RFC 9460, sections 2.4 and 2.5): another owner to
//! ask for, nothing, or endpoints in order, each with its target, port and protocols.
//!
//! ```
//! match choose(alloc, &owner, &records, &[SvcParamKey::ALPN, SvcParamKey::PORT], &defaults)? {
//!     Choice::Alias(target) => println!(rt; "ask for the records of {target:?}")?,
//!     Choice::Unavailable => println!(rt; "there is no service")?,
//!     Choice::Endpoints(endpoints) => {
//!         for endpoint in endpoints.as_slice() {
//!             println!(rt; "{:?} {:?}", endpoint.target, endpoint.port)?;
//!         }
//!     }
//! }
//! ```
//!
//! A record that a client can't use is left out by itself: a value is malformed, a mandatory key isn't understood, or
//! the protocols contradict each other. The keys that HTTPS makes mandatory by itself (RFC 9460, section 9), looking
//! up addresses and connecting are left to the caller.
#![tactic(auto)]

mod choice;
mod choosing;
mod protocols;
#[cfg(test)]
mod tests;
mod usability;

pub use choice::{Choice, Endpoint, Endpoints, Protocols};
pub use choosing::{choose, priorities_ascend};
