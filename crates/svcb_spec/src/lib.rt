//! What the octets of SVCB and HTTPS record data mean, and how they are written as text (RFC 9460): definitions, and the
//! laws that hold of them.
//!
//! The definitions stand in `specs/`. They speak of whole numbers, lists of octets, and one map from keys to octets; a
//! text is its octets.
#![tactic(auto)]

pub mod laws;

/// The reply to a parameter that is to be added to a map within a limit.
#[derive(Clone, Copy, Debug, PartialEq, Eq, Hash)]
pub enum Reply {
    /// The parameter was added.
    Accepted,
    /// The key has a value already, which stays.
    DuplicateKey,
    /// With the parameter, the map would have more octets than the limit.
    ShortBuf,
}
