//! What the octets of a message and of names mean (RFC 1035), and how octets, names and addresses are written as text:
//! definitions, and the laws that hold of them.
//!
//! The definitions stand in `specs/`. They speak of whole numbers and lists of octets; a text is its octets.
#![tactic(auto)]

pub mod laws;
