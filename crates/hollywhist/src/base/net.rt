//! Addresses of the internet.

pub use wire_base::{Address, Ipv4Addr, Ipv6Addr};
