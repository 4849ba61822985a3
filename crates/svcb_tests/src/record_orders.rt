//! How record data is compared.

use std::alloc::Global;
use std::cmp::Ordering;
use svcb_params::SvcParams;
use svcb_rdata::Svcb;
use wire_base::{CanonicalOrd, Name, Octets, ParseError};

/// Record data of a target without parameters.
fn with_target(alloc: Global, target: &[u8]) -> Result<Svcb, ParseError> {
    let name = Name::from_octets(Octets::from_slice(alloc, target)?)?;
    Ok(Svcb::new(1, name, SvcParams::empty(alloc))?)
}

/// The order of record data of two targets, and the canonical order.
fn orders(alloc: Global, one: &[u8], other: &[u8]) -> Result<(Ordering, Ordering), ParseError> {
    let one = with_target(alloc, one)?;
    let other = with_target(alloc, other)?;
    Ok((one.cmp(&other), one.canonical_cmp(&other)))
}

#[test]
fn the_canonical_order_keeps_case_and_is_that_of_octets(rt: HostRuntime) {
    let case = orders(rt.alloc(), b"\x03Foo\x00", b"\x03foo\x00");
    assert_eq!(rt; case, Ok((Ordering::Equal, Ordering::Less)));
    // as names, what stands last decides first
    let last = orders(rt.alloc(), b"\x01a\x01z\x00", b"\x01b\x01a\x00");
    assert_eq!(rt; last, Ok((Ordering::Greater, Ordering::Less)));
}
