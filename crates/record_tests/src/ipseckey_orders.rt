//! How IPSECKEY data and gateways are compared.

use key_rdata::{Ipseckey, IpseckeyGateway};
use key_registry::IpseckeyGatewayType;
use std::alloc::Global;
use std::cmp::Ordering;
use wire_base::{CanonicalOrd, ParseError, Parser};

/// Octets of two data, their order, and their canonical order.
const ORDERS: [(&[u8], &[u8], Ordering, Ordering); 6] = [
    (
        b"\x0a\x00\x02z",
        b"\x0b\x00\x02a",
        Ordering::Less,
        Ordering::Less,
    ),
    (
        b"\x0a\x00\x02z",
        b"\x0a\x01\x02\0\0\0\0a",
        Ordering::Less,
        Ordering::Less,
    ),
    (
        b"\x0a\x00\x03a",
        b"\x0a\x00\x02b",
        Ordering::Greater,
        Ordering::Greater,
    ),
    (
        b"\x0a\x03\x02\x01B\0k",
        b"\x0a\x03\x02\x01b\0k",
        Ordering::Equal,
        Ordering::Less,
    ),
    (
        b"\x0a\x03\x02\x01z\x01a\0k",
        b"\x0a\x03\x02\x01b\0k",
        Ordering::Less,
        Ordering::Greater,
    ),
    (
        b"\x0a\x00\x02ke",
        b"\x0a\x00\x02key",
        Ordering::Less,
        Ordering::Less,
    ),
];

fn read(alloc: Global, octets: &[u8]) -> Result<Ipseckey, ParseError> {
    Ipseckey::parse(alloc, &mut Parser::from_ref(octets))
}

/// The two orders of data, and whether it is equal.
fn compared(
    alloc: Global,
    octets: &[u8],
    others: &[u8],
) -> Result<(Ordering, Ordering, bool), ParseError> {
    let found = read(alloc, octets)?;
    let other = read(alloc, others)?;
    Ok((
        found.cmp(&other),
        found.canonical_cmp(&other),
        found == other,
    ))
}

#[test]
fn data_is_ordered(rt: HostRuntime) {
    for (octets, others, order, canonical) in &ORDERS {
        let is_equal = *order == Ordering::Equal;
        assert!(rt; compared(rt.alloc(), octets, others) == Ok((*order, *canonical, is_equal)));
    }
}

fn gateway(alloc: Global, number: u8, octets: &[u8]) -> Result<IpseckeyGateway, ParseError> {
    let gateway_type = IpseckeyGatewayType::from(number);
    IpseckeyGateway::parse(alloc, &mut Parser::from_ref(octets), gateway_type)
}

/// The order of the gateways of types that octets begin with.
fn gateway_order(alloc: Global, number: u8, other: u8) -> Result<Option<Ordering>, ParseError> {
    let found = gateway(alloc, number, b"\x01a\0\0")?;
    Ok(found.partial_cmp(&gateway(alloc, other, b"\x01A\0\0")?))
}

#[test]
fn gateways_of_different_types_have_no_order(rt: HostRuntime) {
    assert!(rt; gateway_order(rt.alloc(), 0, 1) == Ok(None));
    assert!(rt; gateway_order(rt.alloc(), 3, 1) == Ok(None));
    assert!(rt; gateway_order(rt.alloc(), 0, 0) == Ok(Some(Ordering::Equal)));
    assert!(rt; gateway_order(rt.alloc(), 1, 1) == Ok(Some(Ordering::Greater)));
    assert!(rt; gateway_order(rt.alloc(), 3, 3) == Ok(Some(Ordering::Equal)));
}
