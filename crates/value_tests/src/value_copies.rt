//! A value of each type, its copies, and its octets.

use registry::ComposeSvcParamValue;
use std::alloc::Global;
use svcb_list::{
    Alpn, AlpnBuilder, BuildAlpnError, Ipv4Hint, Ipv6Hint, ItemList, ItemListRef, ListType,
    Mandatory, TlsSupportedGroups,
};
use svcb_value::{DohPath, Ech, NoDefaultAlpn, Ohttp, OpaqueRef, OpaqueType, OpaqueValue, Port};
use wire_base::{Ipv4Addr, Ipv6Addr, NoMemory, ParseError, Parser};

/// Whether a value is composed to octets, through the trait.
pub(crate) fn is_composed<V: ComposeSvcParamValue>(
    alloc: Global,
    value: &V,
    octets: &[u8],
) -> Result<bool, NoMemory> {
    let mut target = Vec::new(alloc);
    value.compose_value(&mut target)?;
    Ok(target.as_slice() == octets)
}

/// Whether a list is equal to its copies, and is composed to octets, as their view is.
fn is_list<T: ListType>(
    alloc: Global,
    list: &ItemList<T>,
    octets: &[u8],
) -> Result<bool, ParseError> {
    let view: ItemListRef<'_, T> = ItemListRef::parse(&mut Parser::from_ref(octets))?;
    Ok(
        *list == list.try_clone(alloc)?
            && *list == view.to_owned_data(alloc)?
            && is_composed(alloc, list, octets)?
            && is_composed(alloc, &view, octets)?,
    )
}

/// Whether octets are read as keys that a client must know.
fn is_mandatory(alloc: Global, octets: &[u8]) -> Result<bool, ParseError> {
    let list = Mandatory::parse(alloc, &mut Parser::from_ref(octets))?;
    is_list(alloc, &list, octets)
}

/// Whether octets are read as protocols.
fn is_alpn(alloc: Global, octets: &[u8]) -> Result<bool, ParseError> {
    let list = Alpn::parse(alloc, &mut Parser::from_ref(octets))?;
    is_list(alloc, &list, octets)
}

/// Octets of keys that a client must know.
const MANDATORY: [&[u8]; 2] = [b"\x00\x01\x00\x04", b"\x00\x01\x00\x04\xff\x00"];

/// Octets of protocols.
const ALPN: [&[u8]; 3] = [b"\x02h2\x05h3-19", b"\x02h3\x02h2", b"\x08f\\oo,bar\x02h2"];

#[test]
fn keys_and_protocols_are_copied_and_composed(rt: HostRuntime) {
    for octets in &MANDATORY {
        assert!(rt; is_mandatory(rt.alloc(), octets) == Ok(true), "{octets:?}");
    }
    for octets in &ALPN {
        assert!(rt; is_alpn(rt.alloc(), octets) == Ok(true), "{octets:?}");
    }
}

/// Whether octets are read as IPv4 addresses.
fn is_ipv4hint(alloc: Global, octets: &[u8]) -> Result<bool, ParseError> {
    let list = Ipv4Hint::parse(alloc, &mut Parser::from_ref(octets))?;
    is_list(alloc, &list, octets)
}

/// Whether octets are read as IPv6 addresses.
fn is_ipv6hint(alloc: Global, octets: &[u8]) -> Result<bool, ParseError> {
    let list = Ipv6Hint::parse(alloc, &mut Parser::from_ref(octets))?;
    is_list(alloc, &list, octets)
}

/// Whether octets are read as two groups.
fn are_groups(alloc: Global, octets: &[u8], groups: [u16; 2]) -> Result<bool, ParseError> {
    let list = TlsSupportedGroups::parse(alloc, &mut Parser::from_ref(octets))?;
    Ok(list.iter().eq(groups) && is_list(alloc, &list, octets)?)
}

/// Octets of IPv4 addresses.
const IPV4HINT: [&[u8]; 2] = [b"\xc0\x00\x02\x01", b"\xc0\x00\x02\x01\xc0\x00\x02\x02"];

/// Octets of IPv6 addresses.
const IPV6HINT: [&[u8]; 3] = [
    b"\x20\x01\x0d\xb8\0\0\0\0\0\0\0\0\0\0\0\x01",
    b"\x20\x01\x0d\xb8\0\0\0\0\0\0\0\0\0\0\0\x01\x20\x01\x0d\xb8\0\0\0\0\0\0\0\0\0\x53\0\x01",
    b"\0\0\0\0\0\0\0\0\0\0\xff\xff\xc6\x33\x64\x64",
];

#[test]
fn addresses_and_groups_are_copied_and_composed(rt: HostRuntime) {
    for octets in &IPV4HINT {
        assert!(rt; is_ipv4hint(rt.alloc(), octets) == Ok(true), "{octets:?}");
    }
    for octets in &IPV6HINT {
        assert!(rt; is_ipv6hint(rt.alloc(), octets) == Ok(true), "{octets:?}");
    }
    assert!(rt; are_groups(rt.alloc(), b"\x00\x1d\x00\x17", [29, 23]) == Ok(true));
}

/// Whether IPv4 addresses are built into octets.
fn are_ipv4(alloc: Global, hosts: &[Ipv4Addr], octets: &[u8]) -> Result<bool, ParseError> {
    let Ok(list) = Ipv4Hint::from_addrs(alloc, hosts) else {
        return Ok(false);
    };
    is_list(alloc, &list, octets)
}

/// Whether IPv6 addresses are built into octets.
fn are_ipv6(alloc: Global, hosts: &[Ipv6Addr], octets: &[u8]) -> Result<bool, ParseError> {
    let Ok(list) = Ipv6Hint::from_addrs(alloc, hosts) else {
        return Ok(false);
    };
    is_list(alloc, &list, octets)
}

#[test]
fn built_addresses_are_copied_and_composed(rt: HostRuntime) {
    let hosts = [Ipv4Addr::new([192, 0, 2, 1]), Ipv4Addr::new([192, 0, 2, 2])];
    assert!(rt; are_ipv4(rt.alloc(), &hosts, IPV4HINT[1]) == Ok(true));
    let hosts = [
        Ipv6Addr::new([0x20, 1, 0x0d, 0xb8, 0, 0, 0, 0, 0, 0, 0, 0, 0, 0, 0, 1]),
        Ipv6Addr::new([0x20, 1, 0x0d, 0xb8, 0, 0, 0, 0, 0, 0, 0, 0, 0, 0x53, 0, 1]),
    ];
    assert!(rt; are_ipv6(rt.alloc(), &hosts, IPV6HINT[1]) == Ok(true));
    let mapped = Ipv6Addr::new([0, 0, 0, 0, 0, 0, 0, 0, 0, 0, 0xff, 0xff, 198, 51, 100, 100]);
    assert!(rt; are_ipv6(rt.alloc(), &[mapped], IPV6HINT[2]) == Ok(true));
}

/// Whether protocols that are pushed are equal to those of a copy of the builder, and composed.
fn are_pushed(alloc: Global) -> Result<bool, BuildAlpnError> {
    let mut builder = AlpnBuilder::empty(alloc);
    builder.push(b"h2")?;
    builder.push(b"h3-19")?;
    let copy = builder.try_clone()?.freeze();
    let list = builder.freeze();
    Ok(list == copy && is_composed(alloc, &copy, ALPN[0])?)
}

#[test]
fn pushed_protocols_are_copied_and_composed(rt: HostRuntime) {
    assert!(rt; are_pushed(rt.alloc()) == Ok(true));
}

/// Whether octets that are not looked into are equal to their copies, and composed, as their view is.
fn is_opaque<T: OpaqueType>(
    alloc: Global,
    value: &OpaqueValue<T>,
    octets: &[u8],
) -> Result<bool, ParseError> {
    let view: OpaqueRef<'_, T> = OpaqueRef::parse(&mut Parser::from_ref(octets))?;
    Ok(
        *value == value.try_clone(alloc)?
            && *value == view.to_owned_data(alloc)?
            && is_composed(alloc, value, octets)?
            && is_composed(alloc, &view, octets)?,
    )
}

/// Whether octets are read as a configuration of Encrypted ClientHello.
fn is_ech(alloc: Global, octets: &[u8]) -> Result<bool, ParseError> {
    let value = Ech::parse(alloc, &mut Parser::from_ref(octets))?;
    is_opaque(alloc, &value, octets)
}

/// Whether octets are read as a path of DNS over HTTPS.
fn is_dohpath(alloc: Global, octets: &[u8]) -> Result<bool, ParseError> {
    let value = DohPath::parse(alloc, &mut Parser::from_ref(octets))?;
    is_opaque(alloc, &value, octets)
}

/// Whether a port is read and composed, and the values without octets are.
fn are_small(alloc: Global) -> Result<bool, ParseError> {
    let port = Port::parse(&mut Parser::from_ref(b"\x00\x35"))?;
    let no_default_alpn = NoDefaultAlpn::parse(&mut Parser::from_ref(b""))?;
    let ohttp = Ohttp::parse(&mut Parser::from_ref(b""))?;
    Ok(
        port == Port::new(53)
            && is_composed(alloc, &port, b"\x00\x35")?
            && is_composed(alloc, &no_default_alpn, b"")?
            && is_composed(alloc, &ohttp, b"")?,
    )
}

#[test]
fn values_without_items_are_copied_and_composed(rt: HostRuntime) {
    assert!(rt; is_ech(rt.alloc(), b"") == Ok(true));
    assert!(rt; is_ech(rt.alloc(), b"\xaa") == Ok(true));
    assert!(rt; is_dohpath(rt.alloc(), b"/q") == Ok(true));
    assert!(rt; is_dohpath(rt.alloc(), b"/q{?dns}") == Ok(true));
    assert!(rt; are_small(rt.alloc()) == Ok(true));
}
