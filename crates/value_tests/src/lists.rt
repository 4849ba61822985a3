//! Lists of items (RFC 9460, appendix D.2), and their builder.

use registry::{BuildValueError, SvcParamKey};
use std::alloc::Global;
use svcb_list::{
    Alpn, AlpnBuilder, BuildAlpnError, Ipv4Hint, Ipv6Hint, ItemList, ListType, Mandatory,
    TlsSupportedGroups,
};
use wire_base::{Ipv4Addr, Ipv6Addr, NoMemory, ParseError, Parser};

#[test]
fn protocols_are_read(rt: HostRuntime) -> Result<(), ParseError> {
    let mut parser = Parser::from_ref(b"\x08f\\oo,bar\x02h2");
    let alpn = Alpn::parse(rt.alloc(), &mut parser)?;
    assert!(rt; parser.remaining() == 0);
    let mut items = alpn.iter();
    assert!(rt; items.next() == Some(b"f\\oo,bar".as_slice()));
    assert!(rt; items.next() == Some(b"h2".as_slice()));
    assert!(rt; items.next().is_none());
    Ok(())
}

/// Whether a list was built, and has octets.
fn is_built<T: ListType>(list: Result<ItemList<T>, BuildValueError>, octets: &[u8]) -> bool {
    match list {
        Ok(list) => list.as_slice() == octets,
        Err(_) => false,
    }
}

#[test]
fn lists_are_built(rt: HostRuntime) {
    let alloc = rt.alloc();
    let keys = [
        SvcParamKey::ALPN,
        SvcParamKey::from(SvcParamKey::PRIVATE_RANGE_BEGIN),
    ];
    assert!(rt; is_built(Mandatory::from_keys(alloc, &keys), b"\x00\x01\xff\x00"));
    assert!(rt;
        is_built(
            TlsSupportedGroups::from_keys(alloc, &[29, 23]),
            b"\x00\x1d\x00\x17"
        )
    );
    let hosts = [Ipv4Addr::new([192, 0, 2, 1]), Ipv4Addr::new([192, 0, 2, 2])];
    assert!(rt;
        is_built(
            Ipv4Hint::from_addrs(alloc, &hosts),
            b"\xc0\x00\x02\x01\xc0\x00\x02\x02"
        )
    );
}

#[test]
fn addresses_are_built(rt: HostRuntime) {
    let addresses = [
        Ipv6Addr::new([0x20, 1, 0x0d, 0xb8, 0, 0, 0, 0, 0, 0, 0, 0, 0, 0, 0, 1]),
        Ipv6Addr::new([0, 0, 0, 0, 0, 0, 0, 0, 0, 0, 0xff, 0xff, 198, 51, 100, 100]),
    ];
    let octets =
        b"\x20\x01\x0d\xb8\0\0\0\0\0\0\0\0\0\0\0\x01\0\0\0\0\0\0\0\0\0\0\xff\xff\xc6\x33\x64\x64";
    assert!(rt; is_built(Ipv6Hint::from_addrs(rt.alloc(), &addresses), octets));
}

/// Whether protocols are built one by one, and a copy on the way holds the first.
fn are_pushed(alloc: Global) -> Result<bool, BuildAlpnError> {
    let mut builder = AlpnBuilder::empty(alloc);
    builder.push(b"h2")?;
    let first = builder.try_clone()?.freeze();
    builder.push(b"h3-19")?;
    let both = builder.freeze();
    Ok(first.as_slice() == b"\x02h2".as_slice() && both.as_slice() == b"\x02h2\x05h3-19".as_slice())
}

#[test]
fn protocols_are_pushed(rt: HostRuntime) {
    assert_eq!(rt; are_pushed(rt.alloc()), Ok(true));
}

/// An item so many times.
fn copies<T: Copy + Drop>(alloc: Global, item: T, count: usize) -> Result<Vec<T>, NoMemory> {
    let mut items = Vec::new(alloc);
    for _ in 0..count {
        items.push(item)?;
    }
    Ok(items)
}

/// Why no value is made of a key so many times, if none is.
fn keys_fault(alloc: Global, count: usize) -> Result<(), BuildValueError> {
    let keys = copies(alloc, SvcParamKey::ALPN, count)?;
    let _list = Mandatory::from_keys(alloc, &keys)?;
    Ok(())
}

/// As `keys_fault`, of a group.
fn groups_fault(alloc: Global, count: usize) -> Result<(), BuildValueError> {
    let groups = copies(alloc, 29, count)?;
    let _list = TlsSupportedGroups::from_keys(alloc, &groups)?;
    Ok(())
}

/// As `keys_fault`, of an IPv4 address.
fn hosts_fault(alloc: Global, count: usize) -> Result<(), BuildValueError> {
    let hosts = copies(alloc, Ipv4Addr::new([192, 0, 2, 1]), count)?;
    let _list = Ipv4Hint::from_addrs(alloc, &hosts)?;
    Ok(())
}

/// As `keys_fault`, of an IPv6 address.
fn addresses_fault(alloc: Global, count: usize) -> Result<(), BuildValueError> {
    let address = Ipv6Addr::new([0x20, 1, 0x0d, 0xb8, 0, 0, 0, 0, 0, 0, 0, 0, 0, 0, 0, 1]);
    let addresses = copies(alloc, address, count)?;
    let _list = Ipv6Hint::from_addrs(alloc, &addresses)?;
    Ok(())
}

#[test]
fn lists_are_at_most_65535_octets(rt: HostRuntime) {
    let alloc = rt.alloc();
    let long = Err(BuildValueError::LongSvcParam);
    assert!(rt; keys_fault(alloc, 32767) == Ok(()) && keys_fault(alloc, 32768) == long);
    assert!(rt; groups_fault(alloc, 32767) == Ok(()) && groups_fault(alloc, 32768) == long);
    assert!(rt; groups_fault(alloc, 0) == Err(BuildValueError::EmptyValue));
    assert!(rt; hosts_fault(alloc, 16383) == Ok(()) && hosts_fault(alloc, 16384) == long);
    assert!(rt; addresses_fault(alloc, 4095) == Ok(()) && addresses_fault(alloc, 4096) == long);
}

/// Why no protocol of so many octets is pushed, if none is.
fn protocol_fault(alloc: Global, len: usize) -> Result<(), BuildAlpnError> {
    let protocol = copies(alloc, b'a', len)?;
    AlpnBuilder::empty(alloc).push(&protocol)
}

#[test]
fn a_protocol_has_1_to_255_octets(rt: HostRuntime) {
    assert!(rt; protocol_fault(rt.alloc(), 0) == Err(BuildAlpnError::InvalidProtocol));
    assert!(rt; protocol_fault(rt.alloc(), 255) == Ok(()));
    assert!(rt; protocol_fault(rt.alloc(), 256) == Err(BuildAlpnError::InvalidProtocol));
}
