//! Values of each type, and of a type of another crate, scanned under a key that the caller gives.

use crate::value_copies::is_composed;
use crate::weight::Weight;
use registry::{ComposeSvcParamValue, SvcParamKey, SvcParamValue};
use std::alloc::Global;
use svcb_list::{Alpn, Ipv4Hint, Ipv6Hint, Mandatory, TlsSupportedGroups};
use svcb_text::{AllValues, ScanSvcParamValue};
use svcb_value::{DohPath, Ech, NoDefaultAlpn, Ohttp, Port, UnknownSvcParam};
use text_spec::ScanError;

/// The value that a text spells under a key.
fn scan<V: ScanSvcParamValue>(
    alloc: Global,
    key: u16,
    text: &[u8],
) -> Result<Option<V>, ScanError> {
    V::value_from_scan_octets(alloc, SvcParamKey::from(key), text)
}

/// Whether a text spells a value of these octets under a key.
fn spells<V: ScanSvcParamValue + ComposeSvcParamValue + Drop>(
    alloc: Global,
    key: u16,
    text: &[u8],
    octets: &[u8],
) -> Result<bool, ScanError> {
    let Some(value) = scan::<V>(alloc, key, text)? else {
        return Ok(false);
    };
    Ok(u16::from(value.key()) == key && is_composed(alloc, &value, octets)?)
}

/// Whether a text spells a value of these octets under the type's key, and the type does not take another key.
fn spells_alone<V: ScanSvcParamValue + ComposeSvcParamValue + Drop>(
    alloc: Global,
    key: u16,
    text: &[u8],
    octets: &[u8],
) -> Result<bool, ScanError> {
    let other = scan::<V>(alloc, 667, text)?;
    Ok(other.is_none() && spells::<V>(alloc, key, text, octets)?)
}

#[test]
fn lists_are_of_their_own_key(rt: HostRuntime) {
    let alloc = rt.alloc();
    assert!(rt; spells_alone::<Mandatory>(alloc, 0, b"port,alpn", b"\0\x01\0\x03") == Ok(true));
    assert!(rt; spells_alone::<Alpn>(alloc, 1, b"a\\,b,h2", b"\x03a,b\x02h2") == Ok(true));
    assert!(rt; spells_alone::<Ipv4Hint>(alloc, 4, b"192.0.2.1", b"\xc0\0\x02\x01") == Ok(true));
    let octets = b"\x20\x01\x0d\xb8\0\0\0\0\0\0\0\0\0\0\0\x01";
    assert!(rt; spells_alone::<Ipv6Hint>(alloc, 6, b"2001:db8::1", octets) == Ok(true));
    assert!(rt;
        spells_alone::<TlsSupportedGroups>(alloc, 9, b"29,23", b"\0\x1d\0\x17") == Ok(true)
    );
}

#[test]
fn other_values_are_of_their_own_key(rt: HostRuntime) {
    let alloc = rt.alloc();
    assert!(rt; spells_alone::<NoDefaultAlpn>(alloc, 2, b"", b"") == Ok(true));
    assert!(rt; spells_alone::<Port>(alloc, 3, b"53", b"\0\x35") == Ok(true));
    assert!(rt; spells_alone::<Ech>(alloc, 5, b"a2V5", b"key") == Ok(true));
    assert!(rt; spells_alone::<DohPath>(alloc, 7, b"/q{?dns}", b"/q{?dns}") == Ok(true));
    assert!(rt; spells_alone::<Ohttp>(alloc, 8, b"", b"") == Ok(true));
}

#[test]
fn values_of_every_key_are_scanned(rt: HostRuntime) {
    let alloc = rt.alloc();
    assert!(rt; spells::<UnknownSvcParam>(alloc, 3, b"a,=\xff", b"a,=\xff") == Ok(true));
    assert!(rt; spells::<AllValues>(alloc, 3, b"53", b"\0\x35") == Ok(true));
    assert!(rt; spells::<AllValues>(alloc, 667, b"hello\xd2qoo", b"hello\xd2qoo") == Ok(true));
}

#[test]
fn a_type_of_another_crate_is_scanned(rt: HostRuntime) {
    let alloc = rt.alloc();
    assert!(rt; scan::<Weight>(alloc, 65280, b"263") == Ok(Some(Weight(263))));
    assert!(rt; scan::<Weight>(alloc, 65280, b"65536") == Err(ScanError::BadNumber));
    assert!(rt; scan::<Weight>(alloc, 3, b"7") == Ok(None));
}
