//! A value of each type, and of a type of another crate, read and composed through the bounds.

use crate::value_copies::is_composed;
use crate::weight::Weight;
use registry::{ComposeSvcParamValue, ParseSvcParamValue, SvcParamKey};
use std::alloc::Global;
use svcb_text::{AllValues, AllValuesRef};
use wire_base::{NoMemory, ParseError, Parser};

/// The value that octets begin with.
fn read<'a, V: ParseSvcParamValue<'a>>(
    key: u16,
    octets: &'a [u8],
) -> Result<Option<V>, ParseError> {
    V::parse_value(SvcParamKey::from(key), &mut Parser::from_ref(octets))
}

/// Whether a value has a key, and is composed to octets.
fn is_composed_under<V: ComposeSvcParamValue>(
    alloc: Global,
    value: &V,
    key: u16,
    octets: &[u8],
) -> Result<bool, NoMemory> {
    let len = usize::from(value.compose_len());
    let is_counted = u16::from(value.key()) == key && len == octets.len();
    Ok(is_counted && is_composed(alloc, value, octets)?)
}

/// Octets of a value of each type, and of a key without one.
const SAMPLES: [(u16, &[u8]); 11] = [
    (0, b"\x00\x01"),
    (1, b"\x02h2"),
    (2, b""),
    (3, b"\x00\x35"),
    (4, b"\xc0\x00\x02\x01"),
    (5, b"\xfe\x0d"),
    (
        6,
        b"\x20\x01\x0d\xb8\x00\x00\x00\x00\x00\x00\x00\x00\x00\x00\x00\x01",
    ),
    (7, b"/q{?dns}"),
    (8, b""),
    (9, b"\x00\x1d"),
    (667, b"hello"),
];

/// Whether octets are read as a value whose copy is composed to them again.
fn is_kept(alloc: Global, key: u16, octets: &[u8]) -> Result<bool, NoMemory> {
    let Ok(Some(view)) = read::<AllValuesRef<'_>>(key, octets) else {
        return Ok(false);
    };
    let value = copied(alloc, &view)?;
    Ok(value.for_ref() == view && is_composed_under(alloc, &value, key, octets)?)
}

/// A copy of a value.
fn copied(alloc: Global, view: &AllValuesRef<'_>) -> Result<AllValues, NoMemory> {
    view.to_owned_data(alloc)?.try_clone(alloc)
}

#[test]
fn a_value_of_each_type_is_kept(rt: HostRuntime) {
    for (key, octets) in &SAMPLES {
        assert_eq!(rt; is_kept(rt.alloc(), *key, octets), Ok(true), "{key}");
    }
}

/// Octets that are no value of the key's type, and the fault.
const FAULTS: [(u16, &[u8], ParseError); 8] = [
    (0, b"\x00\x01\x00", ParseError::Form),
    (1, b"\x02h2\x03h3", ParseError::ShortInput),
    (3, b"", ParseError::ShortInput),
    (3, b"\x00", ParseError::ShortInput),
    (4, b"\xc0\x00\x02\x01\xc0", ParseError::Form),
    (6, b"\xc0\x00\x02\x01", ParseError::Form),
    (9, b"\x00", ParseError::Form),
    (9, b"", ParseError::Form),
];

/// The fault of octets, if they have one.
fn fault_of(key: u16, octets: &[u8]) -> Option<ParseError> {
    match read::<AllValuesRef<'_>>(key, octets) {
        Ok(_) => None,
        Err(error) => Some(error),
    }
}

#[test]
fn octets_are_refused(rt: HostRuntime) {
    for (key, octets, fault) in &FAULTS {
        assert_eq!(rt;
            fault_of(*key, octets),
            Some(*fault),
            "{octets:?} under {key}"
        );
    }
}

#[test]
fn octets_behind_a_value_make_it_unknown(rt: HostRuntime) {
    let port = AllValuesRef::parse_any(SvcParamKey::PORT, b"\x00\x35");
    assert!(rt; matches!(port, AllValuesRef::Port(_)));
    let octets = AllValuesRef::parse_any(SvcParamKey::PORT, b"\x00\x35\x00");
    assert!(rt; matches!(octets, AllValuesRef::Unknown(_)));
}

#[test]
fn a_type_of_another_crate_is_a_value(rt: HostRuntime) {
    assert!(rt; read::<Weight>(65280, b"\x01\x07\x08") == Ok(Some(Weight(263))));
    assert!(rt; read::<Weight>(65280, b"\x01") == Err(ParseError::ShortInput));
    assert!(rt; read::<Weight>(3, b"\x01\x07") == Ok(None));
    assert!(rt; is_composed_under(rt.alloc(), &Weight(263), 65280, b"\x01\x07") == Ok(true));
}
