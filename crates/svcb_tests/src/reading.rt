//! Parameters read, copied and walked through.

use crate::level::Level;
use registry::ParseSvcParamValue;
use std::alloc::Global;
use svcb_params::{SvcParams, SvcParamsRef};
use wire_base::{Ipv4Addr, ParseError, Parser};

/// Octets, and why they are no parameters, if they are none.
const OCTETS: [(&[u8], Option<ParseError>); 10] = [
    (b"", None),
    (b"\x00\x03\x00\x02\x00\x35\xff\xff\x00\x00", None),
    (b"\x00", Some(ParseError::ShortInput)),
    (b"\x00\x03", Some(ParseError::ShortInput)),
    (b"\x00\x03\x00", Some(ParseError::ShortInput)),
    (b"\x00\x03\x00\x02\x00", Some(ParseError::ShortInput)),
    // the key's order is tested before its length is missed
    (b"\x00\x03\x00\x00\x00\x03", Some(ParseError::Form)),
    (b"\x00\x03\x00\x00\x00\x02\x00\x00", Some(ParseError::Form)),
    (b"\x00\x03\x00\x00\x00", Some(ParseError::ShortInput)),
    (
        b"\x00\x03\x00\x00\x00\x04\x00\x01",
        Some(ParseError::ShortInput),
    ),
];

/// The fault of octets, if they have one.
fn fault_of(octets: &[u8]) -> Option<ParseError> {
    match SvcParamsRef::from_slice(octets) {
        Ok(_) => None,
        Err(error) => Some(ParseError::from(error)),
    }
}

#[test]
fn octets_are_parameters_or_refused(rt: HostRuntime) {
    for (octets, fault) in &OCTETS {
        assert_eq!(rt; fault_of(octets), *fault, "{octets:?}");
    }
}

/// Whether octets are read as parameters whose copy is composed to them again.
fn are_kept(alloc: Global, octets: &[u8]) -> Result<bool, ParseError> {
    let params = SvcParams::parse(alloc, &mut Parser::from_ref(octets))?;
    let copy = params.try_clone(alloc)?;
    let mut target = Vec::new(alloc);
    copy.compose(&mut target)?;
    Ok(target.as_slice() == octets)
}

#[test]
fn parameters_are_kept(rt: HostRuntime) {
    let octets = b"\x00\x03\x00\x02\x00\x35\xff\xff\x00\x00";
    assert_eq!(rt; are_kept(rt.alloc(), octets), Ok(true));
}

/// Octets of parameters, how many items they give of the type of another crate, and whether the first is a value.
const LEVELS: [(&[u8], usize, bool); 5] = [
    (b"", 0, false),
    // a key that is not taken
    (b"\x00\x03\x00\x00\xff\x00\x00\x01\x07", 1, true),
    (b"\xff\x00\x00\x01\x07\xff\x01\x00\x01\x08", 2, true),
    // an octet left behind the second value, and so none behind it
    (
        b"\xff\x00\x00\x01\x07\xff\x01\x00\x02\x08\x08\xff\x02\x00\x01\x09",
        2,
        true,
    ),
    (b"\xff\x00\x00\x00\xff\x01\x00\x01\x08", 1, false),
];

/// The count of a type's items, and whether the first is a value, through the bound.
fn counts<'s, V: ParseSvcParamValue<'s>>(params: &'s SvcParamsRef<'s>) -> (usize, bool) {
    let mut count: usize = 0;
    for _item in params.iter::<V>() {
        count = count.saturating_add(1);
    }
    (count, params.first::<V>().is_some())
}

#[test]
fn iterators_end_after_an_error(rt: HostRuntime) {
    for (octets, count, is_value) in &LEVELS {
        let Ok(params) = SvcParamsRef::from_slice(octets) else {
            panic!(rt; "no parameters: {octets:?}")
        };
        assert_eq!(rt; counts::<Level>(&params), (*count, *is_value), "{octets:?}");
    }
}

/// Whether the only item is an error, which hides no value of another key.
fn is_fault(params: &SvcParamsRef<'_>) -> bool {
    let mut all = params.iter_all();
    let is_form = matches!(all.next(), Some(Err(ParseError::Form)));
    is_form && all.next().is_none() && params.port().is_none() && params.ech().is_some()
}

/// Whether these are all parameters, as keys and octets.
fn are_raw(params: &SvcParamsRef<'_>, wanted: &[(u16, &[u8])]) -> bool {
    let mut raw = params.iter_raw();
    for (key, octets) in wanted {
        match raw.next() {
            Some(param) if u16::from(param.key()) == *key && param.as_slice() == *octets => {}
            _ => return false,
        }
    }
    raw.next().is_none()
}

#[test]
fn a_value_of_no_type_hides_no_other(rt: HostRuntime) {
    // three octets under the key of `port`, and one under the key of `ech`
    let octets = b"\x00\x03\x00\x03\x00\x35\x00\x00\x05\x00\x01\xaa";
    let Ok(params) = SvcParamsRef::from_slice(octets) else {
        panic!(rt; "no parameters")
    };
    assert!(rt; is_fault(&params));
    assert!(rt; are_raw(&params, &[(3, b"\x00\x35\x00"), (5, b"\xaa")]));
}

/// Whether these are all hints of IPv4 addresses.
fn are_hints(params: &SvcParamsRef<'_>, hosts: [Ipv4Addr; 2]) -> bool {
    match params.ipv4hint() {
        Some(hints) => hints.iter().eq(hosts),
        None => false,
    }
}

#[test]
fn values_of_a_type_have_items(rt: HostRuntime) {
    // alpn=h3,h2 ipv4hint=192.0.2.1,192.0.2.2
    let octets = b"\x00\x01\x00\x06\x02h3\x02h2\x00\x04\x00\x08\xc0\x00\x02\x01\xc0\x00\x02\x02";
    let Ok(params) = SvcParamsRef::from_slice(octets) else {
        panic!(rt; "no parameters")
    };
    let hosts = [Ipv4Addr::new([192, 0, 2, 1]), Ipv4Addr::new([192, 0, 2, 2])];
    assert!(rt; are_hints(&params, hosts));
}
