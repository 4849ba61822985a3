//! Parameters, their copies, and their octets.

use registry::{ComposeSvcParamValue, ParseSvcParamValue, SvcParamKey};
use std::alloc::Global;
use svcb_params::{BufError, SvcParams, SvcParamsBuilder, SvcParamsRef};
use svcb_text::AllValuesRef;
use svcb_value::{UnknownSvcParam, UnknownSvcParamRef};
use wire_base::{NoMemory, ParseError, Parser};

/// Whether a value is composed to octets, through the trait.
fn is_composed<V: ComposeSvcParamValue>(
    alloc: Global,
    value: &V,
    octets: &[u8],
) -> Result<bool, NoMemory> {
    let mut target = Vec::new(alloc);
    value.compose_value(&mut target)?;
    Ok(target.as_slice() == octets)
}

/// Keys, octets under them, and the octets of the parameter.
const UNKNOWN: [(u16, &[u8], &[u8]); 3] = [
    (1, b"223", b"\x00\x01\x00\x03223"),
    (8, b"225", b"\x00\x08\x00\x03225"),
    (2, b"224", b"\x00\x02\x00\x03224"),
];

/// Whether octets under a key are equal to their copies, and composed, as their view is.
fn is_unknown(alloc: Global, key: u16, octets: &[u8]) -> Result<bool, ParseError> {
    let key = SvcParamKey::from(key);
    let value = UnknownSvcParam::parse(alloc, key, &mut Parser::from_ref(octets))?;
    let view = UnknownSvcParamRef::parse(key, &mut Parser::from_ref(octets))?;
    Ok(
        value == value.try_clone(alloc)?
            && value == view.to_owned_data(alloc)?
            && is_composed(alloc, &value, octets)?
            && is_composed(alloc, &view, octets)?,
    )
}

/// Whether octets are read as a parameter and composed, as their view is.
fn is_param(alloc: Global, octets: &[u8]) -> Result<bool, ParseError> {
    let param = UnknownSvcParam::parse_param(alloc, &mut Parser::from_ref(octets))?;
    let view = UnknownSvcParamRef::parse_param(&mut Parser::from_ref(octets))?;
    let mut target = Vec::new(alloc);
    param.compose_param(&mut target)?;
    let mut of_view = Vec::new(alloc);
    view.compose_param(&mut of_view)?;
    Ok(target.as_slice() == octets && of_view.as_slice() == octets)
}

#[test]
fn octets_under_a_key_are_copied_and_composed(rt: HostRuntime) {
    for (key, octets, param) in &UNKNOWN {
        assert!(rt; is_unknown(rt.alloc(), *key, octets) == Ok(true), "{key}");
        assert!(rt; is_param(rt.alloc(), param) == Ok(true), "{key}");
    }
}

/// Whether a value of any type is equal to its copies, and composed to octets, as its view is.
fn is_any(alloc: Global, view: &AllValuesRef<'_>, octets: &[u8]) -> Result<bool, NoMemory> {
    let value = view.to_owned_data(alloc)?;
    Ok(
        value == value.try_clone(alloc)?
            && value.for_ref() == *view
            && is_composed(alloc, &value, octets)?
            && is_composed(alloc, view, octets)?,
    )
}

/// Keys, and octets of their types.
const VALUES: [(u16, &[u8]); 18] = [
    (0, b"\x00\x01\x00\x04"),
    (0, b"\x00\x01\x00\x04\xff\x00"),
    (1, b"\x02h2\x05h3-19"),
    (1, b"\x02h3\x02h2"),
    (1, b"\x08f\\oo,bar\x02h2"),
    (2, b""),
    (3, b"\x00\x35"),
    (4, b"\xc0\x00\x02\x01"),
    (4, b"\xc0\x00\x02\x01\xc0\x00\x02\x02"),
    (5, b""),
    (5, b"\xaa"),
    (6, b"\x20\x01\x0d\xb8\0\0\0\0\0\0\0\0\0\0\0\x01"),
    (
        6,
        b"\x20\x01\x0d\xb8\0\0\0\0\0\0\0\0\0\0\0\x01\x20\x01\x0d\xb8\0\0\0\0\0\0\0\0\0\x53\0\x01",
    ),
    (6, b"\0\0\0\0\0\0\0\0\0\0\xff\xff\xc6\x33\x64\x64"),
    (7, b"/q"),
    (7, b"/q{?dns}"),
    (8, b""),
    (9, b"\x00\x1d\x00\x17"),
];

/// The value that octets begin with, under a key.
fn read<'a, V: ParseSvcParamValue<'a>>(
    key: u16,
    octets: &'a [u8],
) -> Result<Option<V>, ParseError> {
    V::parse_value(SvcParamKey::from(key), &mut Parser::from_ref(octets))
}

/// Whether octets are read under a key as a value of any type, which is kept.
fn is_typed(alloc: Global, key: u16, octets: &[u8]) -> Result<bool, NoMemory> {
    let Ok(Some(view)) = read::<AllValuesRef<'_>>(key, octets) else {
        return Ok(false);
    };
    is_any(alloc, &view, octets)
}

/// The value that all octets are under a key, or they as they stand. None for more than a parameter has.
fn value_in<'a>(key: u16, octets: &'a [u8]) -> Option<AllValuesRef<'a>> {
    if octets.len() > 65_535 {
        return None;
    }
    Some(AllValuesRef::parse_any(SvcParamKey::from(key), octets))
}

/// Whether octets under a key, which are no value of its type, are kept.
fn is_untyped(alloc: Global, key: u16, octets: &[u8]) -> Result<bool, NoMemory> {
    let Some(view) = value_in(key, octets) else {
        return Ok(false);
    };
    is_any(alloc, &view, octets)
}

#[test]
fn values_of_any_type_are_copied_and_composed(rt: HostRuntime) {
    for (key, octets) in &VALUES {
        assert!(rt; is_typed(rt.alloc(), *key, octets) == Ok(true), "{key}");
    }
    for (key, octets, _) in &UNKNOWN {
        assert!(rt; is_untyped(rt.alloc(), *key, octets) == Ok(true), "{key}");
    }
}

/// Octets of parameters.
const PARAMS: [&[u8]; 4] = [
    b"",
    b"\x00\x01\x00\x03223\x00\x02\x00\x03224\x00\x08\x00\x03225",
    // a value of no type under its key
    b"\x00\x03\x00\x03\x00\x35\x00\x00\x05\x00\x01\xaa",
    b"\x00\x02\x00\x00\x00\x04\x00\x04\xc0\x00\x02\x01\x00\x05\x00\x01\xaa\
        \x00\x06\x00\x10\x20\x01\x0d\xb8\0\0\0\0\0\0\0\0\0\0\0\x01\x00\x07\x00\x02/q\x00\x08\x00\x00",
];

/// Whether octets are read as parameters that are equal to their copies, and composed, as their view is.
fn are_params(alloc: Global, octets: &[u8]) -> Result<bool, ParseError> {
    let params = SvcParams::parse(alloc, &mut Parser::from_ref(octets))?;
    let view = SvcParamsRef::parse(&mut Parser::from_ref(octets))?;
    let mut target = Vec::new(alloc);
    params.compose(&mut target)?;
    let mut of_view = Vec::new(alloc);
    view.compose(&mut of_view)?;
    Ok(
        params == params.try_clone(alloc)?
            && params == view.to_owned_data(alloc)?
            && target.as_slice() == octets
            && of_view.as_slice() == octets,
    )
}

/// Whether a builder that begins with parameters, and its copy, are frozen to them.
fn are_frozen(alloc: Global, octets: &[u8]) -> Result<bool, BufError> {
    let Ok(view) = SvcParamsRef::from_slice(octets) else {
        return Ok(false);
    };
    let builder = SvcParamsBuilder::from_params(alloc, &view)?;
    let params = builder.freeze(alloc)?;
    let copy = builder.try_clone()?.freeze(alloc)?;
    Ok(params == copy && copy.as_slice() == octets)
}

#[test]
fn parameters_are_copied_and_composed(rt: HostRuntime) {
    for octets in &PARAMS {
        assert!(rt; are_params(rt.alloc(), octets) == Ok(true), "{octets:?}");
        assert!(rt; are_frozen(rt.alloc(), octets) == Ok(true), "{octets:?}");
    }
}
