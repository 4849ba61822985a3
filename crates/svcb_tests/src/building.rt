//! Values pushed: in any order, of each type, and of another crate.

use crate::level::Level;
use registry::SvcParamKey;
use std::alloc::Global;
use svcb_params::{
    BufError, PushAlpnError, PushError, PushValueError, SvcParams, SvcParamsBuilder, SvcParamsRef,
};
use svcb_value::UnknownSvcParamRef;
use wire_base::{Ipv4Addr, Ipv6Addr, Octets};

/// Whether a builder has parameters of these octets.
pub(crate) fn has(alloc: Global, builder: &SvcParamsBuilder, octets: &[u8]) -> bool {
    match builder.freeze(alloc) {
        Ok(params) => params.as_slice() == octets,
        Err(_) => false,
    }
}

/// Pushes octets under a key, from where they stand.
fn push(builder: &mut SvcParamsBuilder, key: u16, octets: &[u8]) -> Result<(), PushError> {
    match UnknownSvcParamRef::new(SvcParamKey::from(key), octets) {
        Ok(param) => builder.push(&param),
        Err(_) => Err(PushError::ShortBuf),
    }
}

/// Pushes three values, in no order of their keys.
fn push_three(builder: &mut SvcParamsBuilder) -> Result<(), PushError> {
    push(builder, 1, b"223")?;
    push(builder, 8, b"225")?;
    push(builder, 2, b"224")
}

/// The parameters of those three values.
const THREE: &[u8] = b"\x00\x01\x00\x03223\x00\x02\x00\x03224\x00\x08\x00\x03225";

/// Whether keys are frozen in ascending order, and the first value of a key stays.
fn are_in_order(alloc: Global) -> Result<bool, PushError> {
    let mut builder = SvcParamsBuilder::empty(alloc);
    push_three(&mut builder)?;
    let is_frozen = has(alloc, &builder, THREE);
    let again = push(&mut builder, 8, b"226");
    Ok(is_frozen && again == Err(PushError::DuplicateKey) && has(alloc, &builder, THREE))
}

/// Whether the three values that a closure pushes are the same parameters.
fn are_three_of_a_closure(alloc: Global) -> Result<bool, PushError> {
    let params = SvcParams::from_values(
        alloc,
        |builder: &mut SvcParamsBuilder| push_three(builder),
    )?;
    Ok(params.as_slice() == THREE)
}

/// Whether a closure that is refused a value has no parameters, for that reason.
fn is_closure_refused(alloc: Global) -> bool {
    let params = SvcParams::from_values(alloc, |builder: &mut SvcParamsBuilder| {
        builder.port(53)?;
        builder.port(53)
    });
    matches!(params, Err(PushError::DuplicateKey))
}

/// Whether the values that a closure pushes are parameters.
fn are_of_a_closure(alloc: Global) -> Result<bool, PushError> {
    let params = SvcParams::from_values(alloc, |builder: &mut SvcParamsBuilder| {
        builder.ohttp()?;
        builder.port(53)
    })?;
    Ok(params.as_slice() == b"\x00\x03\x00\x02\x00\x35\x00\x08\x00\x00".as_slice())
}

/// Whether a value of another crate is pushed, and read again.
fn is_level(alloc: Global, level: u8) -> Result<bool, PushError> {
    let key = SvcParamKey::from(SvcParamKey::PRIVATE_RANGE_BEGIN);
    let mut builder = SvcParamsBuilder::empty(alloc);
    builder.push(&Level { key, level })?;
    let params = builder.freeze(alloc)?;
    Ok(params.first::<Level>() == Some(Level { key, level }))
}

#[test]
fn values_are_pushed(rt: HostRuntime) {
    assert!(rt; are_in_order(rt.alloc()) == Ok(true));
    assert!(rt; are_three_of_a_closure(rt.alloc()) == Ok(true));
    assert!(rt; is_closure_refused(rt.alloc()));
    assert!(rt; are_of_a_closure(rt.alloc()) == Ok(true));
    assert!(rt; is_level(rt.alloc(), 7) == Ok(true));
}

/// A value under each key that has a type.
pub(crate) const ALL_TYPES: &[u8] = b"\x00\x00\x00\x02\x00\x01\
    \x00\x01\x00\x03\x02h2\
    \x00\x02\x00\x00\
    \x00\x03\x00\x02\x00\x35\
    \x00\x04\x00\x04\xc0\x00\x02\x01\
    \x00\x05\x00\x01\xaa\
    \x00\x06\x00\x10\x20\x01\x0d\xb8\x00\x00\x00\x00\x00\x00\x00\x00\x00\x00\x00\x01\
    \x00\x07\x00\x02/q\
    \x00\x08\x00\x00\
    \x00\x09\x00\x02\x00\x1d";

/// Pushes the values of other than protocols that stand there.
fn push_all(builder: &mut SvcParamsBuilder) -> Result<(), PushValueError> {
    let address = [
        0x20, 0x01, 0x0d, 0xb8, 0, 0, 0, 0, 0, 0, 0, 0, 0, 0, 0, 0x01,
    ];
    builder.tls_supported_groups(&[29])?;
    builder.ohttp()?;
    builder.dohpath("/q")?;
    builder.ipv6hint(&[Ipv6Addr::new(address)])?;
    builder.ech(&[0xaa])?;
    builder.ipv4hint(&[Ipv4Addr::new([192, 0, 2, 1])])?;
    builder.port(53)?;
    builder.no_default_alpn()?;
    builder.mandatory(&[SvcParamKey::ALPN])
}

/// Pushes one protocol.
pub(crate) fn push_alpn(
    alloc: Global,
    builder: &mut SvcParamsBuilder,
    protocol: &[u8],
) -> Result<(), PushAlpnError> {
    let protocols = [Octets::from_slice(alloc, protocol)?];
    builder.alpn(&protocols)
}

/// Whether a value of each type is pushed.
fn are_all_pushed(alloc: Global) -> Result<bool, PushValueError> {
    let mut builder = SvcParamsBuilder::empty(alloc);
    push_all(&mut builder)?;
    let alpn = push_alpn(alloc, &mut builder, b"h2");
    Ok(alpn == Ok(()) && has(alloc, &builder, ALL_TYPES))
}

/// Whether the values of parameters, pushed one by one, are the same parameters.
fn are_pushed_again(alloc: Global, params: &SvcParamsRef<'_>) -> Result<bool, PushError> {
    let mut builder = SvcParamsBuilder::empty(alloc);
    for item in params.iter_all() {
        match &item {
            Ok(value) => builder.push(value)?,
            Err(_) => return Ok(false),
        }
    }
    Ok(has(alloc, &builder, params.as_slice()))
}

/// Whether a copy of a builder that begins with parameters has them.
fn are_begun_with(alloc: Global, params: &SvcParamsRef<'_>) -> Result<bool, BufError> {
    let copy = SvcParamsBuilder::from_params(alloc, params)?.try_clone()?;
    Ok(has(alloc, &copy, params.as_slice()))
}

#[test]
fn values_of_each_type_are_pushed(rt: HostRuntime) {
    assert!(rt; are_all_pushed(rt.alloc()) == Ok(true));
    let Ok(params) = SvcParamsRef::from_slice(ALL_TYPES) else {
        panic!(rt; "no parameters")
    };
    assert!(rt; are_pushed_again(rt.alloc(), &params) == Ok(true));
    assert!(rt; are_begun_with(rt.alloc(), &params) == Ok(true));
}
