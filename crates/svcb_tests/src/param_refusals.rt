//! Values that are not pushed, and parameters that a limit keeps out.

use crate::building::{has, push_alpn};
use registry::SvcParamKey;
use std::alloc::Global;
use svcb_params::{
    BufError, PushAlpnError, PushError, PushValueError, SvcParamsBuilder, SvcParamsOverlay,
    SvcParamsRef,
};
use svcb_value::Port;
use wire_base::{Ipv4Addr, Ipv6Addr, NoMemory};

/// A key so many times.
fn copies(alloc: Global, key: SvcParamKey, count: usize) -> Result<Vec<SvcParamKey>, NoMemory> {
    let mut keys = Vec::new(alloc);
    for _ in 0..count {
        keys.push(key)?;
    }
    Ok(keys)
}

/// Whether values are refused by their own faults, and the builder stays.
fn are_refused(alloc: Global) -> Result<bool, NoMemory> {
    let mut builder = SvcParamsBuilder::empty(alloc);
    let keys = copies(alloc, SvcParamKey::ALPN, 32768)?;
    let are_faults = push_alpn(alloc, &mut builder, b"") == Err(PushAlpnError::InvalidProtocol)
        && builder.mandatory(&keys) == Err(PushValueError::LongSvcParam)
        && builder.tls_supported_groups(&[]) == Err(PushValueError::EmptyValue);
    Ok(are_faults && has(alloc, &builder, b""))
}

/// Whether a port is pushed once, and not over a limit of 5 octets.
fn is_pushed_once(alloc: Global) -> bool {
    let mut short = SvcParamsBuilder::with_limit(alloc, 5);
    let mut builder = SvcParamsBuilder::empty(alloc);
    short.port(53) == Err(PushError::ShortBuf)
        && builder.port(53) == Ok(())
        && builder.port(53) == Err(PushError::DuplicateKey)
}

/// As `is_pushed_once`, on parameters that were read: none of them.
fn is_added_once(alloc: Global, params: &SvcParamsRef<'_>) -> Result<bool, BufError> {
    let mut short = SvcParamsOverlay::new(alloc, params, 5)?;
    let mut overlay = SvcParamsOverlay::new(alloc, params, 6)?;
    let port = Port::new(53);
    Ok(
        short.push(&port) == Err(PushError::ShortBuf)
            && overlay.push(&port) == Ok(())
            && overlay.push(&port) == Err(PushError::DuplicateKey),
    )
}

#[test]
fn values_are_refused(rt: HostRuntime) {
    assert!(rt; are_refused(rt.alloc()) == Ok(true));
    assert!(rt; is_pushed_once(rt.alloc()));
    let Ok(params) = SvcParamsRef::from_slice(b"") else {
        panic!(rt; "no parameters")
    };
    assert!(rt; is_added_once(rt.alloc(), &params) == Ok(true));
}

/// Whether six values, pushed by descending keys, are frozen by ascending ones.
fn are_six(alloc: Global) -> Result<bool, PushValueError> {
    let mut builder = SvcParamsBuilder::empty(alloc);
    builder.ohttp()?;
    builder.dohpath("/q")?;
    let address = [0x20, 1, 0x0d, 0xb8, 0, 0, 0, 0, 0, 0, 0, 0, 0, 0, 0, 1];
    builder.ipv6hint(&[Ipv6Addr::new(address)])?;
    builder.ech(&[0xaa])?;
    builder.ipv4hint(&[Ipv4Addr::new([192, 0, 2, 1])])?;
    builder.no_default_alpn()?;
    let octets = b"\x00\x02\x00\x00\x00\x04\x00\x04\xc0\x00\x02\x01\x00\x05\x00\x01\xaa\
        \x00\x06\x00\x10\x20\x01\x0d\xb8\x00\x00\x00\x00\x00\x00\x00\x00\x00\x00\x00\x01\
        \x00\x07\x00\x02/q\x00\x08\x00\x00";
    Ok(has(alloc, &builder, octets))
}

#[test]
fn values_are_frozen_by_ascending_keys(rt: HostRuntime) {
    assert!(rt; are_six(rt.alloc()) == Ok(true));
}

/// Whether a builder of parameters within a limit has them.
fn are_within(alloc: Global, params: &SvcParamsRef<'_>, limit: u16) -> Result<bool, BufError> {
    let builder = SvcParamsBuilder::from_params_limit(alloc, params, usize::from(limit))?;
    Ok(has(alloc, &builder, params.as_slice()))
}

/// Whether a builder that begins with parameters has them.
fn are_begun_with(alloc: Global, params: &SvcParamsRef<'_>) -> Result<bool, BufError> {
    let builder = SvcParamsBuilder::from_params(alloc, params)?;
    Ok(has(alloc, &builder, params.as_slice()))
}

#[test]
fn parameters_are_kept_within_a_limit(rt: HostRuntime) {
    // three octets under the key of `port`, and one under the key of `ech`
    let octets = b"\x00\x03\x00\x03\x00\x35\x00\x00\x05\x00\x01\xaa";
    let Ok(params) = SvcParamsRef::from_slice(octets) else {
        panic!(rt; "no parameters")
    };
    assert!(rt; are_begun_with(rt.alloc(), &params) == Ok(true));
    assert!(rt; are_within(rt.alloc(), &params, 12) == Ok(true));
    assert!(rt; are_within(rt.alloc(), &params, 11) == Err(BufError::ShortBuf));
}
