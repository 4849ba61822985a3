//! Builders and overlays that are refused memory. One request may be refused in all: the call that makes it is made
//! again, so two objects are compared whichever of them it was.

use crate::building::{ALL_TYPES, push_alpn};
use registry::SvcParamKey;
use std::alloc::Global;
use std::test::Fail;
use svcb_params::{
    BufError, PushAlpnError, PushError, PushValueError, SvcParams, SvcParamsBuilder,
    SvcParamsOverlay, SvcParamsRef,
};
use svcb_value::UnknownSvcParamRef;
use wire_base::{Ipv4Addr, Ipv6Addr, NoMemory};

/// Keys in no order, each once.
const KEYS: [u16; 32] = [
    19, 4, 27, 12, 30, 1, 22, 9, 16, 25, 6, 31, 14, 3, 20, 11, 28, 7, 18, 0, 23, 10, 29, 2, 17, 8,
    26, 13, 5, 24, 15, 21,
];

/// Parameters that were read: keys 100 to 102.
const READ: &[u8] = b"\x00\x64\x00\x01a\x00\x65\x00\x00\x00\x66\x00\x03bcd";

/// The octets of those parameters and of a value under each key.
const LIMIT: usize = 16 + 32 * 7;

/// A value of three octets under a key.
fn value(key: u16) -> [u8; 3] {
    let [high, low] = key.to_be_bytes();
    [high, low, 0xff]
}

/// An overlay of the parameters that were read.
fn new_overlay<'a>(
    alloc: Global,
    params: &SvcParamsRef<'a>,
) -> Result<SvcParamsOverlay<'a>, BufError> {
    match SvcParamsOverlay::new(alloc, params, LIMIT) {
        Err(BufError::NoMemory) => SvcParamsOverlay::new(alloc, params, LIMIT),
        outcome => outcome,
    }
}

/// Adds the value under a key.
fn add(overlay: &mut SvcParamsOverlay<'_>, key: u16) -> Result<(), PushError> {
    let octets = value(key);
    match UnknownSvcParamRef::new(SvcParamKey::from(key), &octets) {
        Ok(param) => overlay.push(&param),
        Err(_) => Err(PushError::ShortBuf),
    }
}

/// Adds a value under each key but one, and gives the key of an addition that was refused memory.
fn add_all(overlay: &mut SvcParamsOverlay<'_>, left_out: Option<u16>) -> Option<u16> {
    let mut refused = None;
    for key in KEYS {
        if left_out != Some(key) && add(overlay, key) == Err(PushError::NoMemory) {
            refused = Some(key);
        }
    }
    refused
}

/// The octets of an overlay. Where it is refused memory the target stays empty, and the overlay is composed again.
fn octets_of(alloc: Global, overlay: &SvcParamsOverlay<'_>) -> Result<Vec<u8>, NoMemory> {
    let mut octets = Vec::new(alloc);
    if overlay.compose(&mut octets).is_err() && octets.is_empty() {
        overlay.compose(&mut octets)?;
    }
    Ok(octets)
}

/// Whether two overlays have the same octets, and this count of those that were added.
fn are_alike(
    alloc: Global,
    overlay: &SvcParamsOverlay<'_>,
    other: &SvcParamsOverlay<'_>,
    kept: usize,
) -> Result<bool, NoMemory> {
    let octets = octets_of(alloc, overlay)?;
    let others = octets_of(alloc, other)?;
    Ok(
        overlay.kept() == kept
            && other.kept() == kept
            && octets.len() == overlay.len()
            && octets.as_slice() == others.as_slice(),
    )
}

#[test]
fn overlay_forgets_a_push_without_memory(rt: HostRuntime) -> Result<(), Fail> {
    let alloc = rt.alloc();
    let params = SvcParamsRef::from_slice(READ)?;
    let mut overlay = new_overlay(alloc, &params)?;
    let refused = add_all(&mut overlay, None);
    let mut other = new_overlay(alloc, &params)?;
    if let Some(key) = add_all(&mut other, refused) {
        assert_eq!(rt; add(&mut other, key), Ok(()));
    }
    let kept = if refused.is_some() { 93 } else { 96 };
    assert!(rt; are_alike(alloc, &overlay, &other, kept)?);
    if let Some(key) = refused {
        assert_eq!(rt; add(&mut overlay, key), Ok(()));
        assert_eq!(rt; add(&mut other, key), Ok(()));
    }
    assert!(rt; are_alike(alloc, &overlay, &other, 96)?);
    assert_eq!(rt; overlay.len(), LIMIT);
    assert_eq!(rt; add(&mut overlay, 32), Err(PushError::ShortBuf));
    Ok(())
}

/// The octets of those parameters, of a value of each type under the keys below 10, and of a value under each other
/// key.
const BUILT: usize = 16 + 72 + 22 * 7;

/// A builder of the parameters that were read.
fn new_builder(alloc: Global, params: &SvcParamsRef<'_>) -> Result<SvcParamsBuilder, BufError> {
    match SvcParamsBuilder::from_params_limit(alloc, params, BUILT) {
        Err(BufError::NoMemory) => SvcParamsBuilder::from_params_limit(alloc, params, BUILT),
        outcome => outcome,
    }
}

/// Pushes octets under a key.
fn push_octets(builder: &mut SvcParamsBuilder, key: u16) -> Result<(), PushValueError> {
    let octets = value(key);
    match UnknownSvcParamRef::new(SvcParamKey::from(key), &octets) {
        Ok(param) => Ok(builder.push(&param)?),
        Err(_) => Err(PushValueError::LongSvcParam),
    }
}

/// Pushes protocols.
fn push_protocols(alloc: Global, builder: &mut SvcParamsBuilder) -> Result<(), PushValueError> {
    match push_alpn(alloc, builder, b"h2") {
        Ok(()) => Ok(()),
        Err(PushAlpnError::NoMemory) => Err(PushValueError::NoMemory),
        Err(_) => Err(PushValueError::EmptyValue),
    }
}

/// Pushes a value of the type that a key has, and octets under a key without one.
fn push(alloc: Global, builder: &mut SvcParamsBuilder, key: u16) -> Result<(), PushValueError> {
    let address = [
        0x20, 0x01, 0x0d, 0xb8, 0, 0, 0, 0, 0, 0, 0, 0, 0, 0, 0, 0x01,
    ];
    match key {
        0 => builder.mandatory(&[SvcParamKey::ALPN]),
        1 => push_protocols(alloc, builder),
        2 => Ok(builder.no_default_alpn()?),
        3 => Ok(builder.port(53)?),
        4 => builder.ipv4hint(&[Ipv4Addr::new([192, 0, 2, 1])]),
        5 => builder.ech(&[0xaa]),
        6 => builder.ipv6hint(&[Ipv6Addr::new(address)]),
        7 => builder.dohpath("/q"),
        8 => Ok(builder.ohttp()?),
        9 => builder.tls_supported_groups(&[29]),
        _ => push_octets(builder, key),
    }
}

/// Pushes a value under each key but one, and gives the key of a push that was refused memory.
fn push_all(alloc: Global, builder: &mut SvcParamsBuilder, left_out: Option<u16>) -> Option<u16> {
    let mut refused = None;
    for key in KEYS {
        if left_out != Some(key) && push(alloc, builder, key) == Err(PushValueError::NoMemory) {
            refused = Some(key);
        }
    }
    refused
}

/// The parameters of a builder, frozen again where that is refused memory.
fn frozen(alloc: Global, builder: &SvcParamsBuilder) -> Result<SvcParams, NoMemory> {
    match builder.freeze(alloc) {
        Err(NoMemory) => builder.freeze(alloc),
        outcome => outcome,
    }
}

/// A copy of a builder, made again where that is refused memory.
fn copied(builder: &SvcParamsBuilder) -> Result<SvcParamsBuilder, NoMemory> {
    match builder.try_clone() {
        Err(NoMemory) => builder.try_clone(),
        outcome => outcome,
    }
}

/// Whether two builders have the same octets.
fn are_built_alike(
    alloc: Global,
    builder: &SvcParamsBuilder,
    other: &SvcParamsBuilder,
) -> Result<bool, NoMemory> {
    let params = frozen(alloc, builder)?;
    let others = frozen(alloc, other)?;
    Ok(params.len() == builder.len() && params.as_slice() == others.as_slice())
}

#[test]
fn builder_forgets_a_push_without_memory(rt: HostRuntime) -> Result<(), Fail> {
    let alloc = rt.alloc();
    let params = SvcParamsRef::from_slice(READ)?;
    let mut builder = new_builder(alloc, &params)?;
    let refused = push_all(alloc, &mut builder, None);
    let mut other = new_builder(alloc, &params)?;
    if let Some(key) = push_all(alloc, &mut other, refused) {
        assert_eq!(rt; push(alloc, &mut other, key), Ok(()));
    }
    assert!(rt; are_built_alike(alloc, &builder, &other)?);
    if let Some(key) = refused {
        assert_eq!(rt; push(alloc, &mut builder, key), Ok(()));
        assert_eq!(rt; push(alloc, &mut other, key), Ok(()));
    }
    assert!(rt; are_built_alike(alloc, &builder, &other)?);
    assert!(rt; are_built_alike(alloc, &copied(&builder)?, &other)?);
    assert!(rt; frozen(alloc, &other)?.as_slice().starts_with(ALL_TYPES));
    assert_eq!(rt; builder.len(), BUILT);
    assert_eq!(rt;
        push(alloc, &mut builder, 32),
        Err(PushValueError::ShortBuf)
    );
    Ok(())
}
