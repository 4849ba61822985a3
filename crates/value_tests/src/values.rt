//! Values of any octets, read and composed.

use registry::{BuildValueError, SvcParamKey};
use std::alloc::Global;
use svcb_value::{DohPath, UnknownSvcParam};
use wire_base::{ParseError, Parser};

/// Whether octets are the parameter `alpn=223`, which is read and composed.
fn is_alpn(alloc: Global, octets: &[u8]) -> Result<bool, ParseError> {
    let param = UnknownSvcParam::parse_param(alloc, &mut Parser::from_ref(octets))?;
    let mut target = Vec::new(alloc);
    param.compose_param(&mut target)?;
    let is_kept = target.as_slice() == octets;
    Ok(is_kept && param.key() == SvcParamKey::ALPN && param.as_slice() == b"223".as_slice())
}

/// Whether octets are read whole under a key of no type.
fn is_read(alloc: Global, octets: &[u8]) -> Result<bool, ParseError> {
    let mut parser = Parser::from_ref(octets);
    let param = UnknownSvcParam::parse(alloc, SvcParamKey::from(667), &mut parser)?;
    Ok(param.as_slice() == octets)
}

/// Whether a path that is made of a text is the one that is read of its octets.
fn is_path(alloc: Global, text: &str) -> Result<bool, BuildValueError> {
    let path = DohPath::from_text(alloc, text)?;
    match DohPath::parse(alloc, &mut Parser::from_ref(text.as_bytes())) {
        Ok(read) => Ok(read == path),
        Err(_) => Ok(false),
    }
}

#[test]
fn values_of_any_octets_are_read(rt: HostRuntime) {
    assert!(rt; is_alpn(rt.alloc(), b"\x00\x01\x00\x03223") == Ok(true));
    assert!(rt; is_read(rt.alloc(), b"hello\xd2qoo") == Ok(true));
    assert!(rt; is_path(rt.alloc(), "/q{?dns}") == Ok(true));
}
