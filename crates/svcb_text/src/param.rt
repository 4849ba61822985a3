//! One parameter, read from the octets of its token.

ghost use Rattle.std.specs.Prelude.{◌≡◌};
ghost use Rattle.std.specs.List.{list_all};
ghost use Rattle.svcb_text.specs.AllValues.{value_of};
ghost use Rattle.text_spec.specs.Scanning.{Answers};
ghost use Rattle.svcb_spec.specs.ParamTexts.{key_text, value_text, is_key_octet, value_behind, spells};

use crate::AllValues;
use crate::all_values_scan::scan_value;
use crate::single_values::scan_opaque;
use registry::{IanaNumber, SvcParamKey};
use std::alloc::Global;
use text_spec::ScanError;

/// The value that the octets of a token spell: a key, and behind an `=` the value's text, as `port=53` (RFC 9460,
/// section 2.1). With no `=` the text has no octets. Behind a mnemonic stands a value of the key's type, as `alpn=h2`;
/// behind `key` and a number stand any octets, as `key1=h2`.
///
/// `EmptyParam`: the token has no octets. `BadKeyChar`: its key has an octet other than `a` to `z`, `0` to `9` and `-`.
/// `UnknownKey`: it names no key. Or the first fault of the value's text. `NoMemory`: allocation failed.
pub fn scan_param(alloc: Global, token: &[u8]) -> Result<AllValues, ScanError>
    ensures { Answers value_of result (spells token.now) }
{
    if token.is_empty() {
        return Err(ScanError::EmptyParam);
    }
    let (key, text) = split_at_equals(token);
    if !is_key_text(key) {
        return Err(ScanError::BadKeyChar);
    }
    scan_behind(alloc, key, text)
}

/// What stands before the first `=`, and what stands behind it.
fn split_at_equals(token: &[u8]) -> (&[u8], &[u8])
    ensures key { result.0.now ≡ key_text token.now }
    ensures value { result.1.now ≡ value_text token.now }
{
    for (i, c) in token.iter().enumerate() {
        if *c == b'=' {
            return (&token[..i], &token[i + 1..]);
        }
    }
    (token, &[])
}

/// Whether octets may be those of a key.
fn is_key_text(key: &[u8]) -> bool
    ensures { result ≡ list_all is_key_octet key.now }
{
    for c in key {
        if !is_key_octet(*c) {
            return false;
        }
    }
    true
}

/// Whether a key may have an octet.
fn is_key_octet(c: u8) -> bool
    ensures { result ≡ is_key_octet c }
{
    matches!(c, b'a'..=b'z' | b'0'..=b'9' | b'-')
}

/// The value that a text spells behind a key.
fn scan_behind(alloc: Global, key: &[u8], text: &[u8]) -> Result<AllValues, ScanError>
    ensures { Answers value_of result (value_behind key.now text.now) }
{
    match SvcParamKey::from_mnemonic(key) {
        Some(key) => scan_value(alloc, key, text),
        None => {
            let key = SvcParamKey::from_bytes(key).ok_or(ScanError::UnknownKey)?;
            Ok(AllValues::Unknown(scan_opaque(alloc, key, text)?))
        }
    }
}
