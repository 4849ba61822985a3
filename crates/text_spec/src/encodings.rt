//! Octets that a text spells in base64 and in base16.

ghost use Rattle.std.specs.Option.{ok_or};
ghost use Rattle.text_spec.specs.Encodings.{base16_of, base64_of};
ghost use Rattle.text_spec.specs.Scanning.{Answers};

use crate::errors::ScanError;
use base64::DecodeAllocError;
use base64::engine::general_purpose::STANDARD;
use hex::FromHexError;
use std::alloc::Global;
use wire_base::Octets;

/// The octets that a text spells in base64 (RFC 4648, section 4).
///
/// `BadBase64`: it is no base64 text. `NoMemory`: the allocation of the octets failed.
pub fn decode_base64(alloc: Global, text: &[u8]) -> Result<Octets, ScanError>
    ensures { Answers (λ octets. octets) result
        (ok_or (base64_of text.now) ScanError.BadBase64) }
{
    match STANDARD.decode(alloc, text) {
        Ok(octets) => Ok(Octets::from_vec(octets)),
        Err(DecodeAllocError::OutOfMemory) => Err(ScanError::NoMemory),
        Err(DecodeAllocError::DecodeError(_error)) => Err(ScanError::BadBase64),
    }
}

/// The octets that a text spells in base16, in either case (RFC 4648, section 8).
///
/// `BadBase16`: it is no base16 text. `NoMemory`: the allocation of the octets failed.
pub fn decode_base16(alloc: Global, text: &[u8]) -> Result<Octets, ScanError>
    ensures { Answers (λ octets. octets) result
        (ok_or (base16_of text.now) ScanError.BadBase16) }
{
    match hex::decode(alloc, text) {
        Ok(octets) => Ok(Octets::from_vec(octets)),
        Err(FromHexError::OutOfMemory) => Err(ScanError::NoMemory),
        Err(_) => Err(ScanError::BadBase16),
    }
}
