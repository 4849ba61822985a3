//! The lines of an input of `edit` that push a value.
ghost use Rattle.std.specs.Prelude.{◌≡◌, ◌<◌, ◌≤◌, length, IfOk, MatchOption};
ghost use Rattle.std.specs.Option.{option_map, option_copied};
ghost use Rattle.svcb_spec.specs.Values.{Unknown};
ghost use Rattle.svcb_text.specs.AllValues.{value_of};
ghost use Rattle.input_lines.specs.Lines.{words};
ghost use Rattle.edit_program.specs.Pushes.{key_in_text, value_octets, raw_value, raw_of_words, push_of};

use crate::token_pushes::token_param;
use input_lines::hexadecimal::octets_in;
use input_lines::lines::Pieces;
use input_lines::numbers::number;
use std::alloc::Global;
use svcb_rdata::{AllValues, SvcParamKey, UnknownSvcParam};
use wire_base::{NoMemory, Octets};

/// How a line begins that gives the octets of a value.
const RAW: &[u8] = b"raw ";

/// A line `raw KEY`, or `raw KEY HEX`.
#[derive(Clone, Copy)]
struct RawLine<'a> {
    key: u16,
    hex: Option<&'a [u8]>,
}

/// Reads a key.
fn key_in(text: &[u8]) -> Option<u16>
    ensures { result ≡ key_in_text text.now }
{
    u16::try_from(number(text)?).ok()
}

/// Takes apart what follows `raw` and a blank, but for its hexadecimal.
fn raw_line(text: &[u8]) -> Option<RawLine<'_>>
    ensures { MatchOption result
        (raw_of_words (words text.now) ≡ None)
        (λ raw. raw_of_words (words text.now) ≡ raw_value raw.key (option_copied raw.hex)) }
{
    let mut words = Pieces::new(text, b' ');
    let key = key_in(words.next()?)?;
    let hex = words.next();
    match words.next() {
        Some(_) => None,
        None => Some(RawLine { key, hex }),
    }
}

/// The value under a key, where it isn't too long.
fn param(key: u16, octets: Octets) -> Option<AllValues>
    ensures { MatchOption result
        (u16.MAX < length octets)
        (λ push. (length octets ≤ u16.MAX) × (value_of push ≡ Unknown key octets)) }
{
    let param = UnknownSvcParam::new(SvcParamKey::from(key), octets).ok()?;
    Some(AllValues::from(param))
}

/// Reads what follows `raw` and a blank.
fn raw_param(alloc: Global, text: &[u8]) -> Result<Option<AllValues>, NoMemory>
    ensures { IfOk result (λ push. option_map value_of push ≡ raw_of_words (words text.now)) }
{
    let Some(raw) = raw_line(text) else {
        return Ok(None);
    };
    let Some(hex) = raw.hex else {
        return Ok(param(raw.key, Octets::from_vec(Vec::new(alloc))));
    };
    match octets_in(alloc, hex)? {
        Some(octets) if !octets.is_empty() => Ok(param(raw.key, octets)),
        _ => Ok(None),
    }
}

/// Reads `raw KEY`, `raw KEY HEX`, or the text of a parameter. Fails only with `NoMemory`.
pub fn push_in(alloc: Global, line: &[u8]) -> Result<Option<AllValues>, NoMemory>
    ensures { IfOk result (λ push. option_map value_of push ≡ push_of line.now) }
{
    match line.strip_prefix(RAW) {
        Some(text) => raw_param(alloc, text),
        None => token_param(alloc, line),
    }
}
