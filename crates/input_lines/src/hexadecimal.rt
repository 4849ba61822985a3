//! Octets in hexadecimal.
ghost use Rattle.std.specs.Prelude.{◌≡◌, ◌*◌, ◌<◌, ℕ, None, Some, drop, length, IfOk, OnErr, IsErrOf, IsSomeAnd, MatchOption, slice_get, slice_index, option_and_then, unwrap_or};
ghost use Rattle.std.specs.Result.{result_ok};
ghost use Rattle.hex.specs.Hex.{hex_digit_value, pair_value};
ghost use Rattle.input_lines.specs.Hexadecimal.{hexadecimal_octets, IsInPairs};
ghost use Rattle.input_lines.specs.Spelling.{line_or_fault, SpellsAs};

use crate::faults::{InputFault, SpellError};
use crate::lines::Lines;
use std::alloc::Global;
use wire_base::{NoMemory, Octets};

/// What stands in the table for an octet that is no digit.
const NO_DIGIT: u8 = 255;

/// The values of digits, in either case, by their octets.
const DIGIT_VALUES: &[u8; 256] = &[
    255, 255, 255, 255, 255, 255, 255, 255, 255, 255, 255, 255, 255, 255, 255, 255, 255, 255, 255,
    255, 255, 255, 255, 255, 255, 255, 255, 255, 255, 255, 255, 255, 255, 255, 255, 255, 255, 255,
    255, 255, 255, 255, 255, 255, 255, 255, 255, 255, 0, 1, 2, 3, 4, 5, 6, 7, 8, 9, 255, 255, 255,
    255, 255, 255, 255, 10, 11, 12, 13, 14, 15, 255, 255, 255, 255, 255, 255, 255, 255, 255, 255,
    255, 255, 255, 255, 255, 255, 255, 255, 255, 255, 255, 255, 255, 255, 255, 255, 10, 11, 12, 13,
    14, 15, 255, 255, 255, 255, 255, 255, 255, 255, 255, 255, 255, 255, 255, 255, 255, 255, 255,
    255, 255, 255, 255, 255, 255, 255, 255, 255, 255, 255, 255, 255, 255, 255, 255, 255, 255, 255,
    255, 255, 255, 255, 255, 255, 255, 255, 255, 255, 255, 255, 255, 255, 255, 255, 255, 255, 255,
    255, 255, 255, 255, 255, 255, 255, 255, 255, 255, 255, 255, 255, 255, 255, 255, 255, 255, 255,
    255, 255, 255, 255, 255, 255, 255, 255, 255, 255, 255, 255, 255, 255, 255, 255, 255, 255, 255,
    255, 255, 255, 255, 255, 255, 255, 255, 255, 255, 255, 255, 255, 255, 255, 255, 255, 255, 255,
    255, 255, 255, 255, 255, 255, 255, 255, 255, 255, 255, 255, 255, 255, 255, 255, 255, 255, 255,
    255, 255, 255, 255, 255, 255, 255, 255, 255, 255, 255, 255, 255, 255, 255, 255, 255, 255, 255,
    255, 255, 255,
];

/// The table of digits.
fn digit_values() -> &'static [u8; 256]
    ensures { (c : ℕ) → c < 256
        → slice_index result.now c ≡ unwrap_or (hex_digit_value c) 255 }
{
    DIGIT_VALUES
}

/// The value of a digit, in either case, or `NO_DIGIT`.
fn digit_value(digit: u8) -> u8
    ensures { result ≡ unwrap_or (hex_digit_value digit) 255 }
{
    digit_values()[usize::from(digit)]
}

/// The octet of two digits.
fn octet_of(high: u8, low: u8) -> Option<u8>
    ensures { (at : ℕ) → result ≡ result_ok (pair_value high low at) }
{
    let high = digit_value(high);
    let low = digit_value(low);
    if (high == NO_DIGIT) | (low == NO_DIGIT) {
        return None;
    }
    Some(high * 16 + low)
}

/// Writes the octet of each two digits, where all are digits.
fn decode(digits: &[u8], octets: &mut [u8]) -> Option<()>
    requires { length digits.now ≡ 2 * length octets.old }
    ensures { MatchOption result
        (hexadecimal_octets digits.now ≡ None)
        (λ _. hexadecimal_octets digits.now ≡ Some octets.new) }
{
    for i in 0..octets.len() {
        octets[i] = octet_of(digits[2 * i], digits[2 * i + 1])?;
    }
    Some(())
}

/// Reads an even count of hexadecimal digits, in either case. Fails only with `NoMemory`, where the count is even and
/// not 0.
#[tactic(auto, using(crate::proofs::HexadecimalLemmas::no_octets))]
pub fn octets_in(alloc: Global, text: &[u8]) -> Result<Option<Octets>, NoMemory>
    ensures value { IfOk result (λ octets. octets ≡ hexadecimal_octets text.now) }
    ensures memory { OnErr result (IsInPairs text.now) }
{
    if text.is_empty() {
        return Ok(Some(Octets::from_vec(Vec::new(alloc))));
    }
    if text.len() % 2 != 0 {
        return Ok(None);
    }
    let mut octets = vec![in alloc; 0; text.len() / 2]?;
    match decode(text, octets.as_mut_slice()) {
        Some(()) => Ok(Some(Octets::from_vec(octets))),
        None => Ok(None),
    }
}

/// Reads the next line, which has this number, as hexadecimal. `Fault` says that it is missing or bad, and comes surely
/// where it is missing or has an odd count of octets.
pub fn octets_line(alloc: Global, input: &mut Lines<'_>, number: u64) -> Result<Octets, SpellError>
    ensures value { SpellsAs (λ octets. octets) result
        (line_or_fault number (option_and_then hexadecimal_octets (slice_get input.old 0))) }
    ensures rest { input.new ≡ drop 1 input.old }
    ensures memory { IsErrOf result SpellError.NoMemory
        → IsSomeAnd (slice_get input.old 0) IsInPairs }
{
    let line = input.next().ok_or(InputFault::BadLine(number))?;
    let octets = octets_in(alloc, line)?;
    Ok(octets.ok_or(InputFault::BadLine(number))?)
}
