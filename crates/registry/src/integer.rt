//! The integers of registries.

ghost use Rattle.std.specs.Prelude.{◌≡◌, ◌^◌, ◌<◌, ℕ, List, [], ◌∷◌, Some, None, option_map, nat_lt, length, slice_index, IfOk, refl, if◌then◌else◌};
ghost use Rattle.name_spec.specs.Octets.{be2, number_at};
ghost use Rattle.wire_base.specs.Moving.{TakesOctets, AppendsOctets};
ghost use Rattle.registry.specs.Texts.{spelled_number};

use std::str;
use wire_base::{NoMemory, Parser, ShortInput};

/// An integer of one or two octets, which messages hold with the high octet first: `u8` or `u16`.
///
/// `LEN`, `value`, `octets` and `number_at` say what an integer means; the functions are proved to keep to them. By the
/// laws at the end an integer is its number, and a number has `LEN` octets.
pub trait Integer: Copy {
    /// The count of octets.
    ghost LEN: { ℕ };

    /// The number of an integer.
    ghost value: { Self → ℕ };

    /// The octets of a number.
    ghost octets: { ℕ → List ℕ };

    /// The number in the octets of a message from a place on.
    ghost number_at: { List ℕ → ℕ → ℕ };

    /// The number.
    fn to_u16(self) -> u16
        ensures number { result ≡ value self }
        ensures in_range { result < 256 ^ LEN };

    /// The integer of a number. None exactly where the number is too large.
    fn from_u16(number: u16) -> Option<Self>
        ensures { option_map value result
            ≡ (if nat_lt number (256 ^ LEN) then Some number else None) };

    /// The integer that a number text spells: an optional `+`, then decimal digits. None exactly for other texts, and
    /// where the number is too large.
    fn from_text(text: &[u8]) -> Option<Self>
        ensures { option_map value result ≡ spelled_number (256 ^ LEN) text.now };

    /// The integer in the next octets. Fails exactly where fewer remain; the parser is then unchanged.
    fn parse(parser: &mut Parser<'_>) -> Result<Self, ShortInput>
        ensures number { IfOk result (λ integer. value integer
            ≡ number_at parser.old.message parser.old.pos) }
        ensures takes { TakesOctets parser.old parser.new LEN result };

    /// Appends the octets. Fails only with `NoMemory`; the target is then unchanged.
    fn compose(self, target: &mut Vec<u8>) -> Result<(), NoMemory>
        ensures { AppendsOctets target.old.items target.new.items (octets (value self)) result };

    /// Integers of one number are one.
    ghost same: { (a b : Self) → value a ≡ value b → a ≡ b };

    /// The octets of each number are as many as they are to be.
    ghost octets_len: { (number : ℕ) → length (octets number) ≡ LEN };
}

impl Integer for u8 {
    ghost LEN = { 1 };

    ghost value = { λ number. number };

    ghost octets = { λ number. number ∷ [] };

    ghost number_at = { slice_index };

    ghost same = { λ a b equal. equal };

    ghost octets_len = { λ number. refl };

    fn to_u16(self) -> u16 {
        u16::from(self)
    }

    fn from_u16(number: u16) -> Option<u8> {
        u8::try_from(number).ok()
    }

    #[tactic(auto, using(crate::specs::TextLaws::parsed_text, crate::proofs::Numerals::no_text))]
    fn from_text(text: &[u8]) -> Option<u8> {
        str::from_utf8(text).ok()?.parse::<u8>().ok()
    }

    fn parse(parser: &mut Parser<'_>) -> Result<u8, ShortInput> {
        parser.parse_u8()
    }

    fn compose(self, target: &mut Vec<u8>) -> Result<(), NoMemory> {
        target.push(self)?;
        Ok(())
    }
}

impl Integer for u16 {
    ghost LEN = { 2 };

    ghost value = { λ number. number };

    ghost octets = { be2 };

    ghost number_at = { number_at };

    ghost same = { λ a b equal. equal };

    ghost octets_len = { λ number. refl };

    fn to_u16(self) -> u16 {
        self
    }

    fn from_u16(number: u16) -> Option<u16> {
        Some(number)
    }

    #[tactic(auto, using(crate::specs::TextLaws::parsed_text, crate::proofs::Numerals::no_text))]
    fn from_text(text: &[u8]) -> Option<u16> {
        str::from_utf8(text).ok()?.parse::<u16>().ok()
    }

    fn parse(parser: &mut Parser<'_>) -> Result<u16, ShortInput> {
        parser.parse_u16()
    }

    #[tactic(auto, using(name_spec::proofs::OctetLaws::number_octets))]
    fn compose(self, target: &mut Vec<u8>) -> Result<(), NoMemory> {
        target.extend_from_slice(&self.to_be_bytes())?;
        Ok(())
    }
}
