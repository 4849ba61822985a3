//! The trait of a registry's numbers.

ghost use Rattle.std.specs.Prelude.{◌≡◌, ◌^◌, ◌<◌, ℕ, List, Option, Some, None, true, map, option_map, nat_lt, IfOk, OnErr, if◌then◌else◌};
ghost use Rattle.wire_base.specs.Moving.{TakesOctets, AppendsOctets};
ghost use Rattle.registry.specs.Tables.{is_same, mnemonic_of, number_of, is_one_line, is_table, MnemonicsRead, NumbersRead, MnemonicsOneLine};
ghost use Rattle.registry.specs.TableLaws.{number_of-mnemonic_of, mnemonic_of-number_of, mnemonic_of-one_line};

use crate::integer::Integer;
use std::fmt::Display;
use std::marker::Model;
use wire_base::{NoMemory, ParseError, Parser};

/// What a comment calls the numbers of a registry. Contracts see the octets of the text, so they can name such a
/// constant, which they can't of a `&str`.
#[derive(Debug, Drop)]
pub struct CommentName(pub &'static str);

impl Model for CommentName {
    ghost Value = { List ℕ };

    ghost view = { λ name. name.0.now };
}

/// A number of a registry: its integer, its mnemonic, its text, and its octets in a message.
///
/// A type of another crate is such a number too. It names its integer, gives `COMPOSE_LEN` and `COMMENT`, writes
/// `rows`, `from_int`, `to_int` and `from_bytes`, and says by the ghost members what they mean: `number` is the number
/// of a value, `rows` the table of numbers and mnemonics, `reads` and `prints` its text in both directions. It then
/// proves the laws at the end. Where the table and the comment's name are written out, `table` and `one_line` are
/// `refl`, since the check computes them. All other calls come with the trait, and so do the three laws that have a
/// proof here.
pub trait IanaNumber: Copy + Display {
    /// The integer of the number.
    type Int: Integer;

    /// The count of octets in a message.
    ghost COMPOSE_LEN: { ℕ };

    /// What a comment calls the number.
    ghost COMMENT: { List ℕ };

    /// The number of a value.
    ghost number: { Self → ℕ };

    /// The numbers that have a mnemonic, with it.
    ghost rows: { List (ℕ × List ℕ) };

    /// The number that a text spells.
    ghost reads: { List ℕ → Option ℕ };

    /// The text of a number.
    ghost prints: { ℕ → List ℕ };

    /// The count of octets in a message.
    const COMPOSE_LEN: u16;

    /// What a comment calls the number; empty where comments don't name it.
    const COMMENT: CommentName;

    /// The text of `COMMENT`.
    const SHOW_NAME: &'static str = Self::COMMENT.0;

    /// The text of `COMMENT`.
    fn comment_name() -> &'static str
        ensures { result.now ≡ COMMENT }
    {
        Self::COMMENT.0
    }

    /// The registry's numbers that have a mnemonic, with it.
    fn rows<'a>() -> &'a [(Self::Int, &'static str)]
        ensures { map (λ row. (Self.Int.value row.0, row.1.now)) result.now ≡ rows };

    /// The value of an integer.
    fn from_int(value: Self::Int) -> Self
        ensures { number result ≡ Self.Int.value value };

    /// The integer.
    fn to_int(self) -> Self::Int
        ensures { Self.Int.value result ≡ number self };

    /// The value that a text spells, as `Display` prints it and in further forms. None exactly for other texts.
    fn from_bytes(bytes: &[u8]) -> Option<Self>
        ensures { option_map number result ≡ reads bytes.now };

    /// The number.
    fn to_u16(self) -> u16
        ensures number { result ≡ number self }
        ensures in_range { result < 256 ^ Self.Int.LEN }
    {
        self.to_int().to_u16()
    }

    /// The value of a number. None exactly where the number is too large for the integer.
    fn from_u16(value: u16) -> Option<Self>
        ensures { option_map number result
            ≡ (if nat_lt value (256 ^ Self.Int.LEN) then Some value else None) }
    {
        Some(Self::from_int(Self::Int::from_u16(value)?))
    }

    /// The value whose mnemonic the octets are, ASCII case ignored. None exactly where the table has no such mnemonic.
    fn from_mnemonic(m: &[u8]) -> Option<Self>
        ensures { option_map number result ≡ number_of rows m.now }
    {
        Some(Self::from_int(find_number(Self::rows(), m)?))
    }

    /// The mnemonic of the number, as octets. None exactly where the table has no such number.
    fn to_mnemonic(self) -> Option<&'static [u8]>
        ensures { option_map (λ m. m.now) result ≡ mnemonic_of rows (number self) }
    {
        self.to_mnemonic_str().map(str::as_bytes)
    }

    /// The mnemonic of the number. None exactly where the table has no such number.
    fn to_mnemonic_str(self) -> Option<&'static str>
        ensures { option_map (λ m. m.now) result ≡ mnemonic_of rows (number self) }
    {
        find_mnemonic(Self::rows(), self.to_u16())
    }

    /// The value of the number in the next octets. Fails with `ShortInput` exactly where fewer remain; the parser is
    /// then unchanged.
    fn parse(parser: &mut Parser<'_>) -> Result<Self, ParseError>
        ensures number { IfOk result (λ x. number x
            ≡ Self.Int.number_at parser.old.message parser.old.pos) }
        ensures takes { TakesOctets parser.old parser.new Self.Int.LEN result }
        ensures fault { OnErr result (result ≡ Err ParseError.ShortInput) }
    {
        Ok(Self::from_int(Self::Int::parse(parser)?))
    }

    /// Appends the number's octets. Fails only with `NoMemory`; the target is then unchanged.
    fn compose(&self, target: &mut Vec<u8>) -> Result<(), NoMemory>
        ensures { AppendsOctets target.old.items target.new.items
            (Self.Int.octets (number self.now)) result }
    {
        self.to_int().compose(target)
    }

    /// Values of one number are one.
    ghost same: { (x y : Self) → number x ≡ number y → x ≡ y };

    /// `COMPOSE_LEN` is the count of the integer's octets.
    ghost len: { COMPOSE_LEN ≡ Self.Int.LEN };

    /// What a comment calls the number has no line feed.
    ghost one_line: { is_one_line COMMENT ≡ true };

    /// The numbers fit and are distinct; the mnemonics are distinct in any case and have no line feed.
    ghost table: { is_table (256 ^ Self.Int.LEN) rows ≡ true };

    /// A mnemonic is read as its number.
    ghost mnemonics_read: { MnemonicsRead rows } = { number_of-mnemonic_of _ rows table };

    /// What is read as a number is its mnemonic, but for case.
    ghost numbers_read: { NumbersRead rows } = { mnemonic_of-number_of _ rows table };

    /// A mnemonic has no line feed.
    ghost mnemonics_one_line: { MnemonicsOneLine rows } = { mnemonic_of-one_line _ rows table };

    /// `Display` prints the text of the number.
    ghost displays: { (x : Self) → Self.output x ≡ Some (prints (number x)) };

    /// A printed number is read back.
    ghost reads_back: { (n : ℕ) → n < 256 ^ Self.Int.LEN → reads (prints n) ≡ Some n };
}

/// Whether two texts are the same, ASCII case ignored.
#[tactic(auto, using(crate::proofs::Lookups::same_test))]
pub(crate) fn is_same(a: &[u8], b: &[u8]) -> bool
    ensures { result ≡ is_same a.now b.now }
{
    a.eq_ignore_ascii_case(b)
}

/// The mnemonic of a number in a table.
pub(crate) fn find_mnemonic<N: Integer>(
    table: &[(N, &'static str)],
    number: u16,
) -> Option<&'static str>
    ensures { option_map (λ m. m.now) result
        ≡ mnemonic_of (map (λ row. (N.value row.0, row.1.now)) table.now) number }
{
    for row in table {
        if row.0.to_u16() == number {
            return Some(row.1);
        }
    }
    None
}

/// The number in a table whose mnemonic the octets are, ASCII case ignored.
fn find_number<N: Integer>(table: &[(N, &'static str)], m: &[u8]) -> Option<N>
    ensures { option_map N.value result
        ≡ number_of (map (λ row. (N.value row.0, row.1.now)) table.now) m.now }
{
    for row in table {
        if is_same(row.1.as_bytes(), m) {
            return Some(row.0);
        }
    }
    None
}
