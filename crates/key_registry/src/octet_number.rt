//! Numbers of registries with one octet.

ghost use Rattle.std.specs.Prelude.{◌≡◌, ℕ, List, Some, true, map, refl};
ghost use Rattle.std.specs.Result.{result_ok};
ghost use Rattle.std.specs.Fmt.{decimal};
ghost use Rattle.registry.specs.Tables.{is_one_line, is_table};
ghost use Rattle.registry.specs.Texts.{spelled_number};
ghost use Rattle.registry.specs.TextLaws.{spelled_number-octet};

use registry::{CommentName, IanaNumber, Integer};
use std::fmt;
use std::marker::{Model, PhantomData};
use std::num::ParseIntError;
use std::str::FromStr;

/// A registry of numbers with one octet: a type that stands for its table, over which [`OctetNumber`] is the type of
/// its numbers. All calls and laws of [`IanaNumber`] come with that.
///
/// A registry of another crate gives its table and two names, and says by `COMMENT` and `rows` what they are. Where
/// these are written out, `one_line` and `table` are `refl`, since the check computes them.
pub trait Registry {
    /// What a comment calls a number.
    ghost COMMENT: { List ℕ };

    /// The numbers that have a mnemonic, with it: the registry's definition.
    ghost rows: { List (ℕ × List ℕ) };

    /// The name of the numbers' type, which `Debug` prints.
    const TYPE_NAME: &'static str;

    /// What a comment calls a number.
    const COMMENT: CommentName;

    /// The registry's numbers that have a mnemonic, with it.
    fn rows() -> &'static [(u8, &'static str)]
        ensures { map (λ row. (row.0, row.1.now)) result.now ≡ rows };

    /// What a comment calls a number has no line feed.
    ghost one_line: { is_one_line COMMENT ≡ true };

    /// The numbers fit and are distinct; the mnemonics are distinct in any case and have no line feed.
    ghost table: { is_table 256 rows ≡ true };
}

/// A number of a registry, which is read and printed as a decimal number. Any number up to 255 is one, with a mnemonic
/// or without. Numbers are ordered as such.
#[derive_where(Clone, Copy, PartialEq, Eq, PartialOrd, Ord, Hash)]
pub struct OctetNumber<R>(
    pub(crate) u8,
    #[derive_where(skip)] pub(crate) PhantomData<R>,
);

impl<R> Model for OctetNumber<R> {
    ghost Value = { ℕ };

    ghost view = { λ number. number.0 };

    ghost inverse = { λ number. record { 0 = number; 1 = record {} } };
}

impl<R: Registry + 'static> IanaNumber for OctetNumber<R> {
    type Int = u8;

    const COMPOSE_LEN: u16 = 1;

    const COMMENT: CommentName = R::COMMENT;

    ghost COMPOSE_LEN = { 1 };

    ghost COMMENT = { R.COMMENT };

    ghost number = { λ number. number };

    ghost rows = { R.rows };

    ghost reads = { spelled_number 256 };

    ghost prints = { decimal };

    ghost same = { λ x y equal. equal };

    ghost len = { refl };

    ghost one_line = { R.one_line };

    ghost table = { R.table };

    ghost displays = { λ x. refl };

    ghost reads_back = { spelled_number-octet };

    fn rows<'a>() -> &'a [(u8, &'static str)] {
        R::rows()
    }

    fn from_int(value: u8) -> OctetNumber<R> {
        OctetNumber(value, PhantomData)
    }

    fn to_int(self) -> u8 {
        self.0
    }

    fn from_bytes(bytes: &[u8]) -> Option<OctetNumber<R>> {
        Some(OctetNumber::from(u8::from_text(bytes)?))
    }
}

/// The name of the type with the number, as `TlsaSelector(1)`.
impl<R: Registry> fmt::Debug for OctetNumber<R> {
    fn fmt<W: fmt::Write>(&self, f: &mut fmt::Formatter<W>) -> fmt::Result {
        write!(f, "{}({})", R::TYPE_NAME, self.0)
    }
}

/// The decimal number.
impl<R> fmt::Display for OctetNumber<R> {
    ghost output = { λ number. Some (decimal number) };

    fn fmt<W: fmt::Write>(&self, f: &mut fmt::Formatter<W>) -> fmt::Result {
        let number = self.0;
        write!(f, "{number}")
    }
}

/// A number text of at most 255: an optional `+`, then decimal digits. Fails with std's error exactly for other texts.
impl<R> FromStr for OctetNumber<R> {
    type Err = ParseIntError;

    ghost from_str_gives = { λ text result. result_ok result ≡ spelled_number 256 text };

    #[tactic(auto, using(registry::specs::TextLaws::parsed_text))]
    fn from_str(text: &str) -> Result<OctetNumber<R>, ParseIntError> {
        Ok(OctetNumber::from(text.parse::<u8>()?))
    }
}

/// The registry's number of that value.
impl<R> From<u8> for OctetNumber<R> {
    ghost from_gives = { λ value result. result ≡ value };

    fn from(value: u8) -> OctetNumber<R> {
        OctetNumber(value, PhantomData)
    }
}

/// The number.
impl<R> From<OctetNumber<R>> for u8 {
    ghost from_gives = { λ number result. result ≡ number };

    fn from(number: OctetNumber<R>) -> u8 {
        number.0
    }
}

/// The number.
impl<R> From<&OctetNumber<R>> for u8 {
    ghost from_gives = { λ number result. result ≡ number.now };

    fn from(number: &OctetNumber<R>) -> u8 {
        number.0
    }
}
