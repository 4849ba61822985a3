//! Why a text could not be read.

ghost use Rattle.std.specs.Prelude.{◌≡◌, Some};
ghost use Rattle.text_spec.specs.Faults.{scan_fault_text};
ghost use Rattle.text_spec.specs.declared.errors.ScanError.TheVariants as errors;

use std::alloc::{AllocError, AllocFailed};
use std::fmt;
use wire_base::NoMemory;

/// Why the text of an entry, or a token of it, could not be read.
#[derive(Clone, Copy, Debug, PartialEq, Eq)]
pub enum ScanError {
    /// A token was asked for, and none was left.
    EndOfEntry,
    /// An octet that no text may have at its place.
    BadSymbol,
    /// A backslash with no escape behind it.
    BadEscape,
    /// The text ends within quotes.
    OpenQuote,
    /// A closing bracket with no opening one, or the text ends within brackets.
    BadBracket,
    /// The token is no number text in range, or a count isn't that of the octets behind it.
    BadNumber,
    /// The token is no name text.
    BadName,
    /// The token is no address text.
    BadAddress,
    /// The tokens joined are no base64 text.
    BadBase64,
    /// The tokens joined are no base16 text.
    BadBase16,
    /// A parameter's token has no octets.
    EmptyParam,
    /// An octet that no key of a parameter may have.
    BadKeyChar,
    /// A text that names no key.
    UnknownKey,
    /// A parameter without the value that its key asks for.
    MissingValue,
    /// A parameter with a value that its key doesn't take.
    UnexpectedValue,
    /// A backslash in a list where it may not stand.
    BadListEscape,
    /// An item of a list without octets.
    EmptyItem,
    /// An item of a list with more octets than it may have.
    LongItem,
    /// A value that is no port.
    BadPort,
    /// The key `mandatory` in its own list.
    KeyZeroInMandatory,
    /// An item that stands twice in a list.
    DuplicateItem,
    /// A key that two parameters have.
    DuplicateKey,
    /// A key that is mandatory and that no parameter has.
    MandatoryMissing,
    /// A value that is no UTF-8.
    BadUtf8,
    /// A value of more than 65,535 octets.
    LongValue,
    /// Record data of more than 65,535 octets.
    LongRecord,
    /// A gateway that isn't of the type that was given.
    WrongGateway,
    /// A type of gateways that is not known.
    UnknownGateway,
    /// A key that must be there is missing.
    MissingKey,
    /// A record type whose data has no text of its own.
    UnknownType,
    /// Something is left behind the entry, or a token behind the data.
    TrailingTokens,
    /// An allocation failed.
    NoMemory,
}

impl ScanError {
    // What went wrong, in a few words.
    fn message(self) -> &'static str
        ensures { result.now ≡ scan_fault_text self }
    {
        match self {
            ScanError::EndOfEntry => "end of entry",
            ScanError::BadSymbol => "bad symbol",
            ScanError::BadEscape => "bad escape",
            ScanError::OpenQuote => "open quote",
            ScanError::BadBracket => "bad bracket",
            ScanError::BadNumber => "bad number",
            ScanError::BadName => "bad name",
            ScanError::BadAddress => "bad address",
            ScanError::BadBase64 => "bad base64",
            ScanError::BadBase16 => "bad base16",
            ScanError::EmptyParam => "empty parameter",
            ScanError::BadKeyChar => "bad key character",
            ScanError::UnknownKey => "unknown key",
            ScanError::MissingValue => "missing value",
            ScanError::UnexpectedValue => "unexpected value",
            ScanError::BadListEscape => "escape in list",
            ScanError::EmptyItem => "empty item",
            ScanError::LongItem => "long item",
            ScanError::BadPort => "bad port",
            ScanError::KeyZeroInMandatory => "mandatory in mandatory",
            ScanError::DuplicateItem => "duplicate item",
            ScanError::DuplicateKey => "duplicate key",
            ScanError::MandatoryMissing => "mandatory key missing",
            ScanError::BadUtf8 => "bad utf-8",
            ScanError::LongValue => "long value",
            ScanError::LongRecord => "long record data",
            ScanError::WrongGateway => "wrong gateway",
            ScanError::UnknownGateway => "unknown gateway type",
            ScanError::MissingKey => "missing key",
            ScanError::UnknownType => "unknown type",
            ScanError::TrailingTokens => "trailing tokens",
            ScanError::NoMemory => "want of memory",
        }
    }
}

impl fmt::Display for ScanError {
    ghost output = { λ fault. Some (scan_fault_text fault) };

    fn fmt<W: fmt::Write>(&self, f: &mut fmt::Formatter<W>) -> fmt::Result {
        f.write_str(self.message())
    }
}

impl std::error::Error for ScanError {}

impl From<NoMemory> for ScanError {
    ghost from_gives = { λ _ error. error ≡ errors.NoMemory };

    fn from(_error: NoMemory) -> ScanError {
        ScanError::NoMemory
    }
}

impl From<AllocError> for ScanError {
    ghost from_gives = { λ _ error. error ≡ errors.NoMemory };

    fn from(_error: AllocError) -> ScanError {
        ScanError::NoMemory
    }
}

impl<T: Drop> From<AllocFailed<T>> for ScanError {
    ghost from_gives = { λ _ error. error ≡ errors.NoMemory };

    fn from(_error: AllocFailed<T>) -> ScanError {
        ScanError::NoMemory
    }
}
