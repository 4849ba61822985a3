//! Why octets could not be read or written.

ghost use Rattle.std.specs.Prelude.{◌≡◌, ◌+◌, ◌≤◌, ◌<◌, sum, codes, Some, OnOk, OnErr};
ghost use Rattle.wire_base.specs.ErrorTexts.{parse_error_text};
ghost use Rattle.wire_base.specs.declared.errors.ParseError.TheVariants as errors;

use std::alloc::{AllocError, AllocFailed};
use std::fmt;

/// An allocation failed.
#[derive(Clone, Copy, Debug, PartialEq, Eq)]
pub struct NoMemory;

/// The data ends before the octets that a call reads.
#[derive(Clone, Copy, Debug, PartialEq, Eq)]
pub struct ShortInput;

/// Record data has more than 65,535 octets, which its length field of 16 bits can't hold (RFC 1035, section 3.2.1).
#[derive(Clone, Copy, Debug, PartialEq, Eq)]
pub struct LongRecordData;

/// Why wire data could not be read.
#[derive(Clone, Copy, Debug, PartialEq, Eq)]
pub enum ParseError {
    /// The data ends before the octets that are read.
    ShortInput,
    /// An octet, a length, a pointer or two keys are not allowed, or octets are left over.
    Form,
    /// The allocation of a copy failed. A call on a view never fails so.
    NoMemory,
}

impl ParseError {
    /// The text of the error, which `Display` writes too.
    pub fn as_str(self) -> &'static str
        ensures { result.now ≡ parse_error_text self }
    {
        match self {
            ParseError::ShortInput => "short input",
            ParseError::Form => "form error",
            ParseError::NoMemory => "want of memory",
        }
    }
}

impl fmt::Display for ParseError {
    ghost output = { λ error. Some (parse_error_text error) };

    fn fmt<W: fmt::Write>(&self, f: &mut fmt::Formatter<W>) -> fmt::Result {
        f.write_str(self.as_str())
    }
}

impl fmt::Display for NoMemory {
    ghost output = { λ _. Some (parse_error_text errors.NoMemory) };

    fn fmt<W: fmt::Write>(&self, f: &mut fmt::Formatter<W>) -> fmt::Result {
        f.write_str(ParseError::NoMemory.as_str())
    }
}

impl fmt::Display for ShortInput {
    ghost output = { λ _. Some (parse_error_text errors.ShortInput) };

    fn fmt<W: fmt::Write>(&self, f: &mut fmt::Formatter<W>) -> fmt::Result {
        f.write_str(ParseError::ShortInput.as_str())
    }
}

impl fmt::Display for LongRecordData {
    ghost output = { λ _. Some (codes "long record data") };

    fn fmt<W: fmt::Write>(&self, f: &mut fmt::Formatter<W>) -> fmt::Result {
        f.write_str(self.as_str())
    }
}

impl std::error::Error for ParseError {}

impl std::error::Error for NoMemory {}

impl std::error::Error for ShortInput {}

impl std::error::Error for LongRecordData {}

impl From<AllocError> for NoMemory {
    fn from(_error: AllocError) -> NoMemory {
        NoMemory
    }
}

impl<T: Drop> From<AllocFailed<T>> for NoMemory {
    fn from(_error: AllocFailed<T>) -> NoMemory {
        NoMemory
    }
}

impl From<ShortInput> for ParseError {
    ghost from_gives = { λ _ error. error ≡ errors.ShortInput };

    fn from(_error: ShortInput) -> ParseError {
        ParseError::ShortInput
    }
}

impl From<NoMemory> for ParseError {
    ghost from_gives = { λ _ error. error ≡ errors.NoMemory };

    fn from(_error: NoMemory) -> ParseError {
        ParseError::NoMemory
    }
}

/// Data that is too long has no form that can be read.
impl From<LongRecordData> for ParseError {
    ghost from_gives = { λ _ error. error ≡ errors.Form };

    fn from(_error: LongRecordData) -> ParseError {
        ParseError::Form
    }
}

impl LongRecordData {
    /// The most octets of record data (RFC 1035, section 3.2.1, where RDLENGTH has 16 bits).
    pub const MAX_LEN: usize = 65535;

    /// Tests the length of record data, in octets.
    ///
    /// `LongRecordData`: it is over 65,535.
    pub fn check_len(len: usize) -> Result<(), LongRecordData>
        ensures ok { OnOk result (len ≤ 65535) }
        ensures long { OnErr result (65535 < len) }
    {
        if len > LongRecordData::MAX_LEN {
            return Err(LongRecordData);
        }
        Ok(())
    }

    /// Tests the length of record data with more octets behind it, both lengths in octets.
    ///
    /// `LongRecordData`: their exact sum is over 65,535.
    pub fn check_append_len(len: usize, extra_len: usize) -> Result<(), LongRecordData>
        ensures ok { OnOk result (len + extra_len ≤ 65535) }
        ensures long { OnErr result (65535 < len + extra_len) }
    {
        LongRecordData::check_len(len)?;
        if extra_len > LongRecordData::MAX_LEN - len {
            return Err(LongRecordData);
        }
        Ok(())
    }

    /// Tests the length of record data that is joined of parts of these lengths, in octets.
    ///
    /// `LongRecordData`: their exact sum is over 65,535.
    pub fn check_multi_len(lens: &[usize]) -> Result<(), LongRecordData>
        ensures ok { OnOk result (sum lens.now ≤ 65535) }
        ensures long { OnErr result (65535 < sum lens.now) }
    {
        let mut total = 0;
        for len in lens {
            LongRecordData::check_append_len(total, *len)?;
            total += *len;
        }
        Ok(())
    }

    /// The text of the error, which `Display` writes too.
    pub fn as_str(&self) -> &'static str
        ensures { result.now ≡ codes "long record data" }
    {
        "long record data"
    }
}

const _: () = prove!(LongRecordData::MAX_LEN == 65535);
