//! Why record data is not rebuilt.

ghost use Rattle.std.specs.Prelude.{◌≡◌, Some};
ghost use Rattle.svcb_rdata.specs.RebuildErrors.{rebuild_error_text};
ghost use Rattle.svcb_rdata.specs.declared.errors.RebuildError.TheVariants as errors;

use std::fmt;
use svcb_params::BufError;
use wire_base::{LongRecordData, NoMemory, ParseError};

/// Why record data was not rebuilt.
#[derive(Clone, Copy, Debug, PartialEq, Eq)]
pub enum RebuildError {
    /// The record data has a fault, which is `ShortInput` or `Form` and never `NoMemory`.
    Parse(ParseError),
    /// The parameters that were read have more octets in wire form than the limit.
    ShortBuf,
    /// The rebuilt record data would have more than 65,535 octets.
    LongRecordData,
    /// Allocation for the result failed.
    NoMemory,
}

impl RebuildError {
    /// The text of the error, which `Display` writes too.
    pub fn as_str(self) -> &'static str
        ensures { result.now ≡ rebuild_error_text self }
    {
        match self {
            RebuildError::Parse(error) => error.as_str(),
            RebuildError::ShortBuf => "short buffer",
            RebuildError::LongRecordData => LongRecordData.as_str(),
            RebuildError::NoMemory => ParseError::NoMemory.as_str(),
        }
    }
}

impl fmt::Display for RebuildError {
    ghost output = { λ error. Some (rebuild_error_text error) };

    fn fmt<W: fmt::Write>(&self, f: &mut fmt::Formatter<W>) -> fmt::Result {
        f.write_str(self.as_str())
    }
}

impl std::error::Error for RebuildError {}

/// A fault of the data stays one; failed allocation is `NoMemory`.
impl From<ParseError> for RebuildError {
    ghost use Rattle.std.specs.Prelude.{◌≡◌};
    ghost use Rattle.svcb_rdata.specs.RebuildErrors.{error_of_parse};

    ghost from_gives = { λ parse error. error ≡ error_of_parse parse };

    fn from(error: ParseError) -> RebuildError {
        match error {
            ParseError::ShortInput | ParseError::Form => RebuildError::Parse(error),
            ParseError::NoMemory => RebuildError::NoMemory,
        }
    }
}

impl From<LongRecordData> for RebuildError {
    ghost from_gives = { λ _ error. error ≡ errors.LongRecordData };

    fn from(_error: LongRecordData) -> RebuildError {
        RebuildError::LongRecordData
    }
}

impl From<NoMemory> for RebuildError {
    ghost from_gives = { λ _ error. error ≡ errors.NoMemory };

    fn from(_error: NoMemory) -> RebuildError {
        RebuildError::NoMemory
    }
}

impl From<BufError> for RebuildError {
    ghost use Rattle.std.specs.Prelude.{◌≡◌};
    ghost use Rattle.svcb_rdata.specs.RebuildErrors.{error_of_buf};

    ghost from_gives = { λ buf error. error ≡ error_of_buf buf };

    fn from(error: BufError) -> RebuildError {
        match error {
            BufError::ShortBuf => RebuildError::ShortBuf,
            BufError::NoMemory => RebuildError::NoMemory,
        }
    }
}
