//! Why octets are no service parameters.

ghost use Rattle.std.specs.Prelude.{◌≡◌};
ghost use Rattle.wire_base.specs.declared.errors.ParseError.TheVariants as errors;

use wire_base::{ParseError, ShortInput};

/// The fault for which octets are no service parameters. No call of this crate fails with one that holds `NoMemory`.
#[derive(Clone, Copy, Debug, PartialEq, Eq)]
pub struct SvcParamsError(pub ParseError);

impl From<ShortInput> for SvcParamsError {
    ghost from_gives = { λ _ error. error.0 ≡ errors.ShortInput };

    fn from(_error: ShortInput) -> SvcParamsError {
        SvcParamsError(ParseError::ShortInput)
    }
}

impl From<ParseError> for SvcParamsError {
    ghost from_gives = { λ parse error. error.0 ≡ parse };

    fn from(error: ParseError) -> SvcParamsError {
        SvcParamsError(error)
    }
}

impl From<SvcParamsError> for ParseError {
    ghost from_gives = { λ params error. error ≡ params.0 };

    fn from(error: SvcParamsError) -> ParseError {
        error.0
    }
}
