//! Why a canonical name could not be told.

ghost use Rattle.std.specs.Prelude.{◌≡◌};
ghost use Rattle.dns_message.specs.declared.errors.AliasError.TheVariants as errors;
ghost use Rattle.wire_base.specs.declared.errors.ParseError.TheVariants as parse;

use thiserror::Error;
use wire_base::{NoMemory, ParseError, ShortInput};

/// Why the aliases of a name could not be followed.
#[derive(Clone, Copy, Debug, PartialEq, Eq, Error)]
pub enum AliasError {
    /// The message has a fault in front of what decides.
    #[error(transparent)]
    Parse(ParseError),
    /// The aliases lead in a loop.
    #[error("loop of aliases")]
    Loop,
}

impl From<ParseError> for AliasError {
    ghost from_gives = { λ parse error. error ≡ errors.Parse parse };

    fn from(error: ParseError) -> AliasError {
        AliasError::Parse(error)
    }
}

impl From<ShortInput> for AliasError {
    ghost from_gives = { λ _ error. error ≡ errors.Parse parse.ShortInput };

    fn from(_error: ShortInput) -> AliasError {
        AliasError::Parse(ParseError::ShortInput)
    }
}

/// A caller's copy of a name fails so; following aliases takes no memory.
impl From<NoMemory> for AliasError {
    ghost from_gives = { λ _ error. error ≡ errors.Parse parse.NoMemory };

    fn from(_error: NoMemory) -> AliasError {
        AliasError::Parse(ParseError::NoMemory)
    }
}
