//! Why a value is refused.

ghost use Rattle.std.specs.Prelude.{◌≡◌};
ghost use Rattle.svcb_pairs.specs.declared.errors.PushError.TheVariants as errors;

use registry::ShortBuf;
use thiserror::Error;
use wire_base::NoMemory;

/// Why a value was not added.
#[derive(Clone, Copy, Debug, PartialEq, Eq, Error)]
pub enum PushError {
    /// The key has a value already.
    #[error("duplicate key")]
    DuplicateKey,
    /// With the value, the parameters would have more octets in wire form than the limit.
    #[error("short buffer")]
    ShortBuf,
    /// Allocation for the value failed.
    #[error("want of memory")]
    NoMemory,
}

impl From<ShortBuf> for PushError {
    ghost from_gives = { λ _ error. error ≡ errors.ShortBuf };

    fn from(_error: ShortBuf) -> PushError {
        PushError::ShortBuf
    }
}

impl From<NoMemory> for PushError {
    ghost from_gives = { λ _ error. error ≡ errors.NoMemory };

    fn from(_error: NoMemory) -> PushError {
        PushError::NoMemory
    }
}
