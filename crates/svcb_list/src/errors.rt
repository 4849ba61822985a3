//! Why a protocol is not added.

ghost use Rattle.std.specs.Prelude.{◌≡◌};
ghost use Rattle.svcb_list.specs.declared.errors.BuildAlpnError.TheVariants as errors;

use registry::ShortBuf;
use thiserror::Error;
use wire_base::NoMemory;

/// Why a protocol was not added to an [`AlpnBuilder`](crate::AlpnBuilder).
#[derive(Clone, Copy, Debug, PartialEq, Eq, Error)]
pub enum BuildAlpnError {
    /// The name of the protocol is empty or has more than 255 octets (RFC 7301, section 3.1).
    #[error("invalid ALPN protocol")]
    InvalidProtocol,
    /// The value would have more than 65,535 octets (RFC 9460, section 2.2).
    #[error("long SVCB value")]
    LongSvcParam,
    /// A buffer has no room left. No call of this library answers it; it stands for builders of other crates.
    #[error("short buffer")]
    ShortBuf,
    /// Allocation failed; the builder is as before.
    #[error("want of memory")]
    NoMemory,
}

impl From<ShortBuf> for BuildAlpnError {
    ghost from_gives = { λ _ error. error ≡ errors.ShortBuf };

    fn from(_error: ShortBuf) -> BuildAlpnError {
        BuildAlpnError::ShortBuf
    }
}

impl From<NoMemory> for BuildAlpnError {
    ghost from_gives = { λ _ error. error ≡ errors.NoMemory };

    fn from(_error: NoMemory) -> BuildAlpnError {
        BuildAlpnError::NoMemory
    }
}
