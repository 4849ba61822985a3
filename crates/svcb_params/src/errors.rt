//! Why a builder is not made, and why it refuses a value.

ghost use Rattle.std.specs.Prelude.{◌≡◌};
ghost use Rattle.registry.specs.declared.errors.BuildValueError.{BuildValueError};
ghost use Rattle.svcb_params.specs.declared.errors.BufError.TheVariants as buf;
ghost use Rattle.svcb_params.specs.declared.errors.PushValueError.TheVariants as values;
ghost use Rattle.svcb_params.specs.declared.errors.PushAlpnError.TheVariants as alpn;

use registry::{BuildValueError, LongSvcParam, ShortBuf};
use svcb_list::BuildAlpnError;
use svcb_pairs::PushError;
use thiserror::Error;
use wire_base::NoMemory;

/// Why a builder was not made of parameters.
#[derive(Clone, Copy, Debug, PartialEq, Eq, Error)]
pub enum BufError {
    /// The parameters have more octets in wire form than the limit.
    #[error("short buffer")]
    ShortBuf,
    /// Allocation for the copy failed.
    #[error("want of memory")]
    NoMemory,
}

/// Why a value was not made of its items and added.
#[derive(Clone, Copy, Debug, PartialEq, Eq, Error)]
pub enum PushValueError {
    /// The key has a value already.
    #[error("duplicate key")]
    DuplicateKey,
    /// With the value, the parameters would have more octets in wire form than the limit.
    #[error("short buffer")]
    ShortBuf,
    /// The value would have more than 65,535 octets.
    #[error("long SVCB value")]
    LongSvcParam,
    /// The value has no items, and its type wants at least one.
    #[error("empty SVCB value")]
    EmptyValue,
    /// Allocation for the value failed.
    #[error("want of memory")]
    NoMemory,
}

/// Why protocols were not added.
#[derive(Clone, Copy, Debug, PartialEq, Eq, Error)]
pub enum PushAlpnError {
    /// The key has a value already.
    #[error("duplicate key")]
    DuplicateKey,
    /// With the value, the parameters would have more octets in wire form than the limit.
    #[error("short buffer")]
    ShortBuf,
    /// The value would have more than 65,535 octets.
    #[error("long SVCB value")]
    LongSvcParam,
    /// The name of a protocol has no octets or more than 255.
    #[error("invalid ALPN protocol")]
    InvalidProtocol,
    /// Allocation for the value failed.
    #[error("want of memory")]
    NoMemory,
}

impl From<ShortBuf> for BufError {
    ghost from_gives = { λ _ error. error ≡ buf.ShortBuf };

    fn from(_error: ShortBuf) -> BufError {
        BufError::ShortBuf
    }
}

impl From<NoMemory> for BufError {
    ghost from_gives = { λ _ error. error ≡ buf.NoMemory };

    fn from(_error: NoMemory) -> BufError {
        BufError::NoMemory
    }
}

impl From<ShortBuf> for PushValueError {
    ghost from_gives = { λ _ error. error ≡ values.ShortBuf };

    fn from(_error: ShortBuf) -> PushValueError {
        PushValueError::ShortBuf
    }
}

impl From<NoMemory> for PushValueError {
    ghost from_gives = { λ _ error. error ≡ values.NoMemory };

    fn from(_error: NoMemory) -> PushValueError {
        PushValueError::NoMemory
    }
}

impl From<LongSvcParam> for PushValueError {
    ghost from_gives = { λ _ error. error ≡ values.LongSvcParam };

    fn from(_error: LongSvcParam) -> PushValueError {
        PushValueError::LongSvcParam
    }
}

impl From<PushError> for PushValueError {
    ghost use Rattle.std.specs.Prelude.{◌≡◌};
    ghost use Rattle.svcb_params.specs.PushErrors.{value_error_of_push};

    ghost from_gives = { λ push error. error ≡ value_error_of_push push };

    fn from(error: PushError) -> PushValueError {
        match error {
            PushError::DuplicateKey => PushValueError::DuplicateKey,
            PushError::ShortBuf => PushValueError::ShortBuf,
            PushError::NoMemory => PushValueError::NoMemory,
        }
    }
}

impl From<BuildValueError> for PushValueError {
    ghost use Rattle.std.specs.Prelude.{◌≡◌};
    ghost use Rattle.svcb_params.specs.PushErrors.{value_error_of_build};

    ghost from_gives = { λ build error. error ≡ value_error_of_build build };

    fn from(error: BuildValueError) -> PushValueError {
        match error {
            BuildValueError::LongSvcParam => PushValueError::LongSvcParam,
            BuildValueError::ShortBuf => PushValueError::ShortBuf,
            BuildValueError::EmptyValue => PushValueError::EmptyValue,
            BuildValueError::NoMemory => PushValueError::NoMemory,
        }
    }
}

impl From<ShortBuf> for PushAlpnError {
    ghost from_gives = { λ _ error. error ≡ alpn.ShortBuf };

    fn from(_error: ShortBuf) -> PushAlpnError {
        PushAlpnError::ShortBuf
    }
}

impl From<NoMemory> for PushAlpnError {
    ghost from_gives = { λ _ error. error ≡ alpn.NoMemory };

    fn from(_error: NoMemory) -> PushAlpnError {
        PushAlpnError::NoMemory
    }
}

impl From<PushError> for PushAlpnError {
    ghost use Rattle.std.specs.Prelude.{◌≡◌};
    ghost use Rattle.svcb_params.specs.PushErrors.{alpn_error_of_push};

    ghost from_gives = { λ push error. error ≡ alpn_error_of_push push };

    fn from(error: PushError) -> PushAlpnError {
        match error {
            PushError::DuplicateKey => PushAlpnError::DuplicateKey,
            PushError::ShortBuf => PushAlpnError::ShortBuf,
            PushError::NoMemory => PushAlpnError::NoMemory,
        }
    }
}

impl From<BuildAlpnError> for PushAlpnError {
    ghost use Rattle.std.specs.Prelude.{◌≡◌};
    ghost use Rattle.svcb_params.specs.PushErrors.{alpn_error_of_build};

    ghost from_gives = { λ build error. error ≡ alpn_error_of_build build };

    fn from(error: BuildAlpnError) -> PushAlpnError {
        match error {
            BuildAlpnError::InvalidProtocol => PushAlpnError::InvalidProtocol,
            BuildAlpnError::LongSvcParam => PushAlpnError::LongSvcParam,
            BuildAlpnError::ShortBuf => PushAlpnError::ShortBuf,
            BuildAlpnError::NoMemory => PushAlpnError::NoMemory,
        }
    }
}
