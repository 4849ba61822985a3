//! Why a value of a service parameter is not made.

ghost use Rattle.std.specs.Prelude.{◌≡◌, ◌≤◌, ◌<◌, codes, OnOk, OnErr};
ghost use Rattle.wire_base.specs.declared.errors.ParseError.TheVariants as parse;
ghost use Rattle.registry.specs.declared.errors.BuildValueError.TheVariants as errors;

use thiserror::Error;
use wire_base::{NoMemory, ParseError};

/// The value of a service parameter has more than 65,535 octets (RFC 9460, section 2.2: its length has 16 bits).
#[derive(Clone, Copy, Debug, PartialEq, Eq, Error)]
#[error("service parameter too long")]
pub struct LongSvcParam;

impl LongSvcParam {
    /// The most octets of a value (RFC 9460, section 2.2).
    pub const MAX_LEN: usize = 65535;

    /// Tests the length of a value in octets. Fails exactly over 65,535.
    pub fn check_len(len: usize) -> Result<(), LongSvcParam>
        ensures ok { OnOk result (len ≤ 65535) }
        ensures long { OnErr result (65535 < len) }
    {
        if len > LongSvcParam::MAX_LEN {
            return Err(LongSvcParam);
        }
        Ok(())
    }

    /// What is wrong.
    pub fn as_str(self) -> &'static str
        ensures { result.now ≡ codes "service parameter too long" }
    {
        "service parameter too long"
    }
}

/// Octets that are too long are no form of a value.
impl From<LongSvcParam> for ParseError {
    ghost from_gives = { λ _ error. error ≡ parse.Form };

    fn from(_error: LongSvcParam) -> ParseError {
        ParseError::Form
    }
}

/// A buffer has no room left: what is added would go over its limit in octets.
#[derive(Clone, Copy, Debug, PartialEq, Eq, Error)]
#[error("short buffer")]
pub struct ShortBuf;

/// Why a value of a service parameter was not made of its items.
#[derive(Clone, Copy, Debug, PartialEq, Eq, Error)]
pub enum BuildValueError {
    /// The value would have more than 65,535 octets (RFC 9460, section 2.2).
    #[error("long SVCB value")]
    LongSvcParam,
    /// A buffer has no room left. No call of this library answers it; it stands for builders of values in other crates.
    #[error("short buffer")]
    ShortBuf,
    /// The value has no items, and its type wants at least one, as `tls-supported-groups`.
    #[error("empty SVCB value")]
    EmptyValue,
    /// Allocation for the value failed.
    #[error("want of memory")]
    NoMemory,
}

/// The variant of that name.
impl From<LongSvcParam> for BuildValueError {
    ghost from_gives = { λ _ error. error ≡ errors.LongSvcParam };

    fn from(_error: LongSvcParam) -> BuildValueError {
        BuildValueError::LongSvcParam
    }
}

/// The variant of that name.
impl From<ShortBuf> for BuildValueError {
    ghost from_gives = { λ _ error. error ≡ errors.ShortBuf };

    fn from(_error: ShortBuf) -> BuildValueError {
        BuildValueError::ShortBuf
    }
}

/// The variant of that name.
impl From<NoMemory> for BuildValueError {
    ghost from_gives = { λ _ error. error ≡ errors.NoMemory };

    fn from(_error: NoMemory) -> BuildValueError {
        BuildValueError::NoMemory
    }
}
