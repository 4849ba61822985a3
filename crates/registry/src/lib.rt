//! Numbers of registries, their mnemonics and texts, the keys of service parameters, and the traits of their values.
#![tactic(auto)]

mod errors;
mod integer;
mod number;
mod svc_param_key;
mod values;

pub use errors::{BuildValueError, LongSvcParam, ShortBuf};
pub use integer::Integer;
pub use number::{CommentName, IanaNumber};
pub use svc_param_key::{FromStrError, SvcParamKey};
pub use values::{ComposeSvcParamValue, ParseSvcParamValue, SvcParamValue};
