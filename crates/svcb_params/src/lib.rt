//! Service parameters (RFC 9460, section 2.2), owned and borrowed: their values by type, their text, and builders that
//! take values in any order.
#![tactic(auto)]

mod builder;
mod canonical;
mod errors;
mod from_values;
mod getters;
pub mod laws;
mod number_set;
mod overlay;
mod own_texts;
mod params;
mod params_error;
mod params_ref;
mod printed_pair;
mod raw_iter;
mod scan;
mod texts;
mod typed_pushes;
mod value_iter;

pub use builder::SvcParamsBuilder;
pub use errors::{BufError, PushAlpnError, PushValueError};
pub use overlay::SvcParamsOverlay;
pub use params::SvcParams;
pub use params_error::SvcParamsError;
pub use params_ref::SvcParamsRef;
pub use raw_iter::RawIter;
pub use svcb_pairs::PushError;
pub use value_iter::ValueIter;
