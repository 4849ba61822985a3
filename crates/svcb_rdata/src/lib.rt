//! The data of SVCB and HTTPS records (RFC 9460), read, built, compared, and with parameters added.
#![tactic(auto)]

mod comparisons;
mod errors;
pub mod laws;
mod rdata;
mod rebuild;
mod replies;
mod svcb_ref;
mod texts;
mod variant;

pub use errors::RebuildError;
pub use rdata::{Https, Svcb, SvcbRdata};
pub use rebuild::{Rebuilt, rebuild_svcb};
pub use registry::{LongSvcParam, SvcParamKey};
pub use replies::Replies;
pub use svcb_ref::SvcbRef;
pub use svcb_spec::Reply;
pub use svcb_text::AllValues;
pub use svcb_value::UnknownSvcParam;
pub use variant::{HttpsVariant, SvcVariant, SvcbVariant};
