//! The check of CDS against CDNSKEY records (RFC 7344): whether they ask the parent zone for the same keys.
//!
//! A zone that changes its keys publishes both, a CDNSKEY with each key and a CDS with its digest. A parent that takes
//! them, or a signer before it publishes them, asks whether they agree. To make the CDS of a key, and to check it:
//!
//! ```
//! use cds_check::{CdsVerdict, MakeCdsError, check_cds, make_cds};
//! use key_rdata::Cdnskey;
//! use key_registry::DigestAlgorithm;
//! use std::alloc::Global;
//! use wire_base::Name;
//!
//! fn agrees(alloc: Global, owner: &Name, key: Cdnskey) -> Result<bool, MakeCdsError> {
//!     let cds = make_cds(alloc, owner, &key, DigestAlgorithm::SHA256)?;
//!     let verdict = check_cds(alloc, owner, &[cds], &[key])?;
//!     Ok(verdict == CdsVerdict::Agree)
//! }
//! ```
//!
//! What a match and a verdict are stands in `specs/Matching.antt` and `specs/Verdicts.antt`; the digest is the function
//! that the crate `sha2` states.
#![tactic(auto)]

mod cds_sets;
mod checking;
mod digests;
mod making;
mod tags;
mod verdict;

pub use checking::check_cds;
pub use making::{MakeCdsError, make_cds};
pub use tags::key_tag;
pub use verdict::CdsVerdict;

#[cfg(test)]
mod tests;
