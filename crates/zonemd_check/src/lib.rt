//! The digest of a zone in its ZONEMD record (RFC 8976, scheme SIMPLE): whether a zone is the one that was published.
//!
//! ```
//! use digest_rdata::Zonemd;
//! use std::alloc::Global;
//! use wire_base::{Name, NoMemory};
//! use zonemd_check::{ZoneRecord, ZonemdVerdict, check_zonemd, records_ascend};
//!
//! fn is_published(
//!     alloc: Global,
//!     apex: &Name,
//!     records: &[ZoneRecord],
//!     zonemd: &Zonemd,
//! ) -> Result<bool, NoMemory> {
//!     if !records_ascend(records) {
//!         return Ok(false);
//!     }
//!     let verdict = check_zonemd(alloc, apex, records, zonemd)?;
//!     Ok(verdict == ZonemdVerdict::Match)
//! }
//! ```
//!
//! The caller hands in the records of the zone in their canonical order, their data in canonical form (RFC 4034,
//! section 6), and compares the serial number with that of the SOA record. What is digested stands in
//! `specs/Digesting.antt`; the hash is the function that the crate `sha2` states.
#![tactic(auto)]

mod checking;
mod digesting;
pub mod laws;
mod ordering;
mod verdict;
mod zone_record;

pub use checking::check_zonemd;
pub use digesting::{ZonemdError, zonemd_digest};
pub use ordering::records_ascend;
pub use verdict::ZonemdVerdict;
pub use zone_record::ZoneRecord;

#[cfg(test)]
mod tests;
