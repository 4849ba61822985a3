//! The data of records of any type as one type: of a zone's records, and of all records.
#![tactic(auto)]

mod all_comparisons;
mod all_conversions;
mod all_data;
mod all_traits;
mod canonical;
mod data_ref;
mod each_type;
pub mod laws;
mod zone_comparisons;
mod zone_conversions;
mod zone_data;
mod zone_traits;

pub use all_data::AllRecordData;
pub use zone_data::ZoneRecordData;
