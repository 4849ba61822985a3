//! What answers the commands that check records: `choose`, the endpoints of an owner's SVCB records; `cds`, CDS against
//! CDNSKEY records; `zonemd`, a zone against its ZONEMD record.
#![tactic(auto)]

mod cds;
mod choose;
mod choose_report;
mod data_lines;
mod defaults;
mod keys;
mod zone_lines;
mod zonemd;

pub use cds::cds_answer;
pub use choose::choose_answer;
pub use zonemd::zonemd_answer;
