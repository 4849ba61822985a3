//! Checks of DNSSEC data: CDS against CDNSKEY records, and the digest of a zone.

pub use cds_check::{CdsVerdict, MakeCdsError, check_cds, key_tag, make_cds};
pub use zonemd_check::{
    ZoneRecord, ZonemdError, ZonemdVerdict, check_zonemd, records_ascend, zonemd_digest,
};
