//! The order of a zone's records.

ghost use Rattle.std.specs.Prelude.{◌≡◌};
ghost use Rattle.zonemd_check.specs.Ordering.{record_cmp, records_ascend};

use crate::zone_record::ZoneRecord;
use std::cmp::Ordering;

/// Compares records by their owners, then by the numbers of their types, then by their data.
fn record_cmp(found: &ZoneRecord, other: &ZoneRecord) -> Ordering
    ensures { result ≡ record_cmp found.now other.now }
{
    found
        .owner()
        .name_cmp(other.owner())
        .then(found.record_data().cmp(other.record_data()))
}

/// Whether records ascend: by owner in canonical order (RFC 4034, section 6.1), then by type number, then by the octets
/// of the data. Equal ones may stand behind each other; classes and TTLs are not compared.
pub fn records_ascend(records: &[ZoneRecord]) -> bool
    ensures { result ≡ records_ascend records.now }
{
    for place in 1..records.len() {
        if record_cmp(&records[place - 1], &records[place]) == Ordering::Greater {
            return false;
        }
    }
    true
}
