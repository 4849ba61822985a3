//! The check of a zone against its ZONEMD record.

ghost use Rattle.std.specs.Prelude.{◌≡◌, ◌↔◌, true, IfOk, OnErr};
ghost use Rattle.zonemd_check.specs.Ordering.{records_ascend};
ghost use Rattle.zonemd_check.specs.Verdicts.{zonemd_verdict, IsUnsupported, IsSupported, HasDigest, HasOther};

use crate::digesting::{ZonemdError, zonemd_digest};
use crate::verdict::ZonemdVerdict;
use crate::zone_record::ZoneRecord;
use digest_rdata::Zonemd;
use key_registry::ZonemdScheme;
use std::alloc::Global;
use wire_base::{Name, NoMemory};

/// Whether a zone has the digest of a ZONEMD record (RFC 8976, section 4). The zone's records ascend, as
/// [`records_ascend`] tells, and their data is in canonical form.
///
/// `Unsupported` comes exactly where the scheme is not SIMPLE (1) or the algorithm neither SHA-384 (1) nor SHA-512
/// (2); else `Match` exactly where the zone's digest is the record's, both whole; else `Mismatch`. The serial number is
/// left to the caller, and classes are not compared.
///
/// [`records_ascend`]: crate::records_ascend
///
/// Fails only with `NoMemory`: allocation for the digest of a supported scheme and algorithm failed.
#[tactic(auto, using(crate::proofs::Digests::refused_algorithm), unfolding(crate::specs::Verdicts::zonemd_verdict))]
pub fn check_zonemd(
    alloc: Global,
    apex: &Name,
    records: &[ZoneRecord],
    zonemd: &Zonemd,
) -> Result<ZonemdVerdict, NoMemory>
    requires { records_ascend records.now ≡ true }
    ensures verdict { IfOk result (λ verdict.
        verdict ≡ zonemd_verdict apex.now records.now zonemd.now) }
    ensures unsupported { IfOk result (λ verdict.
        (verdict ≡ ZonemdVerdict.Unsupported) ↔ IsUnsupported zonemd.now.fields) }
    ensures is_match { IfOk result (λ verdict.
        (verdict ≡ ZonemdVerdict.Match) ↔ HasDigest apex.now records.now zonemd.now) }
    ensures is_mismatch { IfOk result (λ verdict.
        (verdict ≡ ZonemdVerdict.Mismatch) ↔ HasOther apex.now records.now zonemd.now) }
    ensures memory { OnErr result (IsSupported zonemd.now.fields) }
{
    if zonemd.scheme() != ZonemdScheme::SIMPLE {
        return Ok(ZonemdVerdict::Unsupported);
    }
    match zonemd_digest(alloc, apex, records, zonemd.algorithm()) {
        Ok(digest) if digest == *zonemd.digest() => Ok(ZonemdVerdict::Match),
        Ok(_) => Ok(ZonemdVerdict::Mismatch),
        Err(ZonemdError::Unsupported) => Ok(ZonemdVerdict::Unsupported),
        Err(ZonemdError::NoMemory) => Err(NoMemory),
    }
}
