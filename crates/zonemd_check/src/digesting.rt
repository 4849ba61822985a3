//! The digest of a zone (RFC 8976, section 3.3.1).

ghost use Rattle.std.specs.Prelude.{◌≡◌, ◌≢◌, ◌<◌, ◌↔◌, ◌++◌, ℕ, List, Some, length, true, IfOk, IsErrOf};
ghost use Rattle.name_spec.specs.OwnedNames.{lowered_wire};
ghost use Rattle.zonemd_check.specs.declared.digesting.ZonemdError.TheVariants as errors;
ghost use Rattle.zonemd_check.specs.Digesting.{is_excluded, is_repeat, record_octets, zone_octets, zone_digest};
ghost use Rattle.zonemd_check.specs.Repeats.{repeats_before};
ghost use Rattle.zonemd_check.specs.Ordering.{records_ascend};

use crate::zone_record::ZoneRecord;
use key_registry::ZonemdAlgorithm;
use sha2::{Digest, Sha384, Sha512};
use std::alloc::Global;
use thiserror::Error;
use wire_base::{Name, NoMemory, Octets, RecordData, Rtype};

/// The number of the type of signatures (RFC 4034, section 3).
const RRSIG: u16 = 46;

/// Why there is no digest of a zone.
#[derive(Clone, Copy, Debug, PartialEq, Eq, Error)]
pub enum ZonemdError {
    /// The algorithm is neither SHA-384 (1) nor SHA-512 (2).
    #[error("unsupported algorithm")]
    Unsupported,
    /// Allocation for the digest failed.
    #[error("want of memory")]
    NoMemory,
}

impl From<NoMemory> for ZonemdError {
    ghost from_gives = { λ _ error. error ≡ errors.NoMemory };

    fn from(_error: NoMemory) -> ZonemdError {
        ZonemdError::NoMemory
    }
}

/// Feeds the octets of a name in lower case (RFC 4034, section 6.2) to a hash.
fn feed_name<D: Digest>(hasher: &mut D, name: &Name)
    ensures { (m : List ℕ)
        → D.holds hasher.old m → D.holds hasher.new (m ++ lowered_wire name.now) }
{
    let octets = name.as_slice();
    let mut lowered = [0; 255];
    for (place, octet) in octets.iter().enumerate() {
        lowered[place] = octet.to_ascii_lowercase();
    }
    hasher.update(&lowered[..octets.len()]);
}

/// Feeds a record in canonical form (RFC 4034, section 6.2) to a hash.
fn feed_record<D: Digest>(hasher: &mut D, found: &ZoneRecord)
    ensures { (m : List ℕ)
        → D.holds hasher.old m → D.holds hasher.new (m ++ record_octets found.now) }
{
    let octets = found.record_data().octets();
    let len = octets.len() as u16;
    feed_name(hasher, found.owner());
    hasher.update(&found.record_data().rtype().to_int().to_be_bytes());
    hasher.update(&found.class().to_be_bytes());
    hasher.update(&found.ttl().to_be_bytes());
    hasher.update(&len.to_be_bytes());
    hasher.update(octets);
}

/// Whether a record is a ZONEMD record of the apex, or a signature over these.
fn is_excluded(apex: &Name, found: &ZoneRecord) -> bool
    ensures { result ≡ is_excluded apex.now found.now }
{
    let rtype = found.record_data().rtype();
    let is_about_zonemd = rtype == Rtype::ZONEMD
        || rtype.to_int() == RRSIG && found.record_data().octets().starts_with(&[0, 63]);
    is_about_zonemd && found.owner() == apex
}

/// Whether a record has the owner, type and data of the one before it.
fn is_repeat(before: &ZoneRecord, found: &ZoneRecord) -> bool
    ensures { result ≡ is_repeat before.now found.now }
{
    before.record_data() == found.record_data() && before.owner() == found.owner()
}

/// Whether the record at a place repeats the one just before it.
#[tactic(auto, using(crate::proofs::Repeats::before_rules))]
fn repeats_before(records: &[ZoneRecord], place: usize) -> bool
    requires { place < length records.now }
    ensures { result ≡ repeats_before records.now place }
{
    place > 0 && is_repeat(&records[place - 1], &records[place])
}

/// Feeds what is digested of a zone to a hash, a record at a time.
fn feed_zone<D: Digest>(hasher: &mut D, apex: &Name, records: &[ZoneRecord])
    ensures { (m : List ℕ)
        → D.holds hasher.old m → D.holds hasher.new (m ++ zone_octets apex.now records.now) }
{
    for (place, found) in records.iter().enumerate() {
        if !repeats_before(records, place) && !is_excluded(apex, found) {
            feed_record(hasher, found);
        }
    }
}

/// The digest of a zone. What is digested is fed in pieces, so no memory is taken.
fn digest_of<D: Digest>(apex: &Name, records: &[ZoneRecord]) -> D::Output
    ensures { D.digest_of (zone_octets apex.now records.now) result }
{
    let mut hasher = D::new();
    feed_zone(&mut hasher, apex, records);
    hasher.finalize()
}

/// The digest of a zone by an algorithm (RFC 8976, section 3.3.1). Its records ascend, as [`records_ascend`] tells, and
/// their data is in canonical form.
///
/// Left out are the ZONEMD records of the apex, the signatures over these, and a record with the owner, type and data
/// of the one before it, whatever its class and TTL. Every other record gives its owner in lower case, its type, class
/// and TTL, the length of its data, and its data. Memory is taken for the digest alone.
///
/// [`records_ascend`]: crate::records_ascend
///
/// - `Unsupported`: the algorithm is neither SHA-384 (1) nor SHA-512 (2).
/// - `NoMemory`: allocation for the digest failed.
#[tactic(auto, unfolding(crate::specs::Digesting::zone_digest))]
pub fn zonemd_digest(
    alloc: Global,
    apex: &Name,
    records: &[ZoneRecord],
    algorithm: ZonemdAlgorithm,
) -> Result<Octets, ZonemdError>
    requires { records_ascend records.now ≡ true }
    ensures digest { IfOk result (λ digest.
        zone_digest apex.now records.now algorithm ≡ Some digest) }
    ensures unsupported { IsErrOf result ZonemdError.Unsupported
        ↔ ((algorithm ≢ 1) × (algorithm ≢ 2)) }
{
    if algorithm == ZonemdAlgorithm::SHA384 {
        let digest = digest_of::<Sha384>(apex, records);
        Ok(Octets::from_slice(alloc, &digest)?)
    } else if algorithm == ZonemdAlgorithm::SHA512 {
        let digest = digest_of::<Sha512>(apex, records);
        Ok(Octets::from_slice(alloc, &digest)?)
    } else {
        Err(ZonemdError::Unsupported)
    }
}
