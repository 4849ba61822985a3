//! The CDS of a key.

ghost use Rattle.std.specs.Prelude.{◌≡◌, ◌≢◌, ◌↔◌, Some, IfOk, IsErrOf, IsTrue};
ghost use Rattle.cds_check.specs.declared.making.MakeCdsError.TheVariants as errors;
ghost use Rattle.cds_check.specs.KeyTags.{key_tag};
ghost use Rattle.cds_check.specs.Matching.{key_digest, matches};
ghost use Rattle.cds_check.specs.CdsSets.{cds_of};

use crate::digests::KeyDigest;
use crate::tags::key_tag;
use digest_rdata::Cds;
use key_rdata::Cdnskey;
use key_registry::{DigestAlgorithm, SecurityAlgorithm};
use std::alloc::Global;
use thiserror::Error;
use wire_base::{Name, NoMemory, Octets};

/// Why no CDS was made of a key.
#[derive(Clone, Copy, Debug, PartialEq, Eq, Error)]
pub enum MakeCdsError {
    /// The key's algorithm is RSA/MD5 (1), whose keys have no CDS here.
    #[error("unsupported algorithm")]
    UnsupportedAlgorithm,
    /// The digest type is neither SHA-256 (2) nor SHA-384 (4).
    #[error("unsupported digest type")]
    UnsupportedDigest,
    /// Allocation for the digest failed.
    #[error("want of memory")]
    NoMemory,
}

impl From<NoMemory> for MakeCdsError {
    ghost from_gives = { λ _ error. error ≡ errors.NoMemory };

    fn from(_error: NoMemory) -> MakeCdsError {
        MakeCdsError::NoMemory
    }
}

/// The CDS of a key under an owner, with a digest of that type (RFC 4034, section 5.1.4).
///
/// The first of these errors that applies is returned.
///
/// - `UnsupportedAlgorithm`: the key's algorithm is RSA/MD5 (1).
/// - `UnsupportedDigest`: the digest type is neither SHA-256 (2) nor SHA-384 (4).
/// - `NoMemory`: allocation for the digest failed.
#[tactic(auto, using(crate::proofs::Matches::made_rules))]
pub fn make_cds(
    alloc: Global,
    owner: &Name,
    key: &Cdnskey,
    digest_type: DigestAlgorithm,
) -> Result<Cds, MakeCdsError>
    ensures fields { IfOk result (λ made. made.fields ≡ record {
      key_tag = key_tag key.now;
      algorithm = key.now.fields.algorithm;
      digest_type = digest_type;
    }) }
    ensures digest { IfOk result (λ made.
        key_digest owner.now key.now digest_type ≡ Some made.last) }
    ensures is_match { IfOk result (λ made. IsTrue (matches owner.now made key.now)) }
    ensures algorithm { IsErrOf result MakeCdsError.UnsupportedAlgorithm
        ↔ (key.now.fields.algorithm ≡ 1) }
    ensures digest_type { IsErrOf result MakeCdsError.UnsupportedDigest
        ↔ ((key.now.fields.algorithm ≢ 1) × (digest_type ≢ 2) × (digest_type ≢ 4)) }
{
    if key.algorithm() == SecurityAlgorithm::RSAMD5 {
        return Err(MakeCdsError::UnsupportedAlgorithm);
    }
    let Some(digest) = KeyDigest::new(owner, key, digest_type) else {
        return Err(MakeCdsError::UnsupportedDigest);
    };
    let octets = Octets::from_slice(alloc, digest.as_slice())?;
    Ok(Cds::new(key_tag(key), key.algorithm(), digest_type, octets).unwrap())
}

/// The CDS of a key under an owner, with a digest of that type; `None` where the algorithm or the digest type is not
/// supported. Fails only with `NoMemory`.
#[tactic(auto, using(crate::proofs::Made::made_is))]
pub(crate) fn cds_of(
    alloc: Global,
    owner: &Name,
    key: &Cdnskey,
    digest_type: DigestAlgorithm,
) -> Result<Option<Cds>, NoMemory>
    ensures { IfOk result (λ made. made ≡ cds_of owner.now key.now digest_type) }
{
    match make_cds(alloc, owner, key, digest_type) {
        Ok(made) => Ok(Some(made)),
        Err(MakeCdsError::UnsupportedAlgorithm) => Ok(None),
        Err(MakeCdsError::UnsupportedDigest) => Ok(None),
        Err(MakeCdsError::NoMemory) => Err(NoMemory),
    }
}
