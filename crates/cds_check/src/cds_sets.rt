//! CDS as sets, and which CDS of a key are in one.

ghost use Rattle.std.specs.Prelude.{◌≡◌, ◌||◌, ◌&&◌, IfOk, OnOk};
ghost use Rattle.digest_rdata.specs.declared.cds.CdsFields.{CdsFields};
ghost use Rattle.digest_rdata.specs.FieldsView.{FieldsView};
ghost use Rattle.cds_check.specs.Matching.{matches};
ghost use Rattle.cds_check.specs.CdsSets.{cds_of, is_cds, has, has_made, Covers, IsSetOf};

use crate::making::cds_of;
use crate::tags::key_tag;
use digest_rdata::{Cds, CdsFields};
use key_rdata::Cdnskey;
use key_registry::DigestAlgorithm;
use std::alloc::Global;
use std::collections::BTreeSet;
use wire_base::{Name, NoMemory};

/// The CDS that are asked for.
#[derive(Drop)]
pub(crate) struct AskedCds {
    all: BTreeSet<Cds>,
    /// The fixed fields of each.
    kinds: BTreeSet<CdsFields>,
    ghost covers: { Covers kinds all },
}

impl AskedCds {
    /// The CDS of a list. Fails only with `NoMemory`.
    pub(crate) fn new(alloc: Global, cds: &[Cds]) -> Result<AskedCds, NoMemory>
        ensures { IfOk result (λ asked. IsSetOf asked.all cds.now) }
    {
        let mut all = BTreeSet::new(alloc);
        let mut kinds = BTreeSet::new(alloc);
        for one in cds {
            kinds.insert(CdsFields {
                key_tag: one.key_tag(),
                algorithm: one.algorithm(),
                digest_type: one.digest_type(),
            })?;
            all.insert(one.try_clone(alloc)?)?;
        }
        Ok(AskedCds { all, kinds })
    }
}

/// Adds the CDS of a key with a digest of this type to those found, if it is one of those asked for, and tells whether
/// it is. A digest is made only where one of these has the key's tag and algorithm and the digest type. Fails only with
/// `NoMemory`.
fn add_cds_by(
    alloc: Global,
    owner: &Name,
    key: &Cdnskey,
    digest_type: DigestAlgorithm,
    asked: &AskedCds,
    found: &mut BTreeSet<Cds>,
) -> Result<bool, NoMemory>
    ensures is_asked { IfOk result (λ is_asked.
        is_asked ≡ has_made asked.now.all (cds_of owner.now key.now digest_type)) }
    ensures found { OnOk result ((one : FieldsView CdsFields) → has found.new one
        ≡ (has found.old one
        || (has asked.now.all one && is_cds one (cds_of owner.now key.now digest_type)))) }
{
    let kind = CdsFields {
        key_tag: key_tag(key),
        algorithm: key.algorithm(),
        digest_type,
    };
    if !asked.kinds.contains(&kind) {
        return Ok(false);
    }
    let Some(made) = cds_of(alloc, owner, key, digest_type)? else {
        return Ok(false);
    };
    if !asked.all.contains(&made) {
        return Ok(false);
    }
    found.insert(made)?;
    Ok(true)
}

/// Adds the CDS of a key that are among those asked for to those found, and tells whether there is one. Fails only with
/// `NoMemory`.
pub(crate) fn add_cds_of(
    alloc: Global,
    owner: &Name,
    key: &Cdnskey,
    asked: &AskedCds,
    found: &mut BTreeSet<Cds>,
) -> Result<bool, NoMemory>
    ensures is_asked { IfOk result (λ is_asked. is_asked
        ≡ (has_made asked.now.all (cds_of owner.now key.now 2)
        || has_made asked.now.all (cds_of owner.now key.now 4))) }
    ensures found { OnOk result ((one : FieldsView CdsFields) → has found.new one
        ≡ (has found.old one || (has asked.now.all one && matches owner.now one key.now))) }
{
    let by_sha256 = add_cds_by(alloc, owner, key, DigestAlgorithm::SHA256, asked, found)?;
    let by_sha384 = add_cds_by(alloc, owner, key, DigestAlgorithm::SHA384, asked, found)?;
    Ok(by_sha256 | by_sha384)
}
