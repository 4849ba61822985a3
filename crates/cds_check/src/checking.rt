//! The check of CDS against CDNSKEY records.

ghost use Rattle.std.specs.Prelude.{◌≡◌, ◌↔◌, ◌<◌, ℕ, Option, not, length, IfOk, OnErr};
ghost use Rattle.std.specs.List.{position};
ghost use Rattle.cds_check.specs.Verdicts.{cds_verdict, verdict_of, has_key, Agrees, IsFirstAlone, IsFirstKeyAlone};
ghost use Rattle.cds_check.specs.CdsSets.{has};

use crate::cds_sets::{AskedCds, add_cds_of};
use crate::verdict::CdsVerdict;
use digest_rdata::Cds;
use key_rdata::Cdnskey;
use std::alloc::Global;
use std::collections::BTreeSet;
use wire_base::{Name, NoMemory};

/// The place of the first CDS that isn't in a set.
fn first_outside(cds: &[Cds], found: &BTreeSet<Cds>) -> Option<usize>
    ensures { result ≡ position (λ one. not (has found.now one)) cds.now }
{
    cds.iter().position(|one| !found.contains(one))
}

/// The place of the first mark that is not set.
fn first_unmarked(marks: &[bool]) -> Option<usize>
    ensures { result ≡ position not marks.now }
{
    marks.iter().position(|is_marked| !*is_marked)
}

/// The verdict by the first CDS and the first CDNSKEY without a partner.
fn verdict_of(cds_alone: Option<usize>, key_alone: Option<usize>) -> CdsVerdict
    ensures { result ≡ verdict_of cds_alone key_alone }
{
    match (cds_alone, key_alone) {
        (Some(i), _) => CdsVerdict::CdsAlone(i),
        (None, Some(j)) => CdsVerdict::CdnskeyAlone(j),
        (None, None) => CdsVerdict::Agree,
    }
}

/// The verdict. Fails only with `NoMemory`, where there are both CDS and keys.
#[tactic(auto, using(crate::proofs::VerdictLaws::one_sided))]
fn find_verdict(
    alloc: Global,
    owner: &Name,
    cds: &[Cds],
    keys: &[Cdnskey],
) -> Result<CdsVerdict, NoMemory>
    ensures verdict { IfOk result (λ verdict. verdict ≡ cds_verdict owner.now cds.now keys.now) }
    ensures memory { OnErr result ((0 < length cds.now) × (0 < length keys.now)) }
{
    if keys.is_empty() {
        return Ok(if cds.is_empty() {
            CdsVerdict::Agree
        } else {
            CdsVerdict::CdsAlone(0)
        });
    }
    if cds.is_empty() {
        return Ok(CdsVerdict::CdnskeyAlone(0));
    }
    let asked = AskedCds::new(alloc, cds)?;
    let mut found = BTreeSet::new(alloc);
    let mut marks = Vec::new(alloc);
    for key in keys {
        marks.push(add_cds_of(alloc, owner, key, &asked, &mut found)?)?;
    }
    Ok(verdict_of(first_outside(cds, &found), first_unmarked(&marks)))
}

/// Whether the CDS and the CDNSKEY records of one owner ask the parent zone for the same keys (RFC 7344, section 4).
///
/// A CDS matches a key where they have one algorithm, which is not RSA/MD5 (1), and the CDS has the key's tag and the
/// key's digest by SHA-256 or SHA-384 (RFC 4034, appendix B and section 5.1.4). A CDS with another digest type matches
/// no key, and one that asks for the deletion of DS records (RFC 8078) is taken as any other.
///
/// The first CDS that matches no key decides; then the first key that no CDS matches. A key is digested at most
/// once by each of the two, where a CDS of that digest type has its tag and algorithm, and the digest is looked up among
/// those of the CDS.
///
/// Fails only with `NoMemory`: allocation failed. Memory is taken only where there are both CDS and keys.
pub fn check_cds(
    alloc: Global,
    owner: &Name,
    cds: &[Cds],
    keys: &[Cdnskey],
) -> Result<CdsVerdict, NoMemory>
    ensures verdict { IfOk result (λ verdict. verdict ≡ cds_verdict owner.now cds.now keys.now) }
    ensures agree { IfOk result (λ verdict. (verdict ≡ CdsVerdict.Agree)
        ↔ Agrees owner.now cds.now keys.now) }
    ensures cds_alone { IfOk result (λ verdict. (i : ℕ) → (verdict ≡ CdsVerdict.CdsAlone i)
        ↔ IsFirstAlone (has_key owner.now keys.now) cds.now i) }
    ensures cdnskey_alone { IfOk result (λ verdict. (j : ℕ)
        → (verdict ≡ CdsVerdict.CdnskeyAlone j)
        ↔ IsFirstKeyAlone owner.now cds.now keys.now j) }
    ensures memory { OnErr result ((0 < length cds.now) × (0 < length keys.now)) }
{
    find_verdict(alloc, owner, cds, keys)
}
