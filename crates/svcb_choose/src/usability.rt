//! Which records a client can use.

ghost use Rattle.std.specs.Prelude.{◌≡◌, ◌<◌, ◌&&◌, ℕ, IfOk};
ghost use Rattle.std.specs.Bool.{OnTrue};
ghost use Rattle.std.specs.List.{list_all};
ghost use Rattle.svcb_spec.specs.Params.{IsMap};
ghost use Rattle.svcb_spec.specs.ReadingValues.{numbers, protocols};
ghost use Rattle.svcb_spec.specs.PrintedParams.{holds_key, ascends_above, has_some};
ghost use Rattle.svcb_choose.specs.Usability as usability;

use registry::SvcParamKey;
use std::alloc::Global;
use std::collections::BTreeSet;
use svcb_list::{AlpnIter, MandatoryIter};
use svcb_params::{RawIter, SvcParams};
use wire_base::NoMemory;

/// The numbers of keys, as a set. Fails only with `NoMemory`.
pub(crate) fn key_set(alloc: Global, keys: &[SvcParamKey]) -> Result<BTreeSet<u16>, NoMemory>
    ensures { IfOk result (λ known. usability.HasKeysOf known.keys keys.now) }
{
    let mut known = BTreeSet::new(alloc);
    for key in keys {
        known.insert(u16::from(*key))?;
    }
    Ok(known)
}

/// Whether a client that understands the keys in a set can use a record of these parameters.
#[tactic(auto, unfolding(crate::specs::Usability::is_usable))]
pub(crate) fn is_usable(params: &SvcParams, known: &BTreeSet<u16>) -> bool
    ensures { result ≡ usability.is_usable known.now.keys params.now }
{
    are_well_formed(params)
        && has_met_keys(params, known)
        && has_named_protocols(params)
        && has_alpn_for_no_default(params)
}

/// Whether the octets under each key are wholly a value of the key's type.
#[tactic(auto, using(crate::proofs::WholeValues::well_formed_items))]
fn are_well_formed(params: &SvcParams) -> bool
    ensures { result ≡ usability.are_well_formed params.now }
{
    for item in params.iter_all() {
        if item.is_err() {
            return false;
        }
    }
    true
}

/// Whether the mandatory keys, where there are any, are keys of the record and are understood.
fn has_met_keys(params: &SvcParams, known: &BTreeSet<u16>) -> bool
    ensures { result ≡ usability.has_met_keys known.now.keys params.now }
{
    let Some(mandatory) = params.mandatory() else {
        return true;
    };
    !mandatory.slice.is_empty()
        && are_there(mandatory.iter(), params.iter_raw())
        && are_understood(mandatory.iter(), known)
}

/// Whether keys ascend strictly from above 0, and pairs have each of them. The pairs ascend too, so one walk over both
/// tells.
#[tactic(auto, using(crate::proofs::HeldKeys::there_rules))]
fn are_there(keys: MandatoryIter<'_>, mut pairs: RawIter<'_>) -> bool
    requires { IsMap pairs }
    ensures { result ≡ (ascends_above 0 (numbers keys.entry)
        && list_all (holds_key pairs.entry) (numbers keys.entry)) }
{
    let mut least = 0;
    for key in keys {
        let key = u16::from(key);
        if key <= least || !pass_to(&mut pairs, key) {
            return false;
        }
        least = key;
    }
    true
}

/// Passes over the pairs up to a key and behind it, and tells whether one of them has it.
#[tactic(auto, using(crate::proofs::HeldKeys::passing_rules))]
fn pass_to(pairs: &mut RawIter<'_>, key: u16) -> bool
    requires { IsMap pairs.old }
    ensures found { result ≡ holds_key pairs.old key }
    ensures behind { OnTrue result ((above : ℕ) → key < above
        → holds_key pairs.new above ≡ holds_key pairs.old above) }
    ensures is_map { IsMap pairs.new }
{
    while let Some(pair) = pairs.next() {
        let passed = u16::from(pair.key());
        if passed >= key {
            return passed == key;
        }
    }
    false
}

/// Whether a client understands each of these keys.
#[tactic(auto, using(crate::proofs::KeySets::has_number))]
fn are_understood(keys: MandatoryIter<'_>, known: &BTreeSet<u16>) -> bool
    ensures { result ≡ list_all (usability.is_understood known.now.keys) (numbers keys.entry) }
{
    for key in keys {
        if !known.contains(&u16::from(key)) {
            return false;
        }
    }
    true
}

/// Whether the protocols, where there are any, have names.
fn has_named_protocols(params: &SvcParams) -> bool
    ensures { result ≡ usability.has_named_protocols params.now }
{
    let Some(alpn) = params.alpn() else {
        return true;
    };
    !alpn.slice.is_empty() && are_named(alpn.iter())
}

/// Whether each name has octets.
fn are_named(names: AlpnIter<'_>) -> bool
    ensures { result ≡ list_all has_some (protocols names.entry) }
{
    for name in names {
        if name.is_empty() {
            return false;
        }
    }
    true
}

/// Whether the default protocols are left out only where others are named.
fn has_alpn_for_no_default(params: &SvcParams) -> bool
    ensures { result ≡ usability.has_alpn_for_no_default params.now }
{
    !params.no_default_alpn() || params.alpn().is_some()
}
