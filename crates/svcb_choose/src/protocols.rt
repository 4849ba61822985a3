//! The protocols of an endpoint.

ghost use Rattle.std.specs.Prelude.{◌≡◌, [], IfOk};
ghost use Rattle.svcb_choose.specs.Protocols.{alpn_items, protocols_of, with_defaults, IsSetOf};

use crate::choice::Protocols;
use std::alloc::Global;
use std::collections::BTreeSet;
use svcb_params::SvcParams;
use wire_base::{NoMemory, Octets};

/// The protocols of a record. Fails only with `NoMemory`.
#[tactic(auto, unfolding(crate::specs::Protocols::protocols_of))]
pub(crate) fn protocols_of(
    alloc: Global,
    params: &SvcParams,
    defaults: &[Octets],
) -> Result<Protocols, NoMemory>
    ensures { IfOk result (λ found. found ≡ protocols_of defaults.now params.now) }
{
    let mut listed = alpn_items(alloc, params)?;
    if !params.no_default_alpn() && !defaults.is_empty() {
        let known = alpn_set(alloc, params)?;
        add_defaults(alloc, &mut listed, known, defaults)?;
    }
    Ok(Protocols::from_vec(listed))
}

/// The defaults, of equal ones the first alone. Fails only with `NoMemory`.
#[tactic(auto, using(crate::proofs::ProtocolSets::none_known))]
pub(crate) fn distinct_defaults(alloc: Global, defaults: &[Octets]) -> Result<Vec<Octets>, NoMemory>
    ensures { IfOk result (λ distinct. distinct.items ≡ with_defaults [] defaults.now) }
{
    let mut distinct = Vec::new(alloc);
    add_defaults(alloc, &mut distinct, BTreeSet::new(alloc), defaults)?;
    Ok(distinct)
}

/// The protocols that the record lists. Fails only with `NoMemory`.
fn alpn_items(alloc: Global, params: &SvcParams) -> Result<Vec<Octets>, NoMemory>
    ensures { IfOk result (λ listed. listed.items ≡ alpn_items params.now) }
{
    let mut listed = Vec::new(alloc);
    let Some(alpn) = params.alpn() else {
        return Ok(listed);
    };
    for protocol in alpn.iter() {
        listed.push(Octets::from_slice(alloc, protocol)?)?;
    }
    Ok(listed)
}

/// The protocols that the record lists, as a set. Fails only with `NoMemory`.
fn alpn_set<'a>(alloc: Global, params: &'a SvcParams) -> Result<BTreeSet<&'a [u8]>, NoMemory>
    ensures { IfOk result (λ known. IsSetOf known (alpn_items params.now)) }
{
    let mut known = BTreeSet::new(alloc);
    let Some(alpn) = params.alpn() else {
        return Ok(known);
    };
    for protocol in alpn.iter() {
        known.insert(protocol)?;
    }
    Ok(known)
}

/// Adds each default that isn't in the list so far, whose protocols are known as a set. Fails only with `NoMemory`.
fn add_defaults<'a>(
    alloc: Global,
    listed: &mut Vec<Octets>,
    mut known: BTreeSet<&'a [u8]>,
    defaults: &'a [Octets],
) -> Result<(), NoMemory>
    requires { IsSetOf known listed.old.items }
    ensures { IfOk result (λ _. listed.new.items ≡ with_defaults listed.old.items defaults.now) }
{
    for protocol in defaults {
        if known.insert(protocol.as_slice())? {
            listed.push(protocol.try_clone(alloc)?)?;
        }
    }
    Ok(())
}
