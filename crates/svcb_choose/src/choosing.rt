//! The choice for an owner.

ghost use Rattle.std.specs.Prelude.{◌≡◌, ◌≢◌, ◌↔◌, ℕ, List, [], true, IfOk, OnErr};
ghost use Rattle.svcb_choose.specs.Choosing.{alias_of, choice, endpoint_of, endpoints_from, priorities_ascend};
ghost use Rattle.svcb_choose.specs.Choices.{BeginsWithAlias, HasUsable};

use crate::choice::{Choice, Endpoint, Endpoints};
use crate::protocols::{distinct_defaults, protocols_of};
use crate::usability::{is_usable, key_set};
use registry::SvcParamKey;
use std::alloc::Global;
use std::collections::BTreeSet;
use svcb_rdata::{SvcVariant, SvcbRdata};
use wire_base::{Name, NoMemory, Octets};

/// Whether no record has a lower priority than the one before it.
pub fn priorities_ascend<V: SvcVariant>(records: &[SvcbRdata<V>]) -> bool
    ensures { result ≡ priorities_ascend records.now }
{
    let mut last = 0;
    for found in records {
        if found.priority() < last {
            return false;
        }
        last = found.priority();
    }
    true
}

/// What a client chooses from the records of an owner, whose priorities ascend, as [`priorities_ascend`] tells. It
/// understands these keys, and the defaults are the protocols that the owner's scheme has by itself (RFC 9460, section
/// 7.1.2).
///
/// A first record in alias mode counts alone (section 2.4.1): its target is the alias, and where that is the root there
/// is no service. Else there is an endpoint for each usable record, in order, and no other. A record is usable where
/// all of these hold:
///
/// - The octets under each key from 0 to 9 are wholly a value of the key's type.
/// - `mandatory`, where it is there, lists at least one key, in strictly ascending order and without 0, and each of
///   them is a key of the record and is understood (section 8).
/// - `alpn`, where it is there, lists at least one protocol, and none that is empty.
/// - `no-default-alpn` is there only where `alpn` is.
///
/// An endpoint has the record's target, or the owner where that is the root (section 2.5.2); its port; the protocols
/// of `alpn`; and behind these, unless `no-default-alpn` is there, each default that isn't in the list so far.
///
/// Fails only with `NoMemory`, and only where there is a record, and not an alias to the root.
#[tactic(auto, unfolding(crate::specs::Choosing::choice))]
pub fn choose<V: SvcVariant>(
    alloc: Global,
    owner: &Name,
    records: &[SvcbRdata<V>],
    understood: &[SvcParamKey],
    defaults: &[Octets],
) -> Result<Choice, NoMemory>
    requires { priorities_ascend records.now ≡ true }
    ensures answer { IfOk result (λ chosen. chosen
        ≡ choice owner.now records.now understood.now defaults.now) }
    ensures alias { IfOk result (λ chosen. (target : List (List ℕ)) → chosen ≡ Choice.Alias target
        ↔ (BeginsWithAlias records.now target × (target ≢ []))) }
    ensures unavailable { IfOk result (λ chosen. chosen ≡ Choice.Unavailable
        ↔ BeginsWithAlias records.now []) }
    ensures usable { IfOk result (HasUsable owner.now understood.now records.now) }
    // No memory is wanted where there is no record, or no service.
    ensures memory { OnErr result ((records.now ≢ []) × ¬ (BeginsWithAlias records.now [])) }
{
    let Some(first) = records.first() else {
        return Ok(Choice::Endpoints(Endpoints::from_vec(Vec::new(alloc))));
    };
    if first.is_alias() {
        return alias_of(alloc, first.target());
    }
    let endpoints = usable_endpoints(alloc, owner, records, understood, defaults)?;
    Ok(Choice::Endpoints(Endpoints::from_vec(endpoints)))
}

/// The endpoints of the records that a client can use, which understands these keys. Fails only with `NoMemory`.
fn usable_endpoints<V: SvcVariant>(
    alloc: Global,
    owner: &Name,
    records: &[SvcbRdata<V>],
    understood: &[SvcParamKey],
    defaults: &[Octets],
) -> Result<Vec<Endpoint>, NoMemory>
    ensures { IfOk result (λ endpoints. endpoints.items
        ≡ endpoints_from owner.now understood.now defaults.now 0 records.now) }
{
    let known = key_set(alloc, understood)?;
    let distinct = distinct_defaults(alloc, defaults)?;
    let endpoints = endpoints_of(alloc, owner, records, &known, distinct.as_slice())?;
    Ok(endpoints)
}

/// What a record in alias mode leads to. Fails only with `NoMemory`.
fn alias_of(alloc: Global, target: &Name) -> Result<Choice, NoMemory>
    ensures value { IfOk result (λ chosen. chosen ≡ alias_of target.now) }
    ensures memory { OnErr result (target.now ≢ []) }
{
    if target.is_root() {
        return Ok(Choice::Unavailable);
    }
    Ok(Choice::Alias(target.try_clone(alloc)?))
}

/// The endpoints of the records whose mandatory keys are known, in order. Fails only with `NoMemory`.
fn endpoints_of<V: SvcVariant>(
    alloc: Global,
    owner: &Name,
    records: &[SvcbRdata<V>],
    known: &BTreeSet<u16>,
    defaults: &[Octets],
) -> Result<Vec<Endpoint>, NoMemory>
    ensures { IfOk result (λ endpoints. endpoints.items
        ≡ endpoints_from owner.now known.now.keys defaults.now 0 records.now) }
{
    let mut endpoints = Vec::new(alloc);
    for (index, found) in records.iter().enumerate() {
        if is_usable(found.params(), known) {
            endpoints.push(endpoint_of(alloc, owner, index, found, defaults)?)?;
        }
    }
    Ok(endpoints)
}

/// The endpoint of a record at a place. Fails only with `NoMemory`.
#[tactic(auto, unfolding(crate::specs::Choosing::endpoint_of))]
fn endpoint_of<V: SvcVariant>(
    alloc: Global,
    owner: &Name,
    index: usize,
    found: &SvcbRdata<V>,
    defaults: &[Octets],
) -> Result<Endpoint, NoMemory>
    ensures { IfOk result (λ endpoint. endpoint
        ≡ endpoint_of owner.now defaults.now index found.now) }
{
    let target = if found.target().is_root() {
        owner
    } else {
        found.target()
    };
    Ok(Endpoint {
        index,
        target: target.try_clone(alloc)?,
        port: found.params().port().map(|port| port.port()),
        protocols: protocols_of(alloc, found.params(), defaults)?,
    })
}
