//! The values that tokens spell, by their keys.

ghost use Rattle.std.specs.Prelude.{◌≡◌, ◌++◌, Some, IfOk};
ghost use Rattle.std.specs.List.{list_all};
ghost use Rattle.svcb_spec.specs.Params.{pair_wire, pairs_wire};
ghost use Rattle.svcb_spec.specs.Values.{encode};
ghost use Rattle.svcb_text.specs.AllValues.{value_of};
ghost use Rattle.svcb_spec.specs.ParamTexts.{mandatory_keys};
ghost use Rattle.svcb_pairs.specs.Holding.{KeepsValue, pairs_of, has_entry, has_mandatory};

use registry::{ComposeSvcParamValue, Integer, SvcParamValue};
use std::alloc::Global;
use std::collections::BTreeMap;
use std::collections::btree_map::Entry;
use svcb_text::{AllValues, AllValuesRef};
use text_spec::ScanError;
use wire_base::{NoMemory, Octets};

/// Keeps a value under its key, and gives the count of its parameter's octets in wire form. Refused as `DuplicateKey`
/// where the key has a value already, else only when allocation fails.
pub(crate) fn keep(
    values: &mut BTreeMap<u16, AllValues>,
    value: AllValues,
) -> Result<usize, ScanError>
    ensures { KeepsValue (value_of value) values.old.entries values.new.entries result }
{
    let len = value.compose_len();
    match values.entry(u16::from(value.key())) {
        Ok(Entry::Vacant(place)) => {
            place.insert(value);
            Ok(4 + usize::from(len))
        }
        Ok(Entry::Occupied(_place)) => Err(ScanError::DuplicateKey),
        Err(_) => Err(ScanError::NoMemory),
    }
}

/// Whether each key that the list of mandatory keys names has a value. A value of any octets under key 0 is no such
/// list.
pub(crate) fn has_mandatory(values: &BTreeMap<u16, AllValues>) -> bool
    ensures { result ≡ has_mandatory values.now.entries }
{
    match values.get(&0) {
        Some(value) => has_listed(values, value),
        None => true,
    }
}

/// Whether each key that a value lists as mandatory has a value.
fn has_listed(values: &BTreeMap<u16, AllValues>, value: &AllValues) -> bool
    ensures { result
        ≡ list_all (has_entry values.now.entries) (mandatory_keys (value_of value.now)) }
{
    let AllValuesRef::Mandatory(list) = value.for_ref() else {
        return true;
    };
    for key in list.iter() {
        if !values.contains_key(&u16::from(key)) {
            return false;
        }
    }
    true
}

/// The octets of the values in wire form, by ascending keys. There are to be `len` of them, for which room is made once.
/// Fails only with `NoMemory`.
pub(crate) fn compose(
    alloc: Global,
    values: &BTreeMap<u16, AllValues>,
    len: usize,
) -> Result<Octets, NoMemory>
    ensures { IfOk result (λ octets. octets ≡ pairs_wire (pairs_of values.now.entries)) }
{
    let mut octets = Vec::with_capacity(alloc, len)?;
    for (key, value) in values {
        compose_with_key(*key, value, &mut octets)?;
    }
    Ok(Octets::from_vec(octets))
}

/// Appends a key, the length of a value, and the value, which composes itself: `svcb_value::parameter` writes values
/// whose octets are at hand. Fails only with `NoMemory`.
fn compose_with_key(key: u16, value: &AllValues, target: &mut Vec<u8>) -> Result<(), NoMemory>
    ensures { IfOk result (λ _. target.new.items
        ≡ target.old.items ++ pair_wire key (Some (encode (value_of value.now)))) }
{
    key.compose(target)?;
    value.compose_len().compose(target)?;
    value.compose_value(target)
}
