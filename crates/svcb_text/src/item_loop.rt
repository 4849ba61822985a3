//! Lists between commas in which nothing may be escaped, read item by item.

ghost use Rattle.std.specs.Prelude.{◌≡◌, ℕ, ◌==◌, List, [], Result};
ghost use Rattle.std.specs.List.{list_any};
ghost use Rattle.name_spec.specs.Addresses.{ipv4_of, ipv6_of};
ghost use Rattle.text_spec.specs.declared.errors.ScanError.{ScanError};
ghost use Rattle.text_spec.specs.Scanning.{Answers};
ghost use Rattle.svcb_spec.specs.ListTexts.{comma_items};
ghost use Rattle.svcb_text.specs.Lists.{read_list, add_items, add_last, add_key, read_address, read_group};

use crate::single_values::check_some_text;
use crate::value_iter::SvcParamValueScanIter;
use registry::{IanaNumber, Integer, SvcParamKey};
use std::alloc::Global;
use std::collections::BTreeSet;
use text_spec::ScanError;
use wire_base::{Ipv4Addr, Ipv6Addr};

/// What the items of a list are collected in.
pub(crate) trait TakesItems: Sized + Drop {
    /// What contracts see of it.
    ghost Seen: { Type 0 };

    /// The collection, as contracts see it.
    ghost seen: { Self → Seen };

    /// The collection with an item's text added, or the text's fault.
    ghost adds: { Seen → List ℕ → Result Seen ScanError };

    /// Adds the item that a text is. The collection is dropped where the text has a fault, or allocation fails.
    fn add(self, text: &[u8]) -> Result<Self, ScanError>
        ensures { Answers seen result (adds (seen self) text.now) };
}

/// Adds the items of a text in turn. Fails with the first fault, or with `NoMemory`.
///
/// `MissingValue`: the text has no octets.
pub(crate) fn read_list<L: TakesItems>(start: L, text: &[u8]) -> Result<L, ScanError>
    ensures { Answers L.seen result (read_list L.adds (L.seen start) text.now) }
{
    check_some_text(text)?;
    add_items(start, text)
}

/// Adds the items of a text in turn. Fails with the first fault, or with `NoMemory`.
fn add_items<L: TakesItems>(start: L, text: &[u8]) -> Result<L, ScanError>
    ensures { Answers L.seen result (add_items L.adds (L.seen start) (comma_items text.now)) }
{
    let mut list = start;
    let mut items = SvcParamValueScanIter::from_slice(text);
    while let Some(item) = items.next_no_escapes()? {
        list = list.add(item)?;
    }
    Ok(list)
}

/// Addresses in the order of the text. `BadAddress`: an item is no address.
impl TakesItems for Vec<Ipv4Addr> {
    ghost Seen = { List (List ℕ) };

    ghost seen = { λ list. list.items };

    ghost adds = { add_last (read_address ipv4_of) };

    fn add(self, text: &[u8]) -> Result<Vec<Ipv4Addr>, ScanError> {
        let mut addresses = self;
        addresses.push(Ipv4Addr::from_bytes(text).ok_or(ScanError::BadAddress)?)?;
        Ok(addresses)
    }
}

/// Addresses in the order of the text. `BadAddress`: an item is no address.
impl TakesItems for Vec<Ipv6Addr> {
    ghost Seen = { List (List ℕ) };

    ghost seen = { λ list. list.items };

    ghost adds = { add_last (read_address ipv6_of) };

    fn add(self, text: &[u8]) -> Result<Vec<Ipv6Addr>, ScanError> {
        let mut addresses = self;
        addresses.push(Ipv6Addr::from_bytes(text).ok_or(ScanError::BadAddress)?)?;
        Ok(addresses)
    }
}

/// Mandatory keys, in ascending order. `UnknownKey`: an item is no key. `KeyZeroInMandatory`: it is `mandatory` itself.
/// `DuplicateItem`: the key is there already.
impl TakesItems for BTreeSet<u16> {
    ghost Seen = { List ℕ };

    ghost seen = { λ set. set.keys };

    ghost adds = { add_key };

    fn add(self, text: &[u8]) -> Result<BTreeSet<u16>, ScanError> {
        let mut keys = self;
        let key = SvcParamKey::from_bytes(text).ok_or(ScanError::UnknownKey)?;
        if key == SvcParamKey::MANDATORY {
            return Err(ScanError::KeyZeroInMandatory);
        }
        if !keys.insert(u16::from(key))? {
            return Err(ScanError::DuplicateItem);
        }
        Ok(keys)
    }
}

/// Groups in the order of the text, and the same groups as a set, which tells whether a group is new.
#[derive(Drop)]
pub(crate) struct Groups {
    numbers: Vec<u16>,
    known: BTreeSet<u16>,
    ghost same: { (n : ℕ) → list_any (λ m. m == n) known.keys
        ≡ list_any (λ m. m == n) numbers.items },
}

impl Groups {
    /// No groups. No memory is taken.
    pub(crate) fn new(alloc: Global) -> Groups
        ensures { result.numbers.items ≡ [] }
    {
        Groups {
            numbers: Vec::new(alloc),
            known: BTreeSet::new(alloc),
        }
    }

    /// The groups.
    pub(crate) fn into_numbers(self) -> Vec<u16>
        ensures { result ≡ self.numbers }
    {
        let Groups { numbers, known: _ } = self;
        numbers
    }
}

/// `BadNumber`: an item is no number up to 65,535. `DuplicateItem`: the group is there already.
impl TakesItems for Groups {
    ghost Seen = { List ℕ };

    ghost seen = { λ groups. groups.numbers.items };

    ghost adds = { add_last read_group };

    fn add(self, text: &[u8]) -> Result<Groups, ScanError> {
        let Groups {
            mut numbers,
            mut known,
        } = self;
        let number = u16::from_text(text).ok_or(ScanError::BadNumber)?;
        if !known.insert(number)? {
            return Err(ScanError::DuplicateItem);
        }
        numbers.push(number)?;
        Ok(Groups { numbers, known })
    }
}
