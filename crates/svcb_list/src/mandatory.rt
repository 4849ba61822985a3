//! The keys that a client must know (RFC 9460, section 8).

ghost use Rattle.std.specs.Prelude.{◌≡◌, ◌*◌, ◌<◌, ◌∷◌, ◌%◌, ◌==◌, Some, true, ℕ, length, refl, IfOk};
ghost use Rattle.svcb_spec.specs.Values as values;
ghost use Rattle.svcb_list.specs.Holding.{numbers_hold};
ghost use Rattle.svcb_spec.specs.BuildingValues.{IsBuilt};
ghost use Rattle.svcb_spec.specs.ReadingValues.{numbers, parts_fault};
ghost use Rattle.svcb_spec.specs.PrintedValues.{key_name, value_printed};

use crate::fixed_item::compose_items;
use crate::item_iter::ItemIter;
use crate::item_list::{ItemList, ItemListRef};
use crate::list_type::{ListItems, ListType};
use crate::parts::{check_parts, split_number};
use registry::{BuildValueError, SvcParamKey};
use std::alloc::Global;
use std::fmt;
use wire_base::ParseError;

/// The type of `mandatory` (RFC 9460, section 8), whose items are keys of two octets each.
#[derive(Debug)]
pub struct MandatoryType;

/// The value of `mandatory`: the keys that a client must know, or else leave the record aside.
pub type Mandatory = ItemList<MandatoryType>;

/// A view of the value of `mandatory`, which borrows the octets.
pub type MandatoryRef<'a> = ItemListRef<'a, MandatoryType>;

/// The mandatory keys in order.
pub type MandatoryIter<'a> = ItemIter<'a, MandatoryType>;

impl Mandatory {
    /// The value of a list of keys, in the order in which they are given.
    ///
    /// `LongSvcParam`: there are more than 32,767 keys, which have over 65,535 octets. `NoMemory`: allocation failed.
    #[tactic(auto, using(crate::proofs::BuildLemmas::numbers_built))]
    pub fn from_keys(alloc: Global, keys: &[SvcParamKey]) -> Result<Mandatory, BuildValueError>
        ensures value { IfOk result (λ list. list ≡ values.Mandatory keys.now) }
        ensures answer { IsBuilt result (length keys.now * 2) }
    {
        Ok(ItemList::from_checked_octets(compose_items(alloc, keys)?))
    }
}

/// The text of a view of the value.
impl fmt::Display for Mandatory {
    ghost output = { λ list. Some (value_printed list) };

    fn fmt<W: fmt::Write>(&self, f: &mut fmt::Formatter<W>) -> fmt::Result {
        write!(f, "{}", self.for_ref())
    }
}

impl ListType for MandatoryType {
    ghost key = { 0 };

    ghost value = { λ octets. values.Mandatory (numbers octets) };

    ghost fault = { parts_fault 2 };

    ghost whole = { λ octets. length octets % 2 == 0 };

    ghost has_key = { λ octets. refl };

    ghost has_items = { λ octets small holds. numbers_hold octets small holds.whole };

    const NAME: &'static str = "Mandatory";

    fn key() -> SvcParamKey {
        SvcParamKey::MANDATORY
    }

    #[tactic(auto, using(crate::proofs::PartLemmas::numbers_encoded))]
    fn check(octets: &[u8]) -> Result<(), ParseError> {
        check_parts(octets, 2)
    }
}

impl<'a> ListItems<'a> for MandatoryType {
    type Item = SvcParamKey;

    ghost Seen = { ℕ };

    ghost seen = { λ key. key };

    ghost items = { numbers };

    ghost listed = { values.Mandatory };

    ghost text = { key_name };

    ghost no_items = { refl };

    ghost lists = { λ octets. refl };

    ghost prints = { λ keys. refl };

    fn split(octets: &'a [u8]) -> (SvcParamKey, &'a [u8]) {
        let (number, others) = split_number(octets);
        (SvcParamKey::from(number), others)
    }

    fn write_item<W: fmt::Write>(key: SvcParamKey, f: &mut fmt::Formatter<W>) -> fmt::Result {
        write!(f, "{key}")
    }
}
