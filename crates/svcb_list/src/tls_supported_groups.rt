//! The groups for key exchange that a server supports (key 9, `tls-supported-groups`).

ghost use Rattle.std.specs.Prelude.{◌≡◌, ◌*◌, ◌<◌, ◌∷◌, ◌%◌, ◌==◌, Some, true, ℕ, length, refl, IfOk};
ghost use Rattle.svcb_spec.specs.Values as values;
ghost use Rattle.svcb_list.specs.Holding.{numbers_hold, some_groups};
ghost use Rattle.svcb_spec.specs.BuildingValues.{IsBuiltNotEmpty};
ghost use Rattle.svcb_spec.specs.ReadingValues.{numbers, groups_fault};
ghost use Rattle.std.specs.Fmt.{decimal};
ghost use Rattle.svcb_spec.specs.PrintedValues.{value_printed};

use crate::fixed_item::compose_items;
use crate::item_iter::ItemIter;
use crate::item_list::{ItemList, ItemListRef};
use crate::list_type::{ListItems, ListType};
use crate::parts::{check_parts, split_number};
use registry::{BuildValueError, SvcParamKey};
use std::alloc::Global;
use std::fmt;
use wire_base::ParseError;

/// The type of `tls-supported-groups`, whose items are numbers of two octets each, at least one.
#[derive(Debug)]
pub struct TlsSupportedGroupsType;

/// The value of `tls-supported-groups`: the groups for key exchange that a server supports, at least one.
pub type TlsSupportedGroups = ItemList<TlsSupportedGroupsType>;

/// A view of the value of `tls-supported-groups`, which borrows the octets.
pub type TlsSupportedGroupsRef<'a> = ItemListRef<'a, TlsSupportedGroupsType>;

/// The supported groups in order.
pub type TlsSupportedGroupsIter<'a> = ItemIter<'a, TlsSupportedGroupsType>;

impl TlsSupportedGroups {
    /// The value of a list of groups, in the order in which they are given.
    ///
    /// `EmptyValue`: there is no group. `LongSvcParam`: there are more than 32,767 groups, which have over 65,535
    /// octets. `NoMemory`: allocation failed.
    #[tactic(auto, using(crate::proofs::BuildLemmas::numbers_built))]
    pub fn from_keys(alloc: Global, keys: &[u16]) -> Result<TlsSupportedGroups, BuildValueError>
        ensures value { IfOk result (λ list. list ≡ values.TlsSupportedGroups keys.now) }
        ensures answer { IsBuiltNotEmpty result (length keys.now * 2) }
    {
        if keys.is_empty() {
            return Err(BuildValueError::EmptyValue);
        }
        Ok(ItemList::from_checked_octets(compose_items(alloc, keys)?))
    }
}

/// The text of a view of the value.
impl fmt::Display for TlsSupportedGroups {
    ghost output = { λ list. Some (value_printed list) };

    fn fmt<W: fmt::Write>(&self, f: &mut fmt::Formatter<W>) -> fmt::Result {
        write!(f, "{}", self.for_ref())
    }
}

impl ListType for TlsSupportedGroupsType {
    ghost key = { 9 };

    ghost value = { λ octets. values.TlsSupportedGroups (numbers octets) };

    ghost fault = { groups_fault };

    ghost whole = { λ octets. length octets % 2 == 0 };

    ghost has_key = { λ octets. refl };

    ghost has_items = { λ octets small holds.
        (some_groups octets holds.sound, numbers_hold octets small holds.whole) };

    const NAME: &'static str = "TlsSupportedGroups";

    fn key() -> SvcParamKey {
        SvcParamKey::TLS_SUPPORTED_GROUPS
    }

    #[tactic(auto, using(crate::proofs::PartLemmas::numbers_encoded))]
    fn check(octets: &[u8]) -> Result<(), ParseError> {
        if octets.is_empty() {
            return Err(ParseError::Form);
        }
        check_parts(octets, 2)
    }
}

impl<'a> ListItems<'a> for TlsSupportedGroupsType {
    type Item = u16;

    ghost Seen = { ℕ };

    ghost seen = { λ group. group };

    ghost items = { numbers };

    ghost listed = { values.TlsSupportedGroups };

    ghost text = { decimal };

    ghost no_items = { refl };

    ghost lists = { λ octets. refl };

    ghost prints = { λ groups. refl };

    fn split(octets: &'a [u8]) -> (u16, &'a [u8]) {
        split_number(octets)
    }

    fn write_item<W: fmt::Write>(group: u16, f: &mut fmt::Formatter<W>) -> fmt::Result {
        write!(f, "{group}")
    }
}
