//! IPv6 addresses at which the target may be reached (RFC 9460, section 7.3).

ghost use Rattle.std.specs.Prelude.{◌≡◌, ◌*◌, ◌<◌, ◌∷◌, ◌%◌, ◌==◌, Some, true, ℕ, List, length, refl, IfOk};
ghost use Rattle.svcb_spec.specs.Values as values;
ghost use Rattle.svcb_list.specs.Holding.{addresses_hold};
ghost use Rattle.svcb_spec.specs.BuildingValues.{IsBuilt};
ghost use Rattle.std.proofs.Common.{lit<};
ghost use Rattle.svcb_spec.specs.ReadingValues.{parts, parts_fault};
ghost use Rattle.name_spec.specs.Addresses.{ipv6_text};
ghost use Rattle.svcb_spec.specs.PrintedValues.{value_printed};

use crate::fixed_item::compose_items;
use crate::item_iter::ItemIter;
use crate::item_list::{ItemList, ItemListRef};
use crate::list_type::{ListItems, ListType};
use crate::parts::{check_parts, split_address};
use registry::{BuildValueError, SvcParamKey};
use std::alloc::Global;
use std::fmt;
use wire_base::{Ipv6Addr, ParseError};

/// The type of `ipv6hint` (RFC 9460, section 7.3), whose items are addresses of 16 octets each.
#[derive(Debug)]
pub struct Ipv6HintType;

/// The value of `ipv6hint`: IPv6 addresses at which the target may be reached, for use until its own are known.
pub type Ipv6Hint = ItemList<Ipv6HintType>;

/// A view of the value of `ipv6hint`, which borrows the octets.
pub type Ipv6HintRef<'a> = ItemListRef<'a, Ipv6HintType>;

/// The IPv6 addresses in order.
pub type Ipv6HintIter<'a> = ItemIter<'a, Ipv6HintType>;

impl Ipv6Hint {
    /// The value of a list of addresses.
    ///
    /// `LongSvcParam`: there are more than 4,095 addresses, which have over 65,535 octets. `NoMemory`: allocation
    /// failed.
    #[tactic(auto, using(crate::proofs::BuildLemmas::addresses_built))]
    pub fn from_addrs(alloc: Global, addrs: &[Ipv6Addr]) -> Result<Ipv6Hint, BuildValueError>
        ensures value { IfOk result (λ list. list ≡ values.Ipv6Hint addrs.now) }
        ensures answer { IsBuilt result (length addrs.now * 16) }
    {
        Ok(ItemList::from_checked_octets(compose_items(alloc, addrs)?))
    }
}

/// The text of a view of the value.
impl fmt::Display for Ipv6Hint {
    ghost output = { λ list. Some (value_printed list) };

    fn fmt<W: fmt::Write>(&self, f: &mut fmt::Formatter<W>) -> fmt::Result {
        write!(f, "{}", self.for_ref())
    }
}

impl ListType for Ipv6HintType {
    ghost key = { 6 };

    ghost value = { λ octets. values.Ipv6Hint (parts 16 octets) };

    ghost fault = { parts_fault 16 };

    ghost whole = { λ octets. length octets % 16 == 0 };

    ghost has_key = { λ octets. refl };

    ghost has_items = { λ octets small holds. addresses_hold 16 octets (lit< tt) holds.whole };

    const NAME: &'static str = "Ipv6Hint";

    fn key() -> SvcParamKey {
        SvcParamKey::IPV6HINT
    }

    #[tactic(auto, using(crate::proofs::PartLemmas::parts_encoded))]
    fn check(octets: &[u8]) -> Result<(), ParseError> {
        check_parts(octets, 16)
    }
}

impl<'a> ListItems<'a> for Ipv6HintType {
    type Item = Ipv6Addr;

    ghost Seen = { List ℕ };

    ghost seen = { λ address. address };

    ghost items = { parts 16 };

    ghost listed = { values.Ipv6Hint };

    ghost text = { ipv6_text };

    ghost no_items = { refl };

    ghost lists = { λ octets. refl };

    ghost prints = { λ addresses. refl };

    fn split(octets: &'a [u8]) -> (Ipv6Addr, &'a [u8]) {
        split_address(octets)
    }

    fn write_item<W: fmt::Write>(address: Ipv6Addr, f: &mut fmt::Formatter<W>) -> fmt::Result {
        write!(f, "{address}")
    }
}
