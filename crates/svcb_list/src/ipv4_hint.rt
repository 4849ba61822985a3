//! IPv4 addresses at which the target may be reached (RFC 9460, section 7.3).

ghost use Rattle.std.specs.Prelude.{◌≡◌, ◌*◌, ◌<◌, ◌∷◌, ◌%◌, ◌==◌, Some, true, ℕ, List, length, refl, IfOk};
ghost use Rattle.svcb_spec.specs.Values as values;
ghost use Rattle.svcb_list.specs.Holding.{addresses_hold};
ghost use Rattle.svcb_spec.specs.BuildingValues.{IsBuilt};
ghost use Rattle.std.proofs.Common.{lit<};
ghost use Rattle.svcb_spec.specs.ReadingValues.{parts, parts_fault};
ghost use Rattle.name_spec.specs.Addresses.{ipv4_text};
ghost use Rattle.svcb_spec.specs.PrintedValues.{value_printed};

use crate::fixed_item::compose_items;
use crate::item_iter::ItemIter;
use crate::item_list::{ItemList, ItemListRef};
use crate::list_type::{ListItems, ListType};
use crate::parts::{check_parts, split_address};
use registry::{BuildValueError, SvcParamKey};
use std::alloc::Global;
use std::fmt;
use wire_base::{Ipv4Addr, ParseError};

/// The type of `ipv4hint` (RFC 9460, section 7.3), whose items are addresses of four octets each.
#[derive(Debug)]
pub struct Ipv4HintType;

/// The value of `ipv4hint`: IPv4 addresses at which the target may be reached, for use until its own are known.
pub type Ipv4Hint = ItemList<Ipv4HintType>;

/// A view of the value of `ipv4hint`, which borrows the octets.
pub type Ipv4HintRef<'a> = ItemListRef<'a, Ipv4HintType>;

/// The IPv4 addresses in order.
pub type Ipv4HintIter<'a> = ItemIter<'a, Ipv4HintType>;

impl Ipv4Hint {
    /// The value of a list of addresses.
    ///
    /// `LongSvcParam`: there are more than 16,383 addresses, which have over 65,535 octets. `NoMemory`: allocation
    /// failed.
    #[tactic(auto, using(crate::proofs::BuildLemmas::addresses_built))]
    pub fn from_addrs(alloc: Global, addrs: &[Ipv4Addr]) -> Result<Ipv4Hint, BuildValueError>
        ensures value { IfOk result (λ list. list ≡ values.Ipv4Hint addrs.now) }
        ensures answer { IsBuilt result (length addrs.now * 4) }
    {
        Ok(ItemList::from_checked_octets(compose_items(alloc, addrs)?))
    }
}

/// The text of a view of the value.
impl fmt::Display for Ipv4Hint {
    ghost output = { λ list. Some (value_printed list) };

    fn fmt<W: fmt::Write>(&self, f: &mut fmt::Formatter<W>) -> fmt::Result {
        write!(f, "{}", self.for_ref())
    }
}

impl ListType for Ipv4HintType {
    ghost key = { 4 };

    ghost value = { λ octets. values.Ipv4Hint (parts 4 octets) };

    ghost fault = { parts_fault 4 };

    ghost whole = { λ octets. length octets % 4 == 0 };

    ghost has_key = { λ octets. refl };

    ghost has_items = { λ octets small holds. addresses_hold 4 octets (lit< tt) holds.whole };

    const NAME: &'static str = "Ipv4Hint";

    fn key() -> SvcParamKey {
        SvcParamKey::IPV4HINT
    }

    #[tactic(auto, using(crate::proofs::PartLemmas::parts_encoded))]
    fn check(octets: &[u8]) -> Result<(), ParseError> {
        check_parts(octets, 4)
    }
}

impl<'a> ListItems<'a> for Ipv4HintType {
    type Item = Ipv4Addr;

    ghost Seen = { List ℕ };

    ghost seen = { λ address. address };

    ghost items = { parts 4 };

    ghost listed = { values.Ipv4Hint };

    ghost text = { ipv4_text };

    ghost no_items = { refl };

    ghost lists = { λ octets. refl };

    ghost prints = { λ addresses. refl };

    fn split(octets: &'a [u8]) -> (Ipv4Addr, &'a [u8]) {
        split_address(octets)
    }

    fn write_item<W: fmt::Write>(address: Ipv4Addr, f: &mut fmt::Formatter<W>) -> fmt::Result {
        write!(f, "{address}")
    }
}
