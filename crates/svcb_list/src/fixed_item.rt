//! The octets of items of one length.

ghost use Rattle.std.specs.Prelude.{◌≡◌, ◌*◌, ◌<◌, ◌≤◌, ℕ, List, ◌++◌, length, IfOk, OnOk};
ghost use Rattle.std.specs.List.{flat_map, AllByRecursion};
ghost use Rattle.name_spec.specs.Octets.{be2};
ghost use Rattle.svcb_spec.specs.BuildingValues.{IsBuilt};
ghost use Rattle.svcb_list.specs.Building.{AreItems};

use registry::{BuildValueError, IanaNumber, Integer, LongSvcParam, SvcParamKey};
use std::alloc::Global;
use wire_base::{Address, NoMemory, Octets};

/// An item of a list whose items all have one length in octets.
pub(crate) trait FixedItem: Copy {
    /// The count of octets of each item.
    ghost LEN: { ℕ };

    /// An item's octets.
    ghost octets: { Self → List ℕ };

    /// The count of octets of each item.
    const LEN: usize;

    /// Appends the item's octets. Fails only with `NoMemory`.
    fn append(self, target: &mut Vec<u8>) -> Result<(), NoMemory>
        ensures ok { OnOk result (target.new.items ≡ target.old.items ++ octets self) }
        ensures len { OnOk result (length (octets self) ≡ LEN) };
}

impl FixedItem for u16 {
    ghost LEN = { 2 };

    ghost octets = { be2 };

    const LEN: usize = 2;

    fn append(self, target: &mut Vec<u8>) -> Result<(), NoMemory> {
        self.compose(target)
    }
}

impl FixedItem for SvcParamKey {
    ghost LEN = { 2 };

    ghost octets = { be2 };

    const LEN: usize = 2;

    fn append(self, target: &mut Vec<u8>) -> Result<(), NoMemory> {
        IanaNumber::compose(&self, target)
    }
}

impl<const N: usize> FixedItem for Address<N> {
    ghost LEN = { N };

    ghost octets = { λ address. address };

    const LEN: usize = N;

    fn append(self, target: &mut Vec<u8>) -> Result<(), NoMemory> {
        target.extend_from_slice(&self.octets())?;
        Ok(())
    }
}

/// The octets of items in order.
///
/// `LongSvcParam`: there would be more than 65,535. `NoMemory`: allocation failed.
pub(crate) fn compose_items<I: FixedItem>(
    alloc: Global,
    items: &[I],
) -> Result<Octets, BuildValueError>
    requires { 0 < I.LEN }
    ensures items { IfOk result (λ octets. AreItems I.octets I.LEN items.now octets) }
    ensures answer { IsBuilt result (length items.now * I.LEN) }
{
    if items.len() > LongSvcParam::MAX_LEN / I::LEN {
        return Err(BuildValueError::LongSvcParam);
    }
    let octets = append_items(alloc, items)?;
    Ok(Octets::from_vec(octets))
}

/// The octets of items in order. Room for all is made once.
fn append_items<I: FixedItem>(alloc: Global, items: &[I]) -> Result<Vec<u8>, NoMemory>
    requires { length items.now * I.LEN ≤ 65535 }
    ensures joined { IfOk result (λ octets. octets.items ≡ flat_map I.octets items.now) }
    ensures each { OnOk result (AllByRecursion (λ item. length (I.octets item) ≡ I.LEN) items.now) }
{
    let mut octets = Vec::with_capacity(alloc, items.len() * I::LEN)?;
    for item in items {
        item.append(&mut octets)?;
    }
    Ok(octets)
}
