//! Lists of items as octets, owned and as views.

ghost use Rattle.std.specs.Prelude.{◌≡◌, ◌+◌, ◌<◌, ◌==◌, length, IfOk, ⊤};
ghost use Rattle.wire_base.specs.Faults.{Gives, GivesCopy};
ghost use Rattle.wire_base.specs.Input.{octets_left};
ghost use Rattle.wire_base.specs.Moving.{TakesAll};
ghost use Rattle.svcb_spec.specs.Values as values;
ghost use Rattle.svcb_spec.specs.Values.{encode, IsValue};
ghost use Rattle.svcb_spec.specs.ReadingValues.{taking_all, whole_value};
ghost use Rattle.svcb_list.specs.Reading.{HoldsValue};

use crate::item_iter::ItemIter;
use crate::list_type::ListType;
use registry::{ComposeSvcParamValue, ParseSvcParamValue, SvcParamKey, SvcParamValue};
use std::alloc::{AllocError, Global};
use std::fmt;
use std::hash::{Hash, Hasher};
use std::marker::{Model, PhantomData};
use wire_base::{NoMemory, Octets, ParseError, Parser};

/// A value that is a list of items, kept as the octets of the value, at most 65,535.
///
/// The octets are tested once, when the value is made: they are whole items without a fault. So reading an item later
/// cannot fail. Equality compares the octets. Contracts see the value.
#[derive(Drop)]
#[derive_where(PartialEq, Eq, Hash)]
pub struct ItemList<T: ListType> {
    octets: Octets,
    #[derive_where(skip)]
    kind: PhantomData<T>,
}

impl<T: ListType> Model for ItemList<T> {
    ghost use Rattle.svcb_spec.specs.Values as values;
    ghost use Rattle.svcb_list.specs.Reading.{HoldsValue};

    ghost Value = { values.Value };

    ghost view = { λ list. T.value list.octets };

    ghost invariant = { λ list. HoldsValue T.value T.fault T.whole list.octets };

    ghost inverse = { λ value. record { octets = values.encode value; kind = record {} } };

    ghost inverse_ok = { λ list holds i. record { octets = holds.encodes i; kind = record {} } };
}

/// A view of a value that is a list of items, which borrows the octets. Equality compares the octets.
#[derive_where(PartialEq, Eq, Hash)]
pub struct ItemListRef<'a, T: ListType> {
    /// The octets, at most 65,535.
    pub slice: &'a [u8],
    #[derive_where(skip)]
    kind: PhantomData<T>,
    pub ghost holds: { HoldsValue T.value T.fault T.whole slice.now },
}

impl<T: ListType> ItemList<T> {
    /// The value of octets that are known to have no fault.
    pub(crate) fn from_checked_octets(octets: Octets) -> ItemList<T>
        requires { HoldsValue T.value T.fault T.whole octets }
        ensures { result ≡ T.value octets }
    {
        ItemList {
            octets,
            kind: PhantomData,
        }
    }

    /// The value that octets are.
    ///
    /// `Form`, `ShortInput`: the octets have a fault, and [`ListType::check`] says which. They are then dropped.
    pub fn from_octets(octets: Octets) -> Result<ItemList<T>, ParseError>
        ensures answer { Gives (taking_all octets) result (whole_value T.fault T.value octets) }
        ensures value { IfOk result (λ list. list ≡ T.value octets) }
        ensures encodes { IfOk result (λ list. encode list ≡ octets) }
    {
        T::check(octets.as_slice())?;
        Ok(ItemList {
            octets,
            kind: PhantomData,
        })
    }

    /// The value that all octets before the end of the data are.
    ///
    /// `Form`, `ShortInput`: the octets have a fault, and [`ListType::check`] says which. `NoMemory`: allocation
    /// failed. The parser is then unchanged.
    pub fn parse(alloc: Global, parser: &mut Parser<'_>) -> Result<ItemList<T>, ParseError>
        ensures answer { GivesCopy (taking_all (octets_left parser.old)) result
            (whole_value T.fault T.value (octets_left parser.old)) }
        ensures value { IfOk result (λ list. list ≡ T.value (octets_left parser.old)) }
        ensures encodes { IfOk result (λ list. encode list ≡ octets_left parser.old) }
        ensures takes { TakesAll parser.old parser.new result }
    {
        let view: ItemListRef<'_, T> = ItemListRef::from_slice(parser.remaining_octets())?;
        let list = view.to_owned_data(alloc)?;
        parser.advance_to_end();
        Ok(list)
    }

    /// The octets.
    pub fn as_octets(&self) -> &Octets
        ensures octets { result.now ≡ encode self.now }
        ensures fits { length result.now < 65536 }
    {
        &self.octets
    }

    /// The octets.
    pub fn as_slice(&self) -> &[u8]
        ensures octets { result.now ≡ encode self.now }
        ensures value { T.value result.now ≡ self.now }
        ensures fits { length result.now < 65536 }
    {
        self.octets.as_slice()
    }

    /// A view of the same value.
    pub fn for_ref(&self) -> ItemListRef<'_, T>
        ensures value { T.value result.slice.now ≡ self.now }
        ensures octets { result.slice.now ≡ encode self.now }
    {
        ItemListRef {
            slice: self.octets.as_slice(),
            kind: PhantomData,
        }
    }

    /// A copy. Fails only with `NoMemory`.
    pub fn try_clone(&self, alloc: Global) -> Result<ItemList<T>, NoMemory>
        ensures { IfOk result (λ list. list ≡ self.now) }
    {
        self.for_ref().to_owned_data(alloc)
    }

    /// The items in order.
    pub fn iter(&self) -> ItemIter<'_, T>
        ensures { T.value result ≡ self.now }
    {
        ItemIter::new(self.octets.as_slice())
    }
}

impl<'a, T: ListType> ItemListRef<'a, T> {
    /// A view of the value that octets are.
    ///
    /// `Form`, `ShortInput`: the octets have a fault, and [`ListType::check`] says which. Never `NoMemory`.
    pub fn from_slice(slice: &'a [u8]) -> Result<ItemListRef<'a, T>, ParseError>
        ensures answer { Gives (λ view. taking_all slice.now (T.value view.slice.now)) result
            (whole_value T.fault T.value slice.now) }
        ensures octets { IfOk result (λ view. view.slice.now ≡ slice.now) }
    {
        T::check(slice)?;
        Ok(ItemListRef {
            slice,
            kind: PhantomData,
        })
    }

    /// A view of the value that all octets before the end of the data are.
    ///
    /// `Form`, `ShortInput`: the octets have a fault, and [`ListType::check`] says which. Never `NoMemory`. The parser
    /// is then unchanged.
    pub fn parse(parser: &mut Parser<'a>) -> Result<ItemListRef<'a, T>, ParseError>
        ensures answer { Gives (λ view. taking_all (octets_left parser.old) (T.value view.slice.now)) result
            (whole_value T.fault T.value (octets_left parser.old)) }
        ensures octets { IfOk result (λ view. view.slice.now ≡ octets_left parser.old) }
        ensures takes { TakesAll parser.old parser.new result }
        ensures len { parser.old.pos + length (octets_left parser.old) ≡ parser.old.end }
    {
        let view = ItemListRef::from_slice(parser.remaining_octets())?;
        parser.advance_to_end();
        Ok(view)
    }

    /// The octets.
    pub fn as_slice(&self) -> &'a [u8]
        ensures octets { result.now ≡ self.now.slice.now }
        ensures encodes { encode (T.value result.now) ≡ result.now }
        ensures fits { length result.now < 65536 }
    {
        self.slice
    }

    /// An owned copy. Fails only with `NoMemory`.
    pub fn to_owned_data(&self, alloc: Global) -> Result<ItemList<T>, NoMemory>
        ensures value { IfOk result (λ list. list ≡ T.value self.now.slice.now) }
        ensures encodes { IfOk result (λ list. encode list ≡ self.now.slice.now) }
    {
        Ok(ItemList {
            octets: Octets::from_slice(alloc, self.slice)?,
            kind: PhantomData,
        })
    }

    /// The items in order.
    pub fn iter(&self) -> ItemIter<'a, T>
        ensures { result ≡ self.now.slice.now }
    {
        ItemIter::new(self.slice)
    }
}

impl<'a, T: ListType> Copy for ItemListRef<'a, T> {}

impl<'a, T: ListType> Clone for ItemListRef<'a, T> {
    ghost is_clone = { λ view copy. copy ≡ view };

    ghost is_infallible = { λ _. ⊤ };

    fn clone(&self) -> Result<ItemListRef<'a, T>, AllocError> {
        Ok(*self)
    }
}

/// The name of the value, and its octets.
impl<T: ListType> fmt::Debug for ItemList<T> {
    fn fmt<W: fmt::Write>(&self, f: &mut fmt::Formatter<W>) -> fmt::Result {
        f.debug_tuple(T::NAME).field(&self.as_slice()).finish()
    }
}

/// The name of the value, and its octets.
impl<'a, T: ListType> fmt::Debug for ItemListRef<'a, T> {
    fn fmt<W: fmt::Write>(&self, f: &mut fmt::Formatter<W>) -> fmt::Result {
        f.debug_tuple(T::NAME).field(&self.slice).finish()
    }
}

impl<T: ListType> SvcParamValue for ItemList<T> {
    ghost key_of = { values.key_of };

    fn key(&self) -> SvcParamKey {
        self.for_ref().key()
    }
}

impl<T: ListType> ComposeSvcParamValue for ItemList<T> {
    ghost octets = { encode };

    fn compose_len(&self) -> u16
        ensures len { result ≡ length (encode self.now) }
        ensures value { IsValue self.now }
    {
        let octets = self.octets.as_slice();
        octets.len() as u16
    }

    fn compose_value(&self, target: &mut Vec<u8>) -> Result<(), NoMemory> {
        target.extend_from_slice(self.as_slice())?;
        Ok(())
    }
}

impl<'a, T: ListType> SvcParamValue for ItemListRef<'a, T> {
    ghost key_of = { λ _. T.key };

    fn key(&self) -> SvcParamKey {
        T::key()
    }
}

impl<'a, T: ListType> ParseSvcParamValue<'a> for ItemListRef<'a, T> {
    ghost Seen = { values.Value };

    ghost seen = { λ view. T.value view.slice.now };

    ghost takes = { λ key. key == T.key };

    ghost reads = { λ _. whole_value T.fault T.value };

    fn parse_value(
        key: SvcParamKey,
        parser: &mut Parser<'a>,
    ) -> Result<Option<ItemListRef<'a, T>>, ParseError> {
        if key != T::key() {
            return Ok(None);
        }
        let view = ItemListRef::from_slice(parser.remaining_octets())?;
        parser.advance_to_end();
        Ok(Some(view))
    }
}

impl<'a, T: ListType> ComposeSvcParamValue for ItemListRef<'a, T> {
    ghost octets = { λ view. view.slice.now };

    fn compose_len(&self) -> u16
        ensures len { result ≡ length self.now.slice.now }
        ensures value { IsValue (T.value self.now.slice.now) }
    {
        let octets = self.as_slice();
        octets.len() as u16
    }

    fn compose_value(&self, target: &mut Vec<u8>) -> Result<(), NoMemory> {
        target.extend_from_slice(self.slice)?;
        Ok(())
    }
}
