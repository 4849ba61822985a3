//! The items of a list, one after another.

ghost use Rattle.std.specs.Prelude.{◌≡◌, true, ⊤};
ghost use Rattle.std.specs.Iterator.{YieldsFirstBy, item_count};

use crate::list_type::{ListItems, ListType};
use std::alloc::AllocError;
use std::fmt;
use std::marker::{Model, PhantomData};

/// The items of a list in order. Each is read from the value's octets when it is asked for; no memory is taken.
///
/// Contracts see the octets of the items that are left. Count the items by `saturating_add` in a loop, since `count()`
/// requires a bound of its caller.
#[derive(Drop)]
pub struct ItemIter<'a, T: ListType> {
    rest: &'a [u8],
    kind: PhantomData<T>,
}

impl<'a, T: ListType> Model for ItemIter<'a, T> {
    ghost use Rattle.std.specs.Prelude.{◌≡◌, List, ℕ, true};

    ghost Value = { List ℕ };

    ghost view = { λ i. i.rest.now };

    ghost invariant = { λ i. T.whole i.rest.now ≡ true };
}

impl<'a, T: ListType> ItemIter<'a, T> {
    /// The items in octets that are whole items.
    pub(crate) fn new(octets: &'a [u8]) -> ItemIter<'a, T>
        requires { T.whole octets.now ≡ true }
        ensures { result ≡ octets.now }
    {
        ItemIter {
            rest: octets,
            kind: PhantomData,
        }
    }
}

impl<'a, T: ListItems<'a>> Iterator for ItemIter<'a, T> {
    type Item = T::Item;

    ghost next_gives = { YieldsFirstBy T.seen (λ octets. T.items octets) };

    ghost remaining = { item_count (λ octets. T.items octets) };

    fn next(&mut self) -> Option<T::Item> {
        if self.rest.is_empty() {
            return None;
        }
        let (item, rest) = T::split(self.rest);
        self.rest = rest;
        Some(item)
    }

    fn size_hint(&self) -> (usize, Option<usize>) {
        (0, None)
    }
}

/// The name of the value, and the octets of the items that are left.
impl<'a, T: ListType> fmt::Debug for ItemIter<'a, T> {
    fn fmt<W: fmt::Write>(&self, f: &mut fmt::Formatter<W>) -> fmt::Result {
        f.debug_tuple(T::NAME).field(&self.rest).finish()
    }
}

/// The same items are left.
impl<'a, T: ListType> Clone for ItemIter<'a, T> {
    ghost is_clone = { λ iter copy. copy ≡ iter };

    ghost is_infallible = { λ _. ⊤ };

    fn clone(&self) -> Result<ItemIter<'a, T>, AllocError> {
        Ok(ItemIter {
            rest: self.rest,
            kind: PhantomData,
        })
    }
}
