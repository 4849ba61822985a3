//! What tells the lists of items apart.

ghost use Rattle.std.specs.Prelude.{◌≡◌, ◌<◌, ◌∷◌, ℕ, List, [], Bool, true, Option, length, map, slice_index, OnOk};
ghost use Rattle.std.specs.Fmt.{WritesOnOk};
ghost use Rattle.wire_base.specs.Faults.{Gives};
ghost use Rattle.name_spec.specs.Octets.{Fault};
ghost use Rattle.svcb_spec.specs.Values.{Value, HasItems, key_of};
ghost use Rattle.svcb_spec.specs.ReadingValues.{taking_all, whole_value};
ghost use Rattle.svcb_spec.specs.PrintedValues.{value_printed, key_name, with_items};
ghost use Rattle.svcb_list.specs.Reading.{HoldsValue};

use registry::SvcParamKey;
use std::fmt;
use wire_base::ParseError;

/// A type of service parameter whose value is a list of items.
///
/// An implementor names the key and tests octets, and by [`ListItems`] reads and writes an item. [`ItemList`] and
/// [`ItemListRef`] do the rest: they read, copy, compose, iterate and print. The ghost members `has_key`, `has_items`,
/// `no_items`, `lists` and `prints` are the proofs that the value and its text are those that the other members say.
///
/// [`ItemList`]: crate::ItemList
/// [`ItemListRef`]: crate::ItemListRef
pub trait ListType {
    /// The parameter's key.
    ghost key: { ℕ };

    /// The value that octets without a fault are.
    ghost value: { List ℕ → Value };

    /// The first fault of octets that are to be a value.
    ghost fault: { List ℕ → Option Fault };

    /// Whether octets are whole items.
    ghost whole: { List ℕ → Bool };

    /// What `Debug` calls a value.
    const NAME: &'static str;

    /// The parameter's key.
    fn key() -> SvcParamKey
        ensures { result ≡ key };

    /// Tests octets that are to be a value.
    ///
    /// `Form`: they are more than 65,535, their count is no multiple of an item's length, or there are none where the
    /// type must have an item. `ShortInput`: the last item, which says its own length, is cut off. Never `NoMemory`.
    fn check(octets: &[u8]) -> Result<(), ParseError>
        ensures answer { Gives (λ _. taking_all octets.now (value octets.now)) result
            (whole_value fault value octets.now) }
        ensures holds { OnOk result (HoldsValue value fault whole octets.now) };

    /// Each value has the key.
    ghost has_key: { (octets : List ℕ) → key_of (value octets) ≡ key };

    /// Octets that are a value have items of its type.
    ghost has_items: { (octets : List ℕ) → ((i : ℕ) → slice_index octets i < 256)
        → HoldsValue value fault whole octets → HasItems (value octets) };
}

/// The items of a list type, which may borrow the value's octets.
pub trait ListItems<'a>: ListType {
    /// An item.
    type Item: Drop;

    /// What contracts see of an item.
    ghost Seen: { Type 0 };

    /// An item, as contracts see it.
    ghost seen: { Self.Item → Seen };

    /// The items in octets.
    ghost items: { List ℕ → List Seen };

    /// The value of a list of items.
    ghost listed: { List Seen → Value };

    /// The text of an item.
    ghost text: { Seen → List ℕ };

    /// The first item, and the octets behind it.
    fn split(octets: &'a [u8]) -> (Self::Item, &'a [u8])
        requires not_empty { 0 < length octets.now }
        requires whole { Self.whole octets.now ≡ true }
        ensures items { items octets.now ≡ seen result.0 ∷ items result.1.now }
        ensures whole { Self.whole result.1.now ≡ true }
        ensures shorter { length result.1.now < length octets.now };

    /// Writes the text of an item. Fails only where `f` does.
    fn write_item<W: fmt::Write>(item: Self::Item, f: &mut fmt::Formatter<W>) -> fmt::Result
        ensures { WritesOnOk W.Write.write_str_gives f.old result (text (seen item)) f.new };

    /// No octets are no items.
    ghost no_items: { items [] ≡ [] };

    /// The value that octets are is that of their items.
    ghost lists: { (octets : List ℕ) → Self.value octets ≡ listed (items octets) };

    /// A value is printed as its key and its items with commas between them, and as nothing where there is none.
    ghost prints: { (xs : List Seen)
        → value_printed (listed xs) ≡ with_items (key_name Self.key) (map text xs) };
}
