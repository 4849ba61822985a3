//! The items in the text of a value, one after another.

ghost use Rattle.std.specs.Prelude.{◌≡◌, ◌<◌, option_map, IsSome, IfOk, OnOk, OnErr};
ghost use Rattle.svcb_spec.specs.ListTexts.{comma_items, left_len};
ghost use Rattle.text_spec.specs.Scanning.{Answers};
ghost use Rattle.svcb_text.specs.Items.{text_of_list, items_left, next_plain, other_items, next_read, item_read, text_behind, seen_item};

use crate::item_texts::{check_plain, read_item, split_at_comma};
use std::alloc::Global;
use std::marker::Model;
use text_spec::ScanError;
use wire_base::Octets;

/// The items in the text of a value, between its commas (RFC 9460, appendix A.1).
///
/// A text without octets has no items; a comma at the end is followed by one more item, which is empty and refused.
/// Contracts see the text that is left, which is none behind the last item.
#[derive(Clone, Debug, Drop)]
pub struct SvcParamValueScanIter<'a> {
    left: Option<&'a [u8]>,
}

impl<'a> Model for SvcParamValueScanIter<'a> {
    ghost use Rattle.std.specs.Prelude.{List, ℕ, Option, option_map};

    ghost Value = { Option (List ℕ) };

    ghost view = { λ iter. option_map (λ text. text.now) iter.left };
}

impl<'a> SvcParamValueScanIter<'a> {
    /// The items in the octets of a text. No memory is taken.
    pub fn from_slice(octs: &'a [u8]) -> SvcParamValueScanIter<'a>
        ensures text { result ≡ text_of_list octs.now }
        ensures items { items_left result ≡ comma_items octs.now }
    {
        SvcParamValueScanIter {
            left: if octs.is_empty() { None } else { Some(octs) },
        }
    }

    /// The next item, in which nothing may be escaped. `None` exactly where no item is left. No memory is taken.
    ///
    /// `BadListEscape`: the item has a backslash. `EmptyItem`: it has no octets. The item is then still the next.
    pub fn next_no_escapes(&mut self) -> Result<Option<&'a [u8]>, ScanError>
        ensures item { seen_item result ≡ next_plain (items_left self.old) }
        ensures ok { OnOk result (items_left self.new ≡ other_items (items_left self.old)) }
        ensures err { OnErr result (self.new ≡ self.old) }
    {
        let Some(text) = self.left else {
            return Ok(None);
        };
        let (item, rest) = split_at_comma(text);
        check_plain(item)?;
        self.left = rest;
        Ok(Some(item))
    }

    /// The next item without its escapes. `None` exactly where no item is left.
    ///
    /// `BadListEscape`: a backslash is followed by neither a comma nor a backslash. `EmptyItem`: the item has no
    /// octets. `NoMemory`: allocation failed. The item is then still the next.
    ///
    /// Less is left behind each item, so a loop over the items ends.
    pub fn next_item(&mut self, alloc: Global) -> Result<Option<Octets>, ScanError>
        ensures item { Answers (λ item. item) result (item_read (next_read self.old)) }
        ensures ok { OnOk result (self.new ≡ text_behind (next_read self.old)) }
        ensures err { OnErr result (self.new ≡ self.old) }
        ensures ends { IfOk result (λ item. IsSome item → left_len self.new < left_len self.old) }
    {
        let Some(text) = self.left else {
            return Ok(None);
        };
        let (item, rest) = read_item(alloc, text)?;
        if item.is_empty() {
            return Err(ScanError::EmptyItem);
        }
        self.left = rest;
        Ok(Some(item))
    }
}
