//! The labels of a name in a message.

ghost use Rattle.std.specs.Prelude.{◌≡◌};
ghost use Rattle.std.specs.Iterator.{YieldsFirstRef, item_count};
ghost use Rattle.name_spec.specs.Names.{name_at};
ghost use Rattle.wire_base.specs.NameView.{IsPlace, labels_of};

use crate::name_parts::{Part, part_at};
use std::fmt;
use std::marker::Model;

/// The labels of a name from the first to the last, without the root. Each stays where it is in the message.
#[derive(Clone, Drop)]
pub struct LabelIter<'a> {
    message: &'a [u8],
    end: usize,
    pos: usize,
    octets: usize,
    pointers: usize,
}

impl<'a> Model for LabelIter<'a> {
    ghost use Rattle.std.specs.Prelude.{List, ℕ};
    ghost use Rattle.name_spec.specs.Names.{name_at};
    ghost use Rattle.wire_base.specs.NameView.{IsPlace, labels_of};

    ghost Value = { List (List ℕ) };

    ghost view = { λ left. labels_of
        (name_at left.message.now left.end left.pos left.octets left.pointers) };

    ghost invariant = { λ left. IsPlace
        left.message.now left.end left.pos left.octets left.pointers };
}

impl<'a> LabelIter<'a> {
    /// The labels of the name at a place, where a name can be read.
    pub(crate) fn new(message: &'a [u8], end: usize, start: usize) -> LabelIter<'a>
        requires { IsPlace message.now end start 0 0 }
        ensures { result ≡ labels_of (name_at message.now end start 0 0) }
    {
        LabelIter {
            message,
            end,
            pos: start,
            octets: 0,
            pointers: 0,
        }
    }
}

/// Each label that is left, with a dot behind it; octets that aren't printable ASCII are escaped.
impl fmt::Debug for LabelIter<'_> {
    fn fmt<W: fmt::Write>(&self, f: &mut fmt::Formatter<W>) -> fmt::Result {
        for label in self.clone().unwrap() {
            write!(f, "{}.", label.escape_ascii())?;
        }
        Ok(())
    }
}

impl<'a> Iterator for LabelIter<'a> {
    type Item = &'a [u8];

    ghost next_gives = { YieldsFirstRef (λ labels. labels) };

    ghost remaining = { item_count (λ labels. labels) };

    fn next(&mut self) -> Option<&'a [u8]> {
        loop {
            match part_at(self.message, self.end, self.pos, self.octets, self.pointers) {
                Ok(Part::Label(len)) => {
                    let start = self.pos + 1;
                    self.pos = start + len;
                    self.octets += len + 1;
                    return Some(&self.message[start..start + len]);
                }
                Ok(Part::Pointer(target)) => {
                    self.pos = target;
                    self.pointers += 1;
                }
                // The name was read before, so nothing is refused.
                Ok(Part::Root) | Err(_) => return None,
            }
        }
    }
}
