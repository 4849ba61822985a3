//! The records of an owner and a type.

ghost use Rattle.std.specs.Prelude.{◌≡◌, ◌==◌, ◌&&◌};
ghost use Rattle.std.specs.Iterator.{YieldsFirstBy, item_count};
ghost use Rattle.name_spec.specs.OwnedNames.{is_same_name};
ghost use Rattle.wire_base.specs.Faults.{value_item};
ghost use Rattle.dns_message.specs.Searching.{is_of, found_records};

use crate::entries::Records;
use crate::record::ParsedRecord;
use std::marker::Model;
use wire_base::{LabelIter, Name, ParseError, ParsedName, Rtype};

/// Whether a name has these labels, ASCII case ignored (RFC 4343, section 3).
fn is_name(name: &ParsedName<'_>, owner: &LabelIter<'_>) -> bool
    ensures { result ≡ is_same_name name.now.labels owner.now }
{
    let mut labels = name.labels();
    let mut others = owner.clone().unwrap();
    while let Some(label) = labels.next() {
        match others.next() {
            Some(other) if label.eq_ignore_ascii_case(other) => {}
            _ => return false,
        }
    }
    others.next().is_none()
}

/// Whether a record is of an owner with these labels and of a type.
pub(crate) fn is_of(found: &ParsedRecord<'_>, owner: &LabelIter<'_>, rtype: Rtype) -> bool
    ensures { result ≡ is_of owner.now rtype found.now }
{
    found.rtype() == rtype && is_name(found.owner(), owner)
}

/// The records of one owner and type among those of a section, in order, and the first fault of a record; behind it
/// there is nothing. Contracts see what is looked for, and the records that are left.
#[derive(Drop)]
pub struct FoundRecords<'a, 'n> {
    records: Records<'a>,
    owner: &'n Name,
    rtype: Rtype,
}

impl<'a, 'n> Model for FoundRecords<'a, 'n> {
    ghost use Rattle.dns_message.specs.Searching.{Search};

    ghost Value = { Search };

    ghost view = { λ found. record {
      owner = found.owner.now;
      rtype = found.rtype;
      section = found.records;
    } };
}

impl<'a, 'n> FoundRecords<'a, 'n> {
    /// The records of an owner and a type in a section.
    pub(crate) fn new(records: Records<'a>, owner: &'n Name, rtype: Rtype) -> FoundRecords<'a, 'n>
        ensures { result ≡ record { owner = owner.now; rtype = rtype; section = records.entry } }
    {
        FoundRecords {
            records,
            owner,
            rtype,
        }
    }
}

impl<'a, 'n> Iterator for FoundRecords<'a, 'n> {
    type Item = Result<ParsedRecord<'a>, ParseError>;

    ghost next_gives = { YieldsFirstBy (value_item (λ found. found)) found_records };

    ghost remaining = { item_count found_records };

    fn next(&mut self) -> Option<Result<ParsedRecord<'a>, ParseError>> {
        while let Some(item) = self.records.next() {
            match &item {
                Ok(found) if !is_of(found, &self.owner.labels(), self.rtype) => {}
                _ => return Some(item),
            }
        }
        None
    }
}
