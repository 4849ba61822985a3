//! Names in a message.

ghost use Rattle.std.specs.Prelude.{◌≡◌, ◌+◌, ◌≤◌, false, length, IfOk, OnOk, OnErr};
ghost use Rattle.name_spec.specs.Names.{name_wire, AreLabels};
ghost use Rattle.wire_base.specs.Faults.{Gives};
ghost use Rattle.wire_base.specs.Moving.{AppendsOctets, LacksRoom};
ghost use Rattle.wire_base.specs.NameView.{next_name, is_next_pointed};

use crate::errors::{NoMemory, ParseError};
use crate::label_iter::LabelIter;
use crate::name_parts::span_at;
use crate::octets::Octets;
use crate::owned_name::Name;
use crate::parser::Parser;
use std::alloc::Global;
use std::fmt;
use std::marker::Model;

/// A name in a message, whose labels are read through its pointers (RFC 1035, section 4.1.4). Contracts see its labels
/// without the root, and whether it is compressed.
#[derive(Drop)]
pub struct ParsedName<'a> {
    message: &'a [u8],
    end: usize,
    start: usize,
    len: u16,
    is_compressed: bool,
}

impl<'a> Model for ParsedName<'a> {
    ghost use Rattle.name_spec.specs.Names.{name_at};
    ghost use Rattle.wire_base.specs.NameView.{NameView, IsName, labels_of};

    ghost Value = { NameView };

    ghost view = { λ name. record {
      labels = labels_of (name_at name.message.now name.end name.start 0 0);
      is_compressed = name.is_compressed;
    } };

    ghost invariant = { λ name. IsName name.message.now name.end name.start name.len };
}

impl fmt::Debug for ParsedName<'_> {
    fn fmt<W: fmt::Write>(&self, f: &mut fmt::Formatter<W>) -> fmt::Result {
        f.debug_struct("ParsedName")
            .field("labels", &self.labels())
            .field("is_compressed", &self.is_compressed)
            .finish()
    }
}

impl<'a> ParsedName<'a> {
    /// Reads the name at the parser's place and goes behind its own octets, which end after the first pointer or the
    /// root. It allocates nothing, so it never fails with `NoMemory`.
    ///
    /// `ShortInput`: the data ends within a length, a label or a pointer, or before the root. `Form`: a length octet of
    /// 64 to 191, a name of more than 255 octets uncompressed, a pointer that doesn't go to an earlier place than its
    /// own, or a 256th pointer. The first of these along the name decides. The parser is then unchanged.
    #[tactic(auto, using(crate::proofs::OwnedNames::labels_read))]
    pub fn parse(parser: &mut Parser<'a>) -> Result<ParsedName<'a>, ParseError>
        ensures name { Gives (λ name. record { labels = name.labels; next = parser.new.pos })
            result (next_name parser.old) }
        ensures labels { IfOk result (λ name. AreLabels 0 name.labels) }
        ensures pointed { IfOk result (λ name. name.is_compressed ≡ is_next_pointed parser.old) }
        ensures plain { IfOk result (λ name. name.is_compressed ≡ false
            → parser.old.pos + length (name_wire name.labels) ≡ parser.new.pos) }
        ensures ok { OnOk result (parser.new ≡ record parser.old { pos = parser.new.pos }) }
        ensures err { OnErr result (parser.new ≡ parser.old) }
    {
        let message = parser.message();
        let end = parser.end();
        let start = parser.pos();
        let span = span_at(message, end, start)?;
        parser.seek(span.next)?;
        Ok(ParsedName {
            message,
            end,
            start,
            len: span.len,
            is_compressed: span.is_compressed,
        })
    }

    /// Whether a pointer was followed to read the name, so whether it was compressed on the wire.
    ///
    /// RFC 9460, section 2.2, forbids that for the target of SVCB and HTTPS data. Such a target is read all the same,
    /// as robust readers do, and this call is how a reader tells.
    pub fn is_compressed(&self) -> bool
        ensures { result ≡ self.now.is_compressed }
    {
        self.is_compressed
    }

    /// The labels from the first to the last, without the root.
    pub fn labels(&self) -> LabelIter<'a>
        ensures { result ≡ self.now.labels }
    {
        LabelIter::new(self.message, self.end, self.start)
    }

    /// The count of octets that the name has uncompressed.
    pub fn compose_len(&self) -> u16
        ensures len { result ≡ length (name_wire self.now.labels) }
        ensures fits { result ≤ 255 }
    {
        self.len
    }

    /// Appends the uncompressed octets.
    ///
    /// `NoMemory`: the target has no room for them and can't grow; its octets are unchanged.
    pub fn compose(&self, target: &mut Vec<u8>) -> Result<(), NoMemory>
        ensures appends { AppendsOctets target.old.items target.new.items
            (name_wire self.now.labels) result }
        ensures full { OnErr result (LacksRoom target.old (length (name_wire self.now.labels))) }
    {
        target.reserve(usize::from(self.len))?;
        for label in self.labels() {
            target.push(label.len() as u8).unwrap();
            target.extend_from_slice(label).unwrap();
        }
        target.push(0).unwrap();
        Ok(())
    }

    /// The name by itself, uncompressed, its labels in the same case.
    ///
    /// `NoMemory`: an allocation failed.
    #[tactic(auto, using(crate::proofs::OwnedNames::copy_rules))]
    pub fn to_name(&self, alloc: Global) -> Result<Name, NoMemory>
        ensures { IfOk result (λ name. name ≡ self.now.labels) }
    {
        let mut octets = Vec::with_capacity(alloc, usize::from(self.len))?;
        self.compose(&mut octets)?;
        Ok(Name::from_wire(Octets::from_vec(octets)))
    }
}
