//! The entries of a section of a message.

ghost use Rattle.std.specs.Prelude.{◌≡◌, ℕ, OnErr};
ghost use Rattle.std.specs.Iterator.{YieldsFirstBy, item_count};
ghost use Rattle.wire_base.specs.Faults.{Gives, value_item};
ghost use Rattle.dns_message.specs.Entries.{ReadsEntry, behind_entries, section_entries};

use crate::question::Question;
use crate::record::ParsedRecord;
use std::marker::{Model, PhantomData};
use wire_base::{ParseError, Parser};

/// An entry of a message, which is read in place: a question or a record.
pub trait ParseEntry<'a>: Sized + Drop {
    /// What contracts see of an entry.
    ghost Seen: { Type 0 };

    /// An entry, as contracts see it.
    ghost seen: { Self → Seen };

    /// How an entry is read at a parser's place.
    ghost reads: { ReadsEntry Seen };

    /// Reads the entry at the parser's place, and goes behind it. Takes no memory, so never fails with `NoMemory`.
    ///
    /// `ShortInput`, `Form`: the first fault of the entry. The parser is then unchanged.
    fn parse(parser: &mut Parser<'a>) -> Result<Self, ParseError>
        ensures answer { Gives (λ entry. record { value = seen entry; next = parser.new.pos })
            result (reads parser.old) }
        ensures within { parser.new ≡ record parser.old { pos = parser.new.pos } }
        ensures err { OnErr result (parser.new ≡ parser.old) };
}

/// The entries of a section that are left, in order. After the first fault there are none. Contracts see how many are
/// left and where they stand.
///
/// An item is taken apart by `let Ok(record) = item else`, by `match &item`, or by
/// `while let Some(Ok(record)) = records.next()`.
#[derive(Drop)]
pub struct Entries<'a, E> {
    rest: Parser<'a>,
    count: u16,
    entries: PhantomData<E>,
}

/// The questions of a message.
pub type Questions<'a> = Entries<'a, Question<'a>>;

/// The records of a section.
pub type Records<'a> = Entries<'a, ParsedRecord<'a>>;

impl<'a, E> Model for Entries<'a, E> {
    ghost use Rattle.dns_message.specs.Entries.{Section};

    ghost Value = { Section };

    ghost view = { λ entries. record { count = entries.count; start = entries.rest } };
}

impl<'a, E> Entries<'a, E> {
    /// So many entries from the parser's place on.
    pub(crate) fn new(rest: Parser<'a>, count: u16) -> Entries<'a, E>
        ensures { result ≡ record { count = count; start = rest.entry } }
    {
        Entries {
            rest,
            count,
            entries: PhantomData,
        }
    }
}

impl<'a, E: ParseEntry<'a>> Entries<'a, E> {
    /// The parser behind all entries that are left.
    ///
    /// `ShortInput`, `Form`: the first fault of an entry.
    #[tactic(auto, using(crate::proofs::Steps::behind_rules))]
    pub fn into_end(mut self) -> Result<Parser<'a>, ParseError>
        ensures { Gives (λ parser. parser) result
            (behind_entries E.reads self.entry.count self.entry.start) }
    {
        for _ in 0..self.count {
            E::parse(&mut self.rest)?;
        }
        Ok(self.rest)
    }
}

impl<'a, E: ParseEntry<'a>> Iterator for Entries<'a, E> {
    type Item = Result<E, ParseError>;

    ghost next_gives = { YieldsFirstBy (value_item E.seen) (section_entries E.reads) };

    ghost remaining = { item_count (section_entries E.reads) };

    #[tactic(auto, using(crate::proofs::Steps::entry_rules))]
    fn next(&mut self) -> Option<Result<E, ParseError>> {
        if self.count == 0 {
            return None;
        }
        match E::parse(&mut self.rest) {
            Ok(entry) => {
                self.count -= 1;
                Some(Ok(entry))
            }
            Err(error) => {
                self.count = 0;
                Some(Err(error))
            }
        }
    }
}
