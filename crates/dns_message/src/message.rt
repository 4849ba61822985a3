//! A message.

ghost use Rattle.std.specs.Prelude.{◌≡◌, ◌≤◌, ◌<◌, ℕ, length, Ok, Err, None, IfOk, OnErr};
ghost use Rattle.wire_base.specs.Faults.{Gives};
ghost use Rattle.wire_base.specs.NameView.{NameView};
ghost use Rattle.dns_message.specs.Aliases.{LeadOn, alias_of, labels_reached, canonical_name};
ghost use Rattle.dns_message.specs.declared.errors.AliasError.TheVariants as errors;
ghost use Rattle.dns_message.specs.Headers.{header_of};
ghost use Rattle.dns_message.specs.Messages.{questions_start, section_behind, answers_start};
ghost use Rattle.dns_message.specs.Messages.{authorities_start, additionals_start, trailing_octets};
ghost use Rattle.dns_message.specs.Searching.{search_in};

use crate::aliases::next_alias;
use crate::entries::{Entries, Questions, Records};
use crate::errors::AliasError;
use crate::found::FoundRecords;
use crate::header::{HEADER_LEN, Header};
use std::marker::Model;
use wire_base::{Name, ParseError, ParsedName, Parser, Rtype, ShortInput};

/// The octets of a message (RFC 1035, section 4.1), which has a header at least. Contracts see the octets.
#[derive(Debug, Drop)]
pub struct Message<'a> {
    octets: &'a [u8],
}

impl<'a> Model for Message<'a> {
    ghost use Rattle.std.specs.Prelude.{◌≤◌, ℕ, List, length};

    ghost Value = { List ℕ };

    ghost view = { λ message. message.octets.now };

    ghost invariant = { λ message. 12 ≤ length message.octets.now };
}

impl<'a> Message<'a> {
    /// A message of these octets. Nothing but their count is looked at.
    ///
    /// `ShortInput`: there are fewer than the 12 octets of a header.
    pub fn from_octets(octets: &'a [u8]) -> Result<Message<'a>, ShortInput>
        ensures message { IfOk result (λ message. message ≡ octets.now) }
        ensures ok { IfOk result (λ _. 12 ≤ length octets.now) }
        ensures short { OnErr result (length octets.now < 12) }
    {
        if octets.len() < HEADER_LEN {
            return Err(ShortInput);
        }
        Ok(Message { octets })
    }

    /// The octets.
    pub fn as_slice(&self) -> &'a [u8]
        ensures { result.now ≡ self.now }
    {
        self.octets
    }

    /// The header.
    pub fn header(&self) -> Header
        ensures { result ≡ header_of self.now }
    {
        Header::of(self.octets)
    }

    /// The questions, in order.
    pub fn questions(&self) -> Questions<'a>
        ensures { result ≡ record {
          count = (header_of self.now).qdcount;
          start = questions_start self.now;
        } }
    {
        let mut parser = Parser::from_ref(self.octets);
        // A message has a header, so nothing is refused.
        let _passed = parser.advance(HEADER_LEN);
        Entries::new(parser, self.header().qdcount)
    }

    /// The answer records, in order.
    ///
    /// `ShortInput`, `Form`: the first fault of a question.
    pub fn answers(&self) -> Result<Records<'a>, ParseError>
        ensures { Gives (λ records. records) result
            (section_behind (answers_start self.now) (header_of self.now).ancount) }
    {
        let start = self.questions().into_end()?;
        Ok(Entries::new(start, self.header().ancount))
    }

    /// The authority records, in order.
    ///
    /// `ShortInput`, `Form`: the first fault of a question or an answer record.
    pub fn authorities(&self) -> Result<Records<'a>, ParseError>
        ensures { Gives (λ records. records) result
            (section_behind (authorities_start self.now) (header_of self.now).nscount) }
    {
        let start = self.answers()?.into_end()?;
        Ok(Entries::new(start, self.header().nscount))
    }

    /// The additional records, in order.
    ///
    /// `ShortInput`, `Form`: the first fault of a question or of a record in the two sections before.
    pub fn additionals(&self) -> Result<Records<'a>, ParseError>
        ensures { Gives (λ records. records) result
            (section_behind (additionals_start self.now) (header_of self.now).arcount) }
    {
        let start = self.authorities()?.into_end()?;
        Ok(Entries::new(start, self.header().arcount))
    }

    /// The records of an owner, ASCII case ignored, and of a type in the answer section, in order. Classes are not
    /// compared, and no alias is followed: [`Message::canonical_name`] tells where the owner's aliases lead.
    ///
    /// `ShortInput`, `Form`: the first fault of a question. That of a record is an item of what is given.
    pub fn find<'n>(
        &self,
        owner: &'n Name,
        rtype: Rtype,
    ) -> Result<FoundRecords<'a, 'n>, ParseError>
        ensures { Gives (λ found. found) result (search_in owner.now rtype
            (section_behind (answers_start self.now) (header_of self.now).ancount)) }
    {
        Ok(FoundRecords::new(self.answers()?, owner, rtype))
    }

    /// The name that an owner's aliases lead to in the answer section, none where the owner has no alias. An alias of
    /// a name is its first CNAME record (type 5) of the internet (class 1), ASCII case ignored (RFC 1034, section
    /// 3.6.2). The name that is given has no alias of its own.
    ///
    /// At worst the section is read as often as it has records.
    ///
    /// `Parse` with `ShortInput` or `Form`: the first fault of a question, or of a record that a look for an alias
    /// comes to; `Form` also for octets behind the name of an alias. `Loop`: the aliases lead in a loop.
    #[tactic(auto, using(crate::proofs::AliasSteps::look_rules))]
    pub fn canonical_name(&self, owner: &Name) -> Result<Option<ParsedName<'a>>, AliasError>
        ensures name { result ≡ canonical_name self.now owner.now }
        ensures plain { alias_of self.now owner.now ≡ Ok None → result ≡ Ok None }
        ensures last { IfOk result (λ target.
            alias_of self.now (labels_reached owner.now target) ≡ Ok None) }
        ensures endless { (targets : ℕ → NameView) → LeadOn self.now owner.now targets
            → result ≡ Err errors.Loop }
    {
        let start = self.questions().into_end()?;
        let count = self.header().ancount;
        let mut reached: Option<ParsedName<'a>> = None;
        for _ in 0..usize::from(count) + 1 {
            let answers = Entries::new(start.fork(), count);
            match next_alias(answers, owner, &reached)? {
                Some(target) => reached = Some(target),
                None => return Ok(reached),
            }
        }
        Err(AliasError::Loop)
    }

    /// The octets behind the last record. A message has none, but they are no fault: who wants a whole message tests
    /// that there are none.
    ///
    /// `ShortInput`, `Form`: the first fault of a question or a record.
    pub fn trailing(&self) -> Result<&'a [u8], ParseError>
        ensures { Gives (λ octets. octets.now) result (trailing_octets self.now) }
    {
        Ok(self.additionals()?.into_end()?.remaining_octets())
    }
}
