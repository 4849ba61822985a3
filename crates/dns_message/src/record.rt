//! A record of a message.

ghost use Rattle.std.specs.Prelude.{◌≡◌, ◌+◌};
ghost use Rattle.dns_message.specs.RecordContents.{GivesContents};

use crate::entries::ParseEntry;
use std::alloc::Global;
use std::marker::Model;
use wire_base::{ParseError, ParseRecordData, ParsedName, Parser, Rtype};

/// A record (RFC 1035, section 4.1.3): an owner, a type, a class, a time to live, and data, all in the message.
#[derive(Drop)]
pub struct ParsedRecord<'a> {
    owner: ParsedName<'a>,
    rtype: Rtype,
    class: u16,
    ttl: u32,
    rdata: Parser<'a>,
}

impl<'a> Model for ParsedRecord<'a> {
    ghost use Rattle.dns_message.specs.Entries.{MessageRecord};

    ghost Value = { MessageRecord };

    ghost view = { λ found. record {
      owner = found.owner;
      rtype = found.rtype;
      class = found.class;
      ttl = found.ttl;
      rdata = found.rdata;
    } };
}

impl<'a> ParsedRecord<'a> {
    /// The name that the record belongs to.
    pub fn owner(&self) -> &ParsedName<'a>
        ensures { result.now ≡ self.now.owner }
    {
        &self.owner
    }

    /// The type of the data.
    pub fn rtype(&self) -> Rtype
        ensures { result ≡ self.now.rtype }
    {
        self.rtype
    }

    /// The class, which is 1 for the internet.
    pub fn class(&self) -> u16
        ensures { result ≡ self.now.class }
    {
        self.class
    }

    /// For how many seconds the record may be kept. That of an OPT record holds fields of EDNS (RFC 6891, section 6.1.3).
    pub fn ttl(&self) -> u32
        ensures { result ≡ self.now.ttl }
    {
        self.ttl
    }

    /// The place of the data in the message, in octets from its first.
    pub fn start(&self) -> usize
        ensures { result ≡ self.now.rdata.pos }
    {
        self.rdata.pos()
    }

    /// The count of octets of the data.
    pub fn rdlen(&self) -> usize
        ensures { result + self.now.rdata.pos ≡ self.now.rdata.end }
    {
        self.rdata.remaining()
    }

    /// A parser of the data, at its first octet. Names in the data are followed through the whole message.
    ///
    /// Data that has a view is read from it in place, without memory: `SvcbRef::parse(&mut record.parser())`.
    pub fn parser(&self) -> Parser<'a>
        ensures { result ≡ self.now.rdata }
    {
        self.rdata.fork()
    }

    /// The data, as a type of data reads it: of one record type, or of any. None exactly where that type doesn't take
    /// the type of the record.
    ///
    /// Of types such as CNAME, NS, SOA, PTR and MX, whose data has names (RFC 3597, section 4; RFC 4034, section 6.2),
    /// `AllRecordData` has the octets as they stand, and a pointer among them means nothing outside of the message. A
    /// type of the caller's reads such names, or `ParsedName::parse` over [`ParsedRecord::parser`].
    ///
    /// `ShortInput`, `Form`: the first fault of the data; `Form` also where octets are left behind it. `NoMemory`: what
    /// was read has no fault, and an allocation for it failed.
    pub fn data<D: ParseRecordData>(&self, alloc: Global) -> Result<Option<D>, ParseError>
        ensures { GivesContents D.seen result self.now.rdata.end (D.takes self.now.rtype)
            (D.reads self.now.rtype self.now.rdata) }
    {
        let mut parser = self.parser();
        let found = D::parse_rdata(alloc, self.rtype, &mut parser)?;
        if found.is_some() && parser.remaining() > 0 {
            return Err(ParseError::Form);
        }
        Ok(found)
    }
}

impl<'a> ParseEntry<'a> for ParsedRecord<'a> {
    ghost use Rattle.dns_message.specs.Entries.{MessageRecord, next_record};

    ghost Seen = { MessageRecord };

    ghost seen = { λ found. found };

    ghost reads = { next_record };

    fn parse(parser: &mut Parser<'a>) -> Result<ParsedRecord<'a>, ParseError> {
        let mut ahead = parser.fork();
        let owner = ParsedName::parse(&mut ahead)?;
        let mut fields = ahead.parse_parser(10)?;
        let rtype = Rtype::from_int(fields.parse_u16()?);
        let class = fields.parse_u16()?;
        let ttl = fields.parse_u32()?;
        let len = fields.parse_u16()?;
        let rdata = ahead.parse_parser(usize::from(len))?;
        *parser = ahead;
        Ok(ParsedRecord {
            owner,
            rtype,
            class,
            ttl,
            rdata,
        })
    }
}
