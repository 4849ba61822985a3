//! A question of a message.

ghost use Rattle.std.specs.Prelude.{◌≡◌};

use crate::entries::ParseEntry;
use std::marker::Model;
use wire_base::{ParseError, ParsedName, Parser, Rtype};

/// A question (RFC 1035, section 4.1.2): a name, a type and a class.
#[derive(Debug, Drop)]
pub struct Question<'a> {
    qname: ParsedName<'a>,
    qtype: Rtype,
    qclass: u16,
}

impl<'a> Model for Question<'a> {
    ghost use Rattle.dns_message.specs.Entries.{QuestionView};

    ghost Value = { QuestionView };

    ghost view = { λ question. record {
      qname = question.qname;
      qtype = question.qtype;
      qclass = question.qclass;
    } };
}

impl<'a> Question<'a> {
    /// The name that is asked for.
    pub fn qname(&self) -> &ParsedName<'a>
        ensures { result.now ≡ self.now.qname }
    {
        &self.qname
    }

    /// The type that is asked for.
    pub fn qtype(&self) -> Rtype
        ensures { result ≡ self.now.qtype }
    {
        self.qtype
    }

    /// The class, which is 1 for the internet.
    pub fn qclass(&self) -> u16
        ensures { result ≡ self.now.qclass }
    {
        self.qclass
    }
}

impl<'a> ParseEntry<'a> for Question<'a> {
    ghost use Rattle.dns_message.specs.Entries.{QuestionView, next_question};

    ghost Seen = { QuestionView };

    ghost seen = { λ question. question };

    ghost reads = { next_question };

    fn parse(parser: &mut Parser<'a>) -> Result<Question<'a>, ParseError> {
        let mut ahead = parser.fork();
        let qname = ParsedName::parse(&mut ahead)?;
        let qtype = Rtype::from_int(ahead.parse_u16()?);
        let qclass = ahead.parse_u16()?;
        *parser = ahead;
        Ok(Question {
            qname,
            qtype,
            qclass,
        })
    }
}
