//! Reading a message from left to right.

ghost use Rattle.std.specs.Prelude.{◌≡◌, ◌+◌, ◌≤◌, ◌<◌, length, slice_index, slice_range, IfOk, OnOk, OnErr};
ghost use Rattle.std.specs.Int.{w32, from_be_bytes};
ghost use Rattle.name_spec.specs.Octets.{number_at};
ghost use Rattle.wire_base.specs.Input.{octets_left};
ghost use Rattle.wire_base.specs.Moving.{TakesOctets};

use crate::errors::ShortInput;
use std::marker::Model;

/// A place in a message, and the end of the data that is read. Places and lengths are counted in octets. The message
/// may go on behind that end; nothing there is read, and names may point into all that stands before it.
#[derive(Debug, Drop)]
pub struct Parser<'a> {
    message: &'a [u8],
    end: usize,
    pos: usize,
}

impl<'a> Model for Parser<'a> {
    ghost use Rattle.std.specs.Prelude.{◌≤◌, length};
    ghost use Rattle.wire_base.specs.Input.{Input};

    ghost Value = { Input };

    ghost view = { λ parser. record {
      message = parser.message.now;
      end = parser.end;
      pos = parser.pos;
    } };

    ghost invariant = { λ parser. record {
      in_data : parser.pos ≤ parser.end;
      in_message : parser.end ≤ length parser.message.now;
    } };
}

impl<'a> Parser<'a> {
    /// A parser of the whole slice as a message, at its first octet.
    pub fn from_ref(slice: &'a [u8]) -> Parser<'a>
        ensures { result ≡ record { message = slice.now; end = length slice.now; pos = 0 } }
    {
        Parser {
            message: slice,
            end: slice.len(),
            pos: 0,
        }
    }

    /// The whole message, which may go on behind the end of the data.
    pub(crate) fn message(&self) -> &'a [u8]
        ensures { result.now ≡ self.now.message }
    {
        self.message
    }

    /// The end of the data, as a place in the message.
    pub(crate) fn end(&self) -> usize
        ensures end { result ≡ self.now.end }
        ensures in_message { result ≤ length self.now.message }
    {
        self.end
    }

    /// The place in the message.
    pub fn pos(&self) -> usize
        ensures pos { result ≡ self.now.pos }
        ensures in_data { self.now.pos ≤ self.now.end }
        ensures in_message { self.now.end ≤ length self.now.message }
    {
        self.pos
    }

    /// A second parser at the same place of the same data, to read ahead with. This one stays.
    pub fn fork(&self) -> Parser<'a>
        ensures { result ≡ self.now }
    {
        Parser {
            message: self.message,
            end: self.end,
            pos: self.pos,
        }
    }

    /// The count of octets before the end of the data.
    pub fn remaining(&self) -> usize
        ensures { result + self.now.pos ≡ self.now.end }
    {
        self.end - self.pos
    }

    /// All octets before the end of the data. The parser doesn't move.
    pub fn remaining_octets(&self) -> &'a [u8]
        ensures octets { result.now ≡ octets_left self.now }
        ensures len { self.now.pos + length result.now ≡ self.now.end }
    {
        &self.message[self.pos..self.end]
    }

    /// Goes to a place in the message, which may be the end of the data.
    ///
    /// `ShortInput`: the place is past the end of the data. The parser is then unchanged.
    pub fn seek(&mut self, pos: usize) -> Result<(), ShortInput>
        ensures ok { OnOk result (self.new ≡ record self.old { pos = pos }) }
        ensures within { OnOk result (pos ≤ self.old.end) }
        ensures short { OnErr result (self.old.end < pos) }
        ensures err { OnErr result (self.new ≡ self.old) }
    {
        if pos > self.end {
            return Err(ShortInput);
        }
        self.pos = pos;
        Ok(())
    }

    /// Passes over so many octets.
    ///
    /// `ShortInput`: fewer remain. The parser is then unchanged.
    pub fn advance(&mut self, len: usize) -> Result<(), ShortInput>
        ensures takes { TakesOctets self.old self.new len result }
    {
        if len > self.end - self.pos {
            return Err(ShortInput);
        }
        self.pos += len;
        Ok(())
    }

    /// Goes to the end of the data.
    pub fn advance_to_end(&mut self)
        ensures { self.new ≡ record self.old { pos = self.old.end } }
    {
        self.pos = self.end;
    }

    /// The next octets, borrowed from the message.
    ///
    /// `ShortInput`: fewer remain. The parser is then unchanged.
    pub fn parse_octets(&mut self, len: usize) -> Result<&'a [u8], ShortInput>
        ensures octets { IfOk result (λ octets. octets.now
            ≡ slice_range self.old.message self.old.pos (self.old.pos + len)) }
        ensures len { IfOk result (λ octets. length octets.now ≡ len) }
        ensures takes { TakesOctets self.old self.new len result }
    {
        let start = self.pos;
        self.advance(len)?;
        Ok(&self.message[start..start + len])
    }

    /// A parser of the next octets on the same message, whose data ends behind them.
    ///
    /// `ShortInput`: fewer remain. The parser is then unchanged.
    pub fn parse_parser(&mut self, len: usize) -> Result<Parser<'a>, ShortInput>
        ensures parser { IfOk result (λ part. part ≡ record self.old { end = self.old.pos + len }) }
        ensures takes { TakesOctets self.old self.new len result }
    {
        let start = self.pos;
        self.advance(len)?;
        Ok(Parser {
            message: self.message,
            end: start + len,
            pos: start,
        })
    }

    /// The next octet.
    ///
    /// `ShortInput`: none remains. The parser is then unchanged.
    pub fn parse_u8(&mut self) -> Result<u8, ShortInput>
        ensures number { IfOk result (λ number. number
            ≡ slice_index self.old.message self.old.pos) }
        ensures takes { TakesOctets self.old self.new 1 result }
    {
        let octets = self.parse_octets(1)?;
        Ok(octets[0])
    }

    /// The number in the next two octets, the high one first (RFC 1035, section 2.3.2).
    ///
    /// `ShortInput`: fewer remain. The parser is then unchanged.
    #[tactic(auto, using(name_spec::proofs::OctetLaws::number_octets))]
    pub fn parse_u16(&mut self) -> Result<u16, ShortInput>
        ensures number { IfOk result (λ number. number
            ≡ number_at self.old.message self.old.pos) }
        ensures takes { TakesOctets self.old self.new 2 result }
    {
        let octets = self.parse_octets(2)?;
        Ok(u16::from_be_bytes([octets[0], octets[1]]))
    }

    /// The number in the next four octets, the high one first (RFC 1035, section 2.3.2).
    ///
    /// `ShortInput`: fewer remain. The parser is then unchanged.
    pub fn parse_u32(&mut self) -> Result<u32, ShortInput>
        ensures number { IfOk result (λ number. number
            ≡ from_be_bytes w32 (slice_range self.old.message self.old.pos (self.old.pos + 4))) }
        ensures takes { TakesOctets self.old self.new 4 result }
    {
        let octets = self.parse_octets(4)?;
        Ok(u32::from_be_bytes([octets[0], octets[1], octets[2], octets[3]]))
    }
}
