//! Record data of IPv4 addresses.

ghost use Rattle.std.specs.Prelude.{◌≡◌, ◌==◌, ℕ, List, Some, Err, refl, length, IfOk, OnErr};
ghost use Rattle.name_spec.specs.Addresses.{ipv4_text};
ghost use Rattle.wire_base.specs.Moving.{TakesOctets};
ghost use Rattle.wire_records.specs.Reading.{next_octets, address_read};

use crate::parsing::parse_address;
use std::alloc::Global;
use std::cmp::Ordering;
use std::fmt;
use std::marker::Model;
use wire_base::{
    CanonicalOrd, ComposeRecordData, Ipv4Addr, NoMemory, ParseError, ParseRecordData, Parser,
    RecordData, Rtype,
};

/// The data of an A record: an IPv4 address (RFC 1035, section 3.4.1). Contracts see the address's 4 octets.
#[derive(Clone, Copy, Debug, PartialEq, Eq, PartialOrd, Ord, Hash)]
pub struct A(Ipv4Addr);

impl Model for A {
    ghost use Rattle.std.specs.Prelude.{◌≡◌, List, ℕ, length};

    ghost Value = { List ℕ };

    ghost view = { λ found. found.0 };

    ghost invariant = { λ found. length found.0 ≡ 4 };

    ghost inverse = { λ octets. record { 0 = octets } };
}

impl A {
    /// The data of an address.
    pub fn new(addr: Ipv4Addr) -> A
        ensures { result ≡ addr }
    {
        A(addr)
    }

    /// The address.
    pub fn addr(&self) -> Ipv4Addr
        ensures addr { result ≡ self.now }
        ensures len { length result ≡ 4 }
    {
        self.0
    }

    /// Reads the data in the next 4 octets. It allocates nothing, so it never fails with `NoMemory`.
    ///
    /// `ShortInput`: fewer remain. The parser is then unchanged.
    pub fn parse(parser: &mut Parser<'_>) -> Result<A, ParseError>
        ensures octets { IfOk result (λ found. found ≡ next_octets 4 parser.old) }
        ensures takes { TakesOctets parser.old parser.new 4 result }
        ensures fault { OnErr result (result ≡ Err ParseError.ShortInput) }
    {
        Ok(A(parse_address(parser)?))
    }
}

/// The text of the address.
impl fmt::Display for A {
    ghost output = { λ found. Some (ipv4_text found) };

    fn fmt<W: fmt::Write>(&self, f: &mut fmt::Formatter<W>) -> fmt::Result {
        let addr = self.0;
        write!(f, "{addr}")
    }
}

impl RecordData for A {
    ghost rtype_of = { λ _. 1 };

    fn rtype(&self) -> Rtype {
        Rtype::A
    }
}

/// Both forms are the 4 octets.
impl ComposeRecordData for A {
    ghost octets = { λ found. found };

    fn rdlen(&self, _compress: bool) -> Option<u16> {
        Some(self.addr().octets().len() as u16)
    }

    fn compose_rdata(&self, target: &mut Vec<u8>) -> Result<(), NoMemory> {
        target.extend_from_slice(&self.addr().octets())?;
        Ok(())
    }

    fn compose_canonical_rdata(&self, target: &mut Vec<u8>) -> Result<(), NoMemory> {
        self.compose_rdata(target)
    }

    ghost by_type = { λ _. refl };
}

impl ParseRecordData for A {
    ghost Seen = { List ℕ };

    ghost seen = { λ found. found };

    ghost takes = { λ rtype. rtype == 1 };

    ghost reads = { λ _. address_read 4 };

    fn parse_rdata(
        _alloc: Global,
        rtype: Rtype,
        parser: &mut Parser<'_>,
    ) -> Result<Option<A>, ParseError> {
        if rtype != Rtype::A {
            return Ok(None);
        }
        let data = A::parse(parser)?;
        Ok(Some(data))
    }
}

/// By the octets.
impl CanonicalOrd for A {
    ghost group = { λ _. 1 };

    ghost canonical = { λ found. found };

    fn canonical_cmp(&self, other: &A) -> Ordering {
        self.addr().octets().cmp(&other.addr().octets())
    }
}
