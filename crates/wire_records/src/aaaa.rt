//! Record data of IPv6 addresses.

ghost use Rattle.std.specs.Prelude.{◌≡◌, ◌==◌, ℕ, List, Some, Err, refl, length, IfOk, OnErr};
ghost use Rattle.name_spec.specs.Addresses.{ipv6_text};
ghost use Rattle.wire_base.specs.Moving.{TakesOctets};
ghost use Rattle.wire_records.specs.Reading.{next_octets, address_read};

use crate::parsing::parse_address;
use std::alloc::Global;
use std::cmp::Ordering;
use std::fmt;
use std::marker::Model;
use wire_base::{
    CanonicalOrd, ComposeRecordData, Ipv6Addr, NoMemory, ParseError, ParseRecordData, Parser,
    RecordData, Rtype,
};

/// The data of an AAAA record: an IPv6 address (RFC 3596, section 2.2). Contracts see the address's 16 octets.
#[derive(Clone, Copy, Debug, PartialEq, Eq, PartialOrd, Ord, Hash)]
pub struct Aaaa(Ipv6Addr);

impl Model for Aaaa {
    ghost use Rattle.std.specs.Prelude.{◌≡◌, List, ℕ, length};

    ghost Value = { List ℕ };

    ghost view = { λ found. found.0 };

    ghost invariant = { λ found. length found.0 ≡ 16 };

    ghost inverse = { λ octets. record { 0 = octets } };
}

impl Aaaa {
    /// The data of an address.
    pub fn new(addr: Ipv6Addr) -> Aaaa
        ensures { result ≡ addr }
    {
        Aaaa(addr)
    }

    /// The address.
    pub fn addr(&self) -> Ipv6Addr
        ensures addr { result ≡ self.now }
        ensures len { length result ≡ 16 }
    {
        self.0
    }

    /// Reads the data in the next 16 octets. It allocates nothing, so it never fails with `NoMemory`.
    ///
    /// `ShortInput`: fewer remain. The parser is then unchanged.
    pub fn parse(parser: &mut Parser<'_>) -> Result<Aaaa, ParseError>
        ensures octets { IfOk result (λ found. found ≡ next_octets 16 parser.old) }
        ensures takes { TakesOctets parser.old parser.new 16 result }
        ensures fault { OnErr result (result ≡ Err ParseError.ShortInput) }
    {
        Ok(Aaaa(parse_address(parser)?))
    }
}

/// The text of the address.
impl fmt::Display for Aaaa {
    ghost output = { λ found. Some (ipv6_text found) };

    fn fmt<W: fmt::Write>(&self, f: &mut fmt::Formatter<W>) -> fmt::Result {
        let addr = self.0;
        write!(f, "{addr}")
    }
}

impl RecordData for Aaaa {
    ghost rtype_of = { λ _. 28 };

    fn rtype(&self) -> Rtype {
        Rtype::AAAA
    }
}

/// Both forms are the 16 octets.
impl ComposeRecordData for Aaaa {
    ghost octets = { λ found. found };

    fn rdlen(&self, _compress: bool) -> Option<u16> {
        Some(self.addr().octets().len() as u16)
    }

    fn compose_rdata(&self, target: &mut Vec<u8>) -> Result<(), NoMemory> {
        target.extend_from_slice(&self.addr().octets())?;
        Ok(())
    }

    fn compose_canonical_rdata(&self, target: &mut Vec<u8>) -> Result<(), NoMemory> {
        self.compose_rdata(target)
    }

    ghost by_type = { λ _. refl };
}

impl ParseRecordData for Aaaa {
    ghost Seen = { List ℕ };

    ghost seen = { λ found. found };

    ghost takes = { λ rtype. rtype == 28 };

    ghost reads = { λ _. address_read 16 };

    fn parse_rdata(
        _alloc: Global,
        rtype: Rtype,
        parser: &mut Parser<'_>,
    ) -> Result<Option<Aaaa>, ParseError> {
        if rtype != Rtype::AAAA {
            return Ok(None);
        }
        let data = Aaaa::parse(parser)?;
        Ok(Some(data))
    }
}

/// By the octets.
impl CanonicalOrd for Aaaa {
    ghost group = { λ _. 28 };

    ghost canonical = { λ found. found };

    fn canonical_cmp(&self, other: &Aaaa) -> Ordering {
        self.addr().octets().cmp(&other.addr().octets())
    }
}
