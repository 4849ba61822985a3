//! Data of A and AAAA records, and of any type, in octets.

use std::alloc::Global;
use wire_base::{
    CanonicalOrd, ComposeRecordData, Octets, ParseError, ParseRecordData, Parser, RecordData, Rtype,
};
use wire_records::{A, Aaaa, UnknownRecordData};

/// Whether data of an A record is read in front of other octets, and composed again.
fn is_a(alloc: Global, octets: &[u8]) -> Result<bool, ParseError> {
    let mut parser = Parser::from_ref(octets);
    let a = A::parse(&mut parser)?;
    let mut target = Vec::new(alloc);
    a.compose_rdata(&mut target)?;
    a.compose_canonical_rdata(&mut target)?;
    let twice: &[u8] = b"\xc0\x00\x02\x01\xc0\x00\x02\x01";
    Ok(target.as_slice() == twice && parser.pos() == 4 && a.rdlen(false) == Some(4))
}

#[test]
fn an_address_is_read_and_composed(rt: HostRuntime) {
    assert!(rt; is_a(rt.alloc(), b"\xc0\x00\x02\x01\xff") == Ok(true));
    assert!(rt; is_a(rt.alloc(), b"\xc0\x00\x02") == Err(ParseError::ShortInput));
}

/// Whether data of an AAAA record is read under its type number alone.
fn is_aaaa(alloc: Global) -> Result<bool, ParseError> {
    let octets = b"\x20\x01\x0d\xb8\0\0\0\0\0\0\0\0\0\0\0\x01";
    let mut parser = Parser::from_ref(octets);
    let other = Aaaa::parse_rdata(alloc, Rtype::A, &mut parser)?;
    let place = parser.pos();
    let found = Aaaa::parse_rdata(alloc, Rtype::AAAA, &mut parser)?;
    let Some(aaaa) = found else {
        return Ok(false);
    };
    Ok(other.is_none() && place == 0 && aaaa.addr().octets() == *octets)
}

#[test]
fn an_address_is_read_under_its_type(rt: HostRuntime) {
    assert!(rt; is_aaaa(rt.alloc()) == Ok(true));
}

/// Whether data of any type is read, copied, composed and compared.
fn is_any(alloc: Global) -> Result<bool, ParseError> {
    let octets: &[u8] = b"\x0a\x0b";
    let mut parser = Parser::from_ref(octets);
    let data = UnknownRecordData::parse(alloc, Rtype::from_int(999), &mut parser)?;
    let copy = data.try_clone(alloc)?;
    let mut target = Vec::new(alloc);
    copy.compose_rdata(&mut target)?;
    let lower = UnknownRecordData::new(Rtype::from_int(998), Octets::from_slice(alloc, b"\xff")?)?;
    Ok(
        target.as_slice() == octets
            && copy == data
            && copy.rtype() == Rtype::from_int(999)
            && lower < data
            && lower.canonical_cmp(&data).is_lt(),
    )
}

#[test]
fn data_of_any_type_is_read_and_copied(rt: HostRuntime) {
    assert!(rt; is_any(rt.alloc()) == Ok(true));
}
