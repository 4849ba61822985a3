//! Record data read and composed again (RFC 9460, appendix D).

use std::alloc::Global;
use svcb_params::SvcParams;
use svcb_rdata::{Https, Svcb, SvcbRef, SvcbVariant};
use wire_base::{
    ComposeRecordData, Name, NoMemory, ParseError, ParseRecordData, Parser, RecordData, Rtype,
};

/// The priority, target and parameters of the records of appendices D.1 and D.2, and their octets.
const RECORDS: [(u16, &[u8], &[u8], &[u8]); 9] = [
    (
        0,
        b"\x03foo\x07example\x03com\x00",
        b"",
        b"\x00\x00\x03foo\x07example\x03com\x00",
    ),
    (1, b"\x00", b"", b"\x00\x01\x00"),
    // port=53
    (
        16,
        b"\x03foo\x07example\x03com\x00",
        b"\x00\x03\x00\x02\x00\x35",
        b"\x00\x10\x03foo\x07example\x03com\x00\x00\x03\x00\x02\x00\x35",
    ),
    // key667=hello
    (
        1,
        b"\x03foo\x07example\x03com\x00",
        b"\x02\x9b\x00\x05hello",
        b"\x00\x01\x03foo\x07example\x03com\x00\x02\x9b\x00\x05hello",
    ),
    // key667="hello\210qoo"
    (
        1,
        b"\x03foo\x07example\x03com\x00",
        b"\x02\x9b\x00\x09hello\xd2qoo",
        b"\x00\x01\x03foo\x07example\x03com\x00\x02\x9b\x00\x09hello\xd2qoo",
    ),
    // ipv6hint="2001:db8::1,2001:db8::53:1"
    (
        1,
        b"\x03foo\x07example\x03com\x00",
        b"\x00\x06\x00\x20\x20\x01\x0d\xb8\0\0\0\0\0\0\0\0\0\0\0\x01\x20\x01\x0d\xb8\0\0\0\0\0\0\0\0\0\x53\0\x01",
        b"\x00\x01\x03foo\x07example\x03com\x00\x00\x06\x00\x20\x20\x01\x0d\xb8\0\0\0\0\0\0\0\0\0\0\0\x01\x20\x01\x0d\xb8\0\0\0\0\0\0\0\0\0\x53\0\x01",
    ),
    // ipv6hint="2001:db8:122:344::192.0.2.33"
    (
        1,
        b"\x07example\x03com\x00",
        b"\x00\x06\x00\x10\x20\x01\x0d\xb8\x01\x22\x03\x44\x00\x00\x00\x00\xc0\x00\x02\x21",
        b"\x00\x01\x07example\x03com\x00\x00\x06\x00\x10\x20\x01\x0d\xb8\x01\x22\x03\x44\x00\x00\x00\x00\xc0\x00\x02\x21",
    ),
    // alpn=h2,h3-19 mandatory=ipv4hint,alpn ipv4hint=192.0.2.1
    (
        16,
        b"\x03foo\x07example\x03org\x00",
        b"\x00\x00\x00\x04\x00\x01\x00\x04\x00\x01\x00\x09\x02h2\x05h3-19\x00\x04\x00\x04\xc0\x00\x02\x01",
        b"\x00\x10\x03foo\x07example\x03org\x00\x00\x00\x00\x04\x00\x01\x00\x04\x00\x01\x00\x09\x02h2\x05h3-19\x00\x04\x00\x04\xc0\x00\x02\x01",
    ),
    // alpn="f\\oo\,bar,h2"
    (
        16,
        b"\x03foo\x07example\x03org\x00",
        b"\x00\x01\x00\x0c\x08f\\oo,bar\x02h2",
        b"\x00\x10\x03foo\x07example\x03org\x00\x00\x01\x00\x0c\x08f\\oo,bar\x02h2",
    ),
];

/// Whether record data has a priority, a target of as many octets, and parameters.
fn is_read(octets: &[u8], priority: u16, target: &[u8], params: &[u8]) -> Result<bool, ParseError> {
    let found: SvcbRef<'_, SvcbVariant> = SvcbRef::parse(&mut Parser::from_ref(octets))?;
    let len = usize::from(found.target().compose_len());
    let is_alias = found.is_alias() && !found.is_service();
    let has_parts = found.priority() == priority && found.params().as_slice() == params;
    Ok(has_parts && len == target.len() && is_alias == (priority == 0))
}

/// Whether record data is composed to octets, through the bound.
fn is_composed<D: ComposeRecordData>(
    alloc: Global,
    data: &D,
    octets: &[u8],
) -> Result<bool, NoMemory> {
    let mut target = Vec::new(alloc);
    data.compose_rdata(&mut target)?;
    data.compose_canonical_rdata(&mut target)?;
    let (first, second) = target.split_at(target.len() / 2);
    let len = data.rdlen(true).map(usize::from);
    Ok(first == octets && second == octets && len == Some(octets.len()))
}

/// Whether a copy of the record data in octets is composed to them.
fn is_kept(alloc: Global, octets: &[u8]) -> Result<bool, ParseError> {
    let data: Svcb = Svcb::parse(alloc, &mut Parser::from_ref(octets))?;
    let copy = data.try_clone(alloc)?;
    Ok(is_composed(alloc, &copy, octets)?)
}

#[test]
fn records_are_read_and_composed(rt: HostRuntime) {
    for (priority, target, params, octets) in &RECORDS {
        let is_read = is_read(octets, *priority, target, params);
        assert!(rt; is_read == Ok(true), "{octets:?}");
        assert!(rt; is_kept(rt.alloc(), octets) == Ok(true), "{octets:?}");
    }
}

/// Whether record data without parameters is made of the root.
fn is_made(alloc: Global) -> Result<bool, ParseError> {
    let data: Https = Https::new(1, Name::root(alloc)?, SvcParams::empty(alloc))?;
    Ok(is_composed(alloc, &data, b"\x00\x01\x00")?)
}

/// The type number of record data that is read as data of a type, if it is.
fn type_of<D: ParseRecordData>(alloc: Global, rtype: Rtype) -> Result<Option<u16>, ParseError> {
    let mut parser = Parser::from_ref(b"\x00\x01\x00");
    match D::parse_rdata(alloc, rtype, &mut parser)? {
        Some(data) => Ok(Some(data.rtype().to_int())),
        None => Ok(None),
    }
}

#[test]
fn record_data_has_a_type(rt: HostRuntime) {
    assert!(rt; is_made(rt.alloc()) == Ok(true));
    assert!(rt; type_of::<Svcb>(rt.alloc(), Rtype::SVCB) == Ok(Some(64)));
    assert!(rt; type_of::<Svcb>(rt.alloc(), Rtype::HTTPS) == Ok(None));
    assert!(rt; type_of::<Https>(rt.alloc(), Rtype::HTTPS) == Ok(Some(65)));
}
