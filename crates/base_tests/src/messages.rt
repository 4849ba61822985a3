//! Names in messages (RFC 1035, section 4.1.4), and numbers.

use std::alloc::Global;
use wire_base::{ParseError, ParsedName, Parser, ShortInput};

/// A name that was read: its octets uncompressed, the place behind it, and whether it has a pointer.
type Found<'a> = Result<(&'a [u8], usize, bool), ParseError>;

/// Messages, where a name is, and what is read there.
const ROWS: [(&[u8], usize, Found<'static>); 22] = [
    (b"\x00", 0, Ok((b"\x00", 1, false))),
    (b"\x03foo\x00", 0, Ok((b"\x03foo\x00", 5, false))),
    (
        b"\x03foo\x00\x00\x01\xc0\x00",
        7,
        Ok((b"\x03foo\x00", 9, true)),
    ),
    (
        b"\x03foo\x00\x01a\xc0\x00",
        5,
        Ok((b"\x01a\x03foo\x00", 9, true)),
    ),
    (
        b"\x03foo\x00\xc0\x00\x01a\xc0\x05",
        7,
        Ok((b"\x01a\x03foo\x00", 11, true)),
    ),
    // a pointer's octets within a label
    (b"\x02\xc0\x00\x00", 0, Ok((b"\x02\xc0\x00\x00", 4, false))),
    // pointers to a whole name and into it
    (
        b"\x01F\x03ISI\x04ARPA\x00\x03FOO\xc0\x00",
        12,
        Ok((b"\x03FOO\x01F\x03ISI\x04ARPA\x00", 18, true)),
    ),
    (
        b"\x01F\x03ISI\x04ARPA\x00\x03FOO\xc0\x06",
        12,
        Ok((b"\x03FOO\x04ARPA\x00", 18, true)),
    ),
    (b"", 0, Err(ParseError::ShortInput)),
    (b"\x04abc", 0, Err(ParseError::ShortInput)),
    (b"\x04abcd", 0, Err(ParseError::ShortInput)),
    (b"\x01a", 0, Err(ParseError::ShortInput)),
    (b"\xc0", 0, Err(ParseError::ShortInput)),
    (b"\x00\xc0", 1, Err(ParseError::ShortInput)),
    // pointers to themselves and behind themselves
    (b"\xc0\x00", 0, Err(ParseError::Form)),
    (b"\x00\xc0\x01", 1, Err(ParseError::Form)),
    (b"\xc0\x02\x00", 0, Err(ParseError::Form)),
    // a pointer to the labels that it ends
    (b"\x01a\xc0\x00", 0, Err(ParseError::Form)),
    // reserved octets
    (b"\x40\x00", 0, Err(ParseError::Form)),
    (b"\x40", 0, Err(ParseError::Form)),
    (b"\xbf\x00", 0, Err(ParseError::Form)),
    (b"\x01a\xbf\x00", 0, Err(ParseError::Form)),
];

/// Reads the name at a place of a message.
fn read(alloc: Global, message: &[u8], start: usize) -> Result<(Vec<u8>, usize, bool), ParseError> {
    let mut parser = Parser::from_ref(message);
    parser.seek(start)?;
    let name = ParsedName::parse(&mut parser)?;
    let mut octets = Vec::new(alloc);
    name.compose(&mut octets)?;
    Ok((octets, parser.pos(), name.is_compressed()))
}

/// Whether the name at a place of a message is read, or refused, as is wanted.
fn is_read(alloc: Global, message: &[u8], start: usize, wanted: &Found<'_>) -> bool {
    match read(alloc, message, start) {
        Ok((octets, next, is_compressed)) => *wanted == Ok((&octets, next, is_compressed)),
        Err(error) => *wanted == Err(error),
    }
}

#[test]
fn names_are_read_or_refused(rt: HostRuntime) {
    for (message, start, wanted) in &ROWS {
        assert!(rt; is_read(rt.alloc(), message, *start, wanted), "{message:?}");
    }
}

/// The count of the octets of the name at a place of a message, uncompressed.
fn len_of(message: &[u8], start: usize) -> Result<u16, ParseError> {
    let mut parser = Parser::from_ref(message);
    parser.seek(start)?;
    Ok(ParsedName::parse(&mut parser)?.compose_len())
}

#[test]
fn names_have_255_octets_at_most(rt: HostRuntime) {
    // labels of 63 octets, each of them 63 too
    let mut name = [63; 256];
    name[192] = 62;
    name[255] = 0;
    assert_eq!(rt; len_of(&name, 0), Err(ParseError::Form));
    name[192] = 61;
    name[254] = 0;
    assert_eq!(rt; len_of(&name, 0), Ok(255));
}

/// The root, and then 256 pointers, each to what stands before it.
fn chain_of_pointers() -> [u8; 513] {
    let mut message = [0; 513];
    for index in 0..256usize {
        let target = (2 * index).saturating_sub(1);
        message[2 * index + 1] = 0xc0 + (target / 256) as u8;
        message[2 * index + 2] = (target % 256) as u8;
    }
    message
}

#[test]
fn names_have_255_pointers_at_most(rt: HostRuntime) {
    let message = chain_of_pointers();
    assert_eq!(rt; len_of(&message, 509), Ok(1));
    assert_eq!(rt; len_of(&message, 511), Err(ParseError::Form));
}

/// Numbers of one, two and four octets that stand one behind the other.
fn numbers_in(octets: &[u8]) -> Result<(u8, u16, u32), ShortInput> {
    let mut parser = Parser::from_ref(octets);
    let first = parser.parse_u8()?;
    let second = parser.parse_u16()?;
    Ok((first, second, parser.parse_u32()?))
}

#[test]
fn the_first_octet_of_a_number_is_the_highest(rt: HostRuntime) {
    let found = numbers_in(b"\x01\x02\x03\x04\x05\x06\x07");
    assert_eq!(rt; found, Ok((0x01, 0x0203, 0x04050607)));
}
