//! Record data as text, scanned, printed and laid out.

use crate::printed::is_printed;
use dns_text::{Entry, EntryScanner, Scanner, display_zonefile};
use std::alloc::Global;
use svcb_rdata::{Https, Svcb};
use text_spec::{DisplayKind, ScanError};
use wire_base::{ComposeRecordData, NoMemory, ParseError, Parser};

/// Scans the data that a text's tokens spell, and tests that no token is left.
fn scan_text(alloc: Global, text: &[u8]) -> Result<Svcb, ScanError> {
    let entry = Entry::from_text(text)?;
    let mut scanner = EntryScanner::new(entry);
    let found = Svcb::scan(alloc, &mut scanner)?;
    scanner.check_end()?;
    Ok(found)
}

/// Texts, and the octets of the data that they spell.
const SPELLED: [(&[u8], &[u8]); 12] = [
    (
        b"1 . port=53 alpn=h2",
        b"\x00\x01\x00\x00\x01\x00\x03\x02h2\x00\x03\x00\x02\x00\x35",
    ),
    (
        b"0 foo.example.com.",
        b"\x00\x00\x03foo\x07example\x03com\x00",
    ),
    (
        b"16 foo.example.com. port=53",
        b"\x00\x10\x03foo\x07example\x03com\x00\x00\x03\x00\x02\x00\x35",
    ),
    (
        b"16 foo.example.org. alpn=f\\\\\\092oo\\092,bar,h2",
        b"\x00\x10\x03foo\x07example\x03org\x00\x00\x01\x00\x0c\x08f\\oo,bar\x02h2",
    ),
    (
        b"16 foo.example.org. alpn=\"f\\\\\\\\oo\\\\,bar,h2\"",
        b"\x00\x10\x03foo\x07example\x03org\x00\x00\x01\x00\x0c\x08f\\oo,bar\x02h2",
    ),
    (b"1 . key1=h2", b"\x00\x01\x00\x00\x01\x00\x02h2"),
    (b"1 . key0=\\000{", b"\x00\x01\x00\x00\x00\x00\x02\x00\x7b"),
    (
        b"1 foo.example.com. key667=hello",
        b"\x00\x01\x03foo\x07example\x03com\x00\x02\x9b\x00\x05hello",
    ),
    (
        b"1 foo.example.com. key667=\"hello\\210qoo\"",
        b"\x00\x01\x03foo\x07example\x03com\x00\x02\x9b\x00\x09hello\xd2qoo",
    ),
    (
        b"1 foo.example.com. ( ipv6hint=\"2001:db8::1,2001:db8::53:1\" )",
        b"\x00\x01\x03foo\x07example\x03com\x00\x00\x06\x00\x20\
            \x20\x01\x0d\xb8\0\0\0\0\0\0\0\0\0\0\0\x01\x20\x01\x0d\xb8\0\0\0\0\0\0\0\0\0\x53\0\x01",
    ),
    (
        b"1 foo.example.com. ipv6hint=\"2001:db8:122:344::192.0.2.33\"",
        b"\x00\x01\x03foo\x07example\x03com\x00\x00\x06\x00\x10\
            \x20\x01\x0d\xb8\x01\x22\x03\x44\0\0\0\0\xc0\x00\x02\x21",
    ),
    (
        b"1 . alpn=h3,h2 ipv4hint=192.0.2.1,192.0.2.2 ipv6hint=2001:db8::1",
        b"\x00\x01\x00\x00\x01\x00\x06\x02h3\x02h2\x00\x04\x00\x08\xc0\x00\x02\x01\xc0\x00\x02\x02\
            \x00\x06\x00\x10\x20\x01\x0d\xb8\0\0\0\0\0\0\0\0\0\0\0\x01",
    ),
];

/// Whether a text spells the data of these octets.
fn is_spelled(alloc: Global, text: &[u8], octets: &[u8]) -> Result<bool, NoMemory> {
    let Ok(found) = scan_text(alloc, text) else {
        return Ok(false);
    };
    let mut composed = Vec::new(alloc);
    found.compose_rdata(&mut composed)?;
    Ok(composed.as_slice() == octets)
}

#[test]
fn tokens_spell_data(rt: HostRuntime) {
    for (text, octets) in &SPELLED {
        assert!(rt; is_spelled(rt.alloc(), text, octets) == Ok(true));
    }
}

/// Texts, their first fault, and how many tokens are taken then.
const REFUSED: [(&[u8], ScanError, usize); 15] = [
    (b"", ScanError::EndOfEntry, 0),
    (b"1", ScanError::EndOfEntry, 1),
    (b"\\# 3 000100", ScanError::BadNumber, 0),
    (b"65536 .", ScanError::BadNumber, 0),
    (b"1 @ port=53", ScanError::BadName, 1),
    (b"1 . port=53 key3=a", ScanError::DuplicateKey, 3),
    (b"1 . mandatory=key123", ScanError::MandatoryMissing, 3),
    (
        b"1 foo.example.com. key123=abc key123=def",
        ScanError::DuplicateKey,
        3,
    ),
    (b"1 foo.example.com. mandatory", ScanError::MissingValue, 2),
    (b"1 foo.example.com. alpn", ScanError::MissingValue, 2),
    (b"1 foo.example.com. port", ScanError::MissingValue, 2),
    (b"1 foo.example.com. ipv4hint", ScanError::MissingValue, 2),
    (b"1 foo.example.com. ipv6hint", ScanError::MissingValue, 2),
    (
        b"1 foo.example.com. mandatory=mandatory",
        ScanError::KeyZeroInMandatory,
        2,
    ),
    (
        b"1 foo.example.com. mandatory=key123,key123 key123=abc",
        ScanError::DuplicateItem,
        2,
    ),
];

/// Whether a scan is refused by this fault, and so many tokens are taken then.
fn is_refused(
    alloc: Global,
    text: &[u8],
    fault: ScanError,
    taken: usize,
) -> Result<bool, ScanError> {
    let entry = Entry::from_text(text)?;
    let mut scanner = EntryScanner::new(entry);
    match Https::scan(alloc, &mut scanner) {
        Ok(_) => Ok(false),
        Err(error) => Ok(error == fault && scanner.taken() == taken),
    }
}

#[test]
fn faults_have_their_places(rt: HostRuntime) {
    for (text, fault, taken) in &REFUSED {
        assert!(rt; is_refused(rt.alloc(), text, *fault, *taken) == Ok(true));
    }
}

/// Octets of data, and their text.
const PRINTED: [(&[u8], &str); 7] = [
    (
        b"\x00\x01\x00\x00\x01\x00\x03\x02h2\x00\x03\x00\x02\x00\x35",
        "1 . alpn=h2 port=53",
    ),
    (b"\x00\x00\x01a\x00", "0 a. "),
    (b"\x00\x01\x00\x00\x01\x00\x02\x01\xe9", "1 . alpn=\\233"),
    (b"\x00\x01\x00\x00\x05\x00\x00", "1 . key5"),
    (
        b"\x00\x10\x03foo\x07example\x03org\x00\x00\x01\x00\x0c\x08f\\oo,bar\x02h2",
        "16 foo.example.org. alpn=f\\\\\\\\oo\\\\,bar,h2",
    ),
    // octets that are no protocols
    (b"\x00\x01\x00\x00\x01\x00\x02h2", "1 . key1=h2"),
    (
        b"\x00\x01\x00\x00\x01\x00\x06\x02h3\x02h2\x00\x04\x00\x08\xc0\x00\x02\x01\xc0\x00\x02\x02\
            \x00\x06\x00\x10\x20\x01\x0d\xb8\0\0\0\0\0\0\0\0\0\0\0\x01",
        "1 . alpn=h3,h2 ipv4hint=192.0.2.1,192.0.2.2 ipv6hint=2001:db8::1",
    ),
];

/// Whether octets are data with this text.
fn has_text(alloc: Global, octets: &[u8], text: &str) -> Result<bool, NoMemory> {
    let mut parser = Parser::from_ref(octets);
    match Https::parse(alloc, &mut parser) {
        Ok(found) => is_printed(alloc, &found, text),
        Err(_) => Ok(false),
    }
}

#[test]
fn data_is_printed(rt: HostRuntime) {
    for (octets, text) in &PRINTED {
        assert!(rt; has_text(rt.alloc(), octets, text) == Ok(true));
    }
}

/// The kinds of layout, and the text of port 53 at the root in each.
const LAYOUTS: [(DisplayKind, &str); 3] = [
    (DisplayKind::Simple, "1 . port=53"),
    (DisplayKind::Tabbed, "1\t.\tport=53"),
    (
        DisplayKind::Multiline,
        "( 1 ; priority\n\t. ; target\n\t( port=53 ) )",
    ),
];

/// Whether port 53 at the root is laid out so.
fn is_laid_out(alloc: Global, kind: DisplayKind, text: &str) -> Result<bool, ParseError> {
    let mut parser = Parser::from_ref(b"\x00\x01\x00\x00\x03\x00\x02\x00\x35");
    let found = Svcb::parse(alloc, &mut parser)?;
    Ok(display_zonefile(alloc, &found, kind)?.as_slice() == text.as_bytes())
}

#[test]
fn data_is_laid_out(rt: HostRuntime) {
    for (kind, text) in &LAYOUTS {
        assert!(rt; is_laid_out(rt.alloc(), *kind, text) == Ok(true));
    }
}
