//! Record data whose text is that of any octets, shown and scanned back (RFC 9460, section 2.1).

use dns_text::{Entry, EntryScanner, Scanner};
use std::alloc::Global;
use svcb_rdata::Svcb;
use text_spec::ScanError;
use wire_base::{ComposeRecordData, NoMemory, Parser};

/// Octets of data in which a pair has no text of its type that gives it back, and their text.
const RAW: [(&[u8], &str); 22] = [
    // `mandatory`: empty, odd, not ascending, with itself, of a key that isn't there
    (b"\0\x01\0\0\0\0\0", "1 . key0"),
    (b"\0\x01\0\0\0\0\x01\x07", "1 . key0=\\007"),
    (
        b"\0\x01\0\0\0\0\x04\0\x03\0\x02\0\x02\0\0\0\x03\0\x02\0\x35",
        "1 . key0=\\000\\003\\000\\002 no-default-alpn port=53",
    ),
    (b"\0\x01\0\0\0\0\x02\0\0", "1 . key0=\\000\\000"),
    (b"\0\x01\0\0\0\0\x02\0\x7b", "1 . key0=\\000{"),
    // `alpn`: empty, with an empty protocol, cut off
    (b"\0\x01\0\0\x01\0\0", "1 . key1"),
    (b"\0\x01\0\0\x01\0\x01\0", "1 . key1=\\000"),
    (b"\0\x01\0\0\x01\0\x02\x05h", "1 . key1=\\005h"),
    // marks with a value, and a port of another length
    (b"\0\x01\0\0\x02\0\x01x", "1 . key2=x"),
    (b"\0\x01\0\0\x08\0\x01\\", "1 . key8=\\\\"),
    (b"\0\x01\0\0\x03\0\x03\0\x35\0", "1 . key3=\\0005\\000"),
    (b"\0\x01\0\0\x03\0\0", "1 . key3"),
    // hints: empty, and of five octets
    (b"\0\x01\0\0\x04\0\0", "1 . key4"),
    (
        b"\0\x01\0\0\x04\0\x05\xc0\0\x02\x01\x02",
        "1 . key4=\\192\\000\\002\\001\\002",
    ),
    (b"\0\x01\0\0\x06\0\x01:", "1 . key6=:"),
    // no configuration
    (b"\0\x01\0\0\x05\0\0", "1 . key5"),
    // paths that aren't plain
    (b"\0\x01\0\0\x07\0\x02/\"", "1 . key7=/\\\""),
    (b"\0\x01\0\0\x07\0\x03/ a", "1 . key7=/\\ a"),
    (b"\0\x01\0\0\x07\0\x02/\xff", "1 . key7=/\\255"),
    // groups: doubled, none
    (
        b"\0\x01\0\0\x09\0\x04\0\x1d\0\x1d",
        "1 . key9=\\000\\029\\000\\029",
    ),
    (b"\0\x01\0\0\x09\0\0", "1 . key9"),
    // labels of any octets
    (b"\0\x01\x04\0. \xff\x02a\\\0", "1 \\000\\.\\ \\255.a\\\\. "),
];

/// The text of the data that octets are, where it is scanned as the same octets.
fn text_of(alloc: Global, octets: &[u8]) -> Result<Option<String>, ScanError> {
    let Ok(found) = Svcb::parse(alloc, &mut Parser::from_ref(octets)) else {
        return Ok(None);
    };
    let shown = format!(in alloc; "{found}")?;
    let mut scanner = EntryScanner::new(Entry::from_text(shown.as_bytes())?);
    let again = Svcb::scan(alloc, &mut scanner)?;
    scanner.check_end()?;
    let mut composed = Vec::new(alloc);
    again.compose_rdata(&mut composed)?;
    if composed.as_slice() != octets {
        return Ok(None);
    }
    Ok(Some(shown))
}

/// Whether octets are data with this text, which is scanned as the same octets.
fn is_shown_and_scanned(alloc: Global, octets: &[u8], text: &str) -> Result<bool, ScanError> {
    match text_of(alloc, octets)? {
        Some(shown) => Ok(shown.as_str() == text),
        None => Ok(false),
    }
}

#[test]
fn any_octets_are_shown_and_scanned_back(rt: HostRuntime) {
    for (octets, text) in &RAW {
        assert!(rt; is_shown_and_scanned(rt.alloc(), octets, text) == Ok(true));
    }
}

/// Record data without a target name, with the octets 0 to 255 under a key.
fn with_each_octet(alloc: Global, key: u8) -> Result<Vec<u8>, NoMemory> {
    let mut data = Vec::from_slice(alloc, b"\0\x01\0\0")?;
    data.push(key)?;
    data.extend_from_slice(b"\x01\0")?;
    for octet in 0..=255u8 {
        data.push(octet)?;
    }
    Ok(data)
}

/// Whether the octets 0 to 255 under a key are shown, as a value of its type or raw, and scanned back.
fn is_each_octet_kept(alloc: Global, key: u8) -> Result<bool, ScanError> {
    let data = with_each_octet(alloc, key)?;
    let shown = text_of(alloc, &data)?;
    Ok(shown.is_some())
}

#[test]
fn each_octet_under_each_key_is_scanned_back(rt: HostRuntime) {
    for key in 0..10u8 {
        assert!(rt; is_each_octet_kept(rt.alloc(), key) == Ok(true), "{key}");
    }
}
