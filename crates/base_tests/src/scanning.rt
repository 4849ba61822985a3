//! The calls of a scanner: their answers, and where it stands after a refusal.

use dns_text::{Entry, EntryScanner, Scanner};
use registry::{IanaNumber, SvcParamKey};
use std::alloc::Global;
use text_spec::{ScanError, Symbol};

/// Texts, and the number of 16 bits that their first token spells.
const NUMBERS: [(&[u8], Result<u16, ScanError>); 11] = [
    (b"0", Ok(0)),
    (b"65535 x", Ok(65535)),
    (b"+053", Ok(53)),
    (b"00000000000000000000007", Ok(7)),
    (b"\"5\"3", Ok(53)),
    (b"\\0535", Ok(55)),
    (b"65536", Err(ScanError::BadNumber)),
    (b"-1", Err(ScanError::BadNumber)),
    (b"1a", Err(ScanError::BadNumber)),
    (b"\"\"", Err(ScanError::BadNumber)),
    (b"", Err(ScanError::EndOfEntry)),
];

/// The number that is scanned from a text, and how many tokens are taken then.
fn scan_first(alloc: Global, text: &[u8]) -> Result<(Result<u16, ScanError>, usize), ScanError> {
    let entry = Entry::from_text(text)?;
    let mut scanner = EntryScanner::new(entry);
    let number = scanner.scan_u16(alloc);
    Ok((number, scanner.taken()))
}

#[test]
fn numbers_are_scanned(rt: HostRuntime) {
    for (text, number) in &NUMBERS {
        let taken = if number.is_ok() { 1 } else { 0 };
        assert!(rt; scan_first(rt.alloc(), text) == Ok((*number, taken)));
    }
}

/// A scan of every kind of field, one behind the other.
fn scan_fields(alloc: Global) -> Result<bool, ScanError> {
    let entry = Entry::from_text(b"255 4294967295 ALPN a. \\# 6b 65\n ; end")?;
    let mut scanner = EntryScanner::new(entry);
    let wire: &[u8] = b"\x01a\x00";
    let rest: &[u8] = b"ke";
    let small = scanner.scan_u8(alloc)?;
    let large = scanner.scan_u32(alloc)?;
    let key = scanner.scan_number::<SvcParamKey>(alloc)?;
    let name = scanner.scan_name(alloc)?;
    let marked = scanner.scan_opt_unknown_marker();
    let octets = scanner.scan_rest_base16(alloc)?;
    scanner.check_end()?;
    Ok(
        small == 255
            && large == 4_294_967_295
            && key.to_u16() == 1
            && name.as_slice() == wire
            && marked
            && octets.as_slice() == rest,
    )
}

#[test]
fn fields_are_scanned_in_turn(rt: HostRuntime) {
    assert!(rt; scan_fields(rt.alloc()) == Ok(true));
}

/// Texts, and whether their first token marks data of any type (RFC 3597, section 5).
const MARKERS: [(&[u8], bool); 7] = [
    (b"\\# 0", true),
    (b"\\035", true),
    (b"\"\\#\"", true),
    (b"#", false),
    (b"\\#\\#", false),
    (b"\"\"", false),
    (b"", false),
];

/// Whether the first token is taken as the marker, and left where it isn't.
fn is_marked(text: &[u8], marked: bool) -> Result<bool, ScanError> {
    let entry = Entry::from_text(text)?;
    let mut scanner = EntryScanner::new(entry);
    let found = scanner.scan_opt_unknown_marker();
    let taken = scanner.taken();
    Ok(found == marked && taken == usize::from(marked))
}

#[test]
fn the_marker_is_one_escaped_symbol(rt: HostRuntime) {
    for (text, marked) in &MARKERS {
        assert!(rt; is_marked(text, *marked) == Ok(true));
    }
}

/// Tokens, and the octets that they spell in base64 (RFC 4648, section 10, and bits left over).
const BASE64: [(&[u8], Option<&[u8]>); 12] = [
    (b"", Some(b"")),
    (b"Zg==", Some(b"f")),
    (b"Zm8=", Some(b"fo")),
    (b"Zm9v", Some(b"foo")),
    (b"Zm 9v\tYm E=", Some(b"fooba")),
    (b"Zg", None),
    (b"Zg=", None),
    (b"Zh==", None),
    (b"Zm9=", None),
    (b"Zg==Zg==", None),
    (b"Z-8=", None),
    (b"=", None),
];

/// What all tokens are in base64, and whether a refusal leaves them.
fn is_base64(alloc: Global, text: &[u8], octets: Option<&[u8]>) -> Result<bool, ScanError> {
    let entry = Entry::from_text(text)?;
    let mut scanner = EntryScanner::new(entry);
    let found = scanner.scan_rest_base64(alloc);
    let taken = scanner.taken();
    Ok(match (found, octets) {
        (Ok(found), Some(octets)) => found.as_slice() == octets && !scanner.continues(),
        (Err(ScanError::BadBase64), None) => taken == 0,
        _ => false,
    })
}

#[test]
fn base64_is_exact(rt: HostRuntime) {
    for (text, octets) in &BASE64 {
        assert!(rt; is_base64(rt.alloc(), text, *octets) == Ok(true));
    }
}

/// The 64 letters of base64 in order, and the octets that they stand for (RFC 4648, section 4, table 1).
#[test]
fn base64_has_its_letters(rt: HostRuntime) {
    let octets =
        b"\x00\x10\x83\x10\x51\x87\x20\x92\x8b\x30\xd3\x8f\x41\x14\x93\x51\x55\x97\x61\x96\x9b\x71\xd7\x9f\x82\x18\xa3\x92\x59\xa7\xa2\x9a\xab\xb2\xdb\xaf\xc3\x1c\xb3\xd3\x5d\xb7\xe3\x9e\xbb\xf3\xdf\xbf";
    assert!(rt;
        is_base64(
            rt.alloc(),
            b"ABCDEFGHIJKLMNOPQRSTUVWXYZabcdefghijklmnopqrstuvwxyz0123456789+/",
            Some(octets)
        ) == Ok(true)
    );
}

/// Whether a scanner that went back to a count of tokens takes the same again.
fn goes_back(alloc: Global) -> Result<bool, ScanError> {
    let entry = Entry::from_text(b"a ( b\nc ) d")?;
    let mut scanner = EntryScanner::new(entry);
    let _a = scanner.scan_octets(alloc)?;
    let _b = scanner.scan_octets(alloc)?;
    let _c = scanner.scan_octets(alloc)?;
    scanner.go_back(1);
    let second: &[u8] = b"b";
    let b = scanner.scan_octets(alloc)?;
    let left = scanner.check_end();
    Ok(b.as_slice() == second && scanner.taken() == 2 && left == Err(ScanError::TrailingTokens))
}

#[test]
fn tokens_are_taken_again(rt: HostRuntime) {
    assert!(rt; goes_back(rt.alloc()) == Ok(true));
}

/// Whether tokens are taken as their symbols, the last one without any, and none at the entry's end.
fn takes_symbols(alloc: Global) -> Result<bool, ScanError> {
    let entry = Entry::from_text(b"\\;a \"\"")?;
    let mut scanner = EntryScanner::new(entry);
    let first = scanner.scan_symbols(alloc)?;
    let second = scanner.scan_symbols(alloc)?;
    let end = scanner.scan_symbols(alloc);
    let symbols = [
        Symbol {
            octet: b';',
            escaped: true,
        },
        Symbol {
            octet: b'a',
            escaped: false,
        },
    ];
    Ok(
        first.as_slice() == symbols.as_slice()
            && second.is_empty()
            && matches!(end, Err(ScanError::EndOfEntry))
            && scanner.taken() == 2,
    )
}

#[test]
fn symbols_are_scanned(rt: HostRuntime) {
    assert!(rt; takes_symbols(rt.alloc()) == Ok(true));
}

/// Whether all tokens left are joined, and nothing at the entry's end.
fn joins_the_rest(alloc: Global) -> Result<bool, ScanError> {
    let entry = Entry::from_text(b"a ( \"b c\"\n\\100 )")?;
    let mut scanner = EntryScanner::new(entry);
    let _first = scanner.scan_octets(alloc)?;
    let rest = scanner.scan_rest(alloc)?;
    let nothing = scanner.scan_rest(alloc)?;
    let joined: &[u8] = b"b cd";
    Ok(rest.as_slice() == joined && nothing.is_empty() && scanner.taken() == 3)
}

#[test]
fn the_rest_is_joined(rt: HostRuntime) {
    assert!(rt; joins_the_rest(rt.alloc()) == Ok(true));
}
