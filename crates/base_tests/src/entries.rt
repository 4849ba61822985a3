//! Entries: their tokens, and the faults of texts that are none (RFC 1035, section 5.1).

use dns_text::{Entry, EntryScanner, Scanner};
use std::alloc::Global;
use text_spec::ScanError;

/// Texts, and the octets of their tokens.
const ENTRIES: [(&[u8], &[&[u8]]); 12] = [
    (
        b"a \"b c\" \\; ( d ; x\n e )",
        &[b"a", b"b c", b";", b"d", b"e"],
    ),
    (b"", &[]),
    (b" \t\r", &[]),
    (b"a\"b c\"d\"\"", &[b"ab cd"]),
    (b"\"\"", &[b""]),
    (b"\\255\\065\\ ", &[b"\xffA "]),
    (b"a\n \t\r\n; b ) \"\n", &[b"a"]),
    (b"\n", &[]),
    (b"(a)(b)", &[b"a", b"b"]),
    (b"((a\nb)\n)c", &[b"a", b"b", b"c"]),
    (b"a;b", &[b"a"]),
    (b"a\rb\tc", &[b"a", b"b", b"c"]),
];

/// Whether an entry has exactly these tokens.
fn has_tokens(alloc: Global, text: &[u8], tokens: &[&[u8]]) -> Result<bool, ScanError> {
    let entry = Entry::from_text(text)?;
    let mut scanner = EntryScanner::new(entry);
    for token in tokens {
        let found = scanner.scan_octets(alloc)?;
        if found.as_slice() != *token {
            return Ok(false);
        }
    }
    Ok(!scanner.continues())
}

#[test]
fn entries_have_their_tokens(rt: HostRuntime) {
    for (text, tokens) in &ENTRIES {
        assert!(rt; has_tokens(rt.alloc(), text, tokens) == Ok(true));
    }
}

/// Texts, and the first of their faults.
const FAULTS: [(&[u8], ScanError); 24] = [
    (b"a\\25", ScanError::BadEscape),
    (b"\\", ScanError::BadEscape),
    (b"\\2", ScanError::BadEscape),
    (b"\\256", ScanError::BadEscape),
    (b"\\2 5", ScanError::BadEscape),
    (b"\\\n", ScanError::BadEscape),
    (b"\\\x7f", ScanError::BadEscape),
    (b"\"\\\"", ScanError::OpenQuote),
    (b"\"a", ScanError::OpenQuote),
    (b"(\"a", ScanError::OpenQuote),
    (b"( a", ScanError::BadBracket),
    (b"( a ; )", ScanError::BadBracket),
    (b"a)", ScanError::BadBracket),
    (b"(a))", ScanError::BadBracket),
    (b"a\nb", ScanError::TrailingTokens),
    (b"\n1 .", ScanError::TrailingTokens),
    (b"a\n\x00", ScanError::TrailingTokens),
    (b"(a\nb)\n(", ScanError::TrailingTokens),
    (b"\"a\n\"", ScanError::BadSymbol),
    (b"\"a\r\"", ScanError::BadSymbol),
    (b"a\x00", ScanError::BadSymbol),
    (b"\x7f", ScanError::BadSymbol),
    // The first of two faults decides.
    (b"a\\25)", ScanError::BadEscape),
    (b"a)\\25", ScanError::BadBracket),
];

#[test]
fn other_texts_have_their_first_fault(rt: HostRuntime) {
    for (text, fault) in &FAULTS {
        let found = Entry::from_text(text);
        assert!(rt; matches!(found, Err(error) if error == *fault));
    }
}
