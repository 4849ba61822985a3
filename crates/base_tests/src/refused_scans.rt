//! Scans that are refused memory leave their scanner as it was.

use dns_text::{Entry, EntryScanner, Scanner, scan_a, scan_aaaa, scan_unknown};
use registry::SvcParamKey;
use std::alloc::Global;
use text_spec::ScanError;
use wire_base::Rtype;

/// A scan that takes memory.
#[derive(Clone, Copy, Debug)]
enum Scan {
    Symbols,
    Octets,
    Number8,
    Number16,
    Number32,
    Key,
    Name,
    Ipv4,
    Ipv6,
    AnyType,
    Rest,
    Base16,
    Base64,
}

/// Texts, each with a scan of what stands behind the marker.
const TEXTS: [(Scan, &[u8]); 13] = [
    (Scan::Symbols, b"\\# \\;a ( \"b c\"\n d )"),
    (Scan::Octets, b"\\# \\100b c ; d"),
    (Scan::Number8, b"\\# 255 c d"),
    (Scan::Number16, b"\\# 65535 c d"),
    (Scan::Number32, b"\\# 4294967295 c d"),
    (Scan::Key, b"\\# ALPN c d"),
    (Scan::Name, b"\\# a\\.b.c. d"),
    (Scan::Ipv4, b"\\# 192.0.2.1 c d"),
    (Scan::Ipv6, b"\\# 2001:db8::1 c d"),
    (Scan::AnyType, b"\\# 3 6b 65 79"),
    (Scan::Rest, b"\\# a ( b\nc ) d"),
    (Scan::Base16, b"\\# 6b 65 79"),
    (Scan::Base64, b"\\# a2 V5"),
];

/// Makes a scan, and gives its refusal.
fn refusal(alloc: Global, scan: Scan, scanner: &mut EntryScanner<'_>) -> Option<ScanError> {
    match scan {
        Scan::Symbols => scanner.scan_symbols(alloc).err(),
        Scan::Octets => scanner.scan_octets(alloc).err(),
        Scan::Number8 => scanner.scan_u8(alloc).err(),
        Scan::Number16 => scanner.scan_u16(alloc).err(),
        Scan::Number32 => scanner.scan_u32(alloc).err(),
        Scan::Key => scanner.scan_number::<SvcParamKey>(alloc).err(),
        Scan::Name => scanner.scan_name(alloc).err(),
        Scan::Ipv4 => scan_a(alloc, scanner).err(),
        Scan::Ipv6 => scan_aaaa(alloc, scanner).err(),
        Scan::AnyType => scan_unknown(alloc, Rtype::from_int(999), scanner).err(),
        Scan::Rest => scanner.scan_rest(alloc).err(),
        Scan::Base16 => scanner.scan_rest_base16(alloc).err(),
        Scan::Base64 => scanner.scan_rest_base64(alloc).err(),
    }
}

/// Whether two scanners have taken as many tokens, and the tokens to come, at most eight, are the same.
fn are_alike(alloc: Global, scanner: &mut EntryScanner<'_>, other: &mut EntryScanner<'_>) -> bool {
    if scanner.taken() != other.taken() {
        return false;
    }
    for _ in 0..8 {
        let tokens = (scanner.scan_symbols(alloc), other.scan_symbols(alloc));
        match &tokens {
            (Ok(token), Ok(same)) if token.as_slice() == same.as_slice() => {}
            (Err(ScanError::EndOfEntry), Err(ScanError::EndOfEntry)) => return true,
            _ => return false,
        }
    }
    false
}

/// Whether a scan is answered or, where it is refused memory, leaves its scanner like one that never made it.
fn is_kept(alloc: Global, scan: Scan, text: &[u8]) -> Result<bool, ScanError> {
    let mut scanner = EntryScanner::new(Entry::from_text(text)?);
    let mut other = EntryScanner::new(Entry::from_text(text)?);
    let is_marked = scanner.scan_opt_unknown_marker() && other.scan_opt_unknown_marker();
    Ok(
        is_marked
            && match refusal(alloc, scan, &mut scanner) {
                None => scanner.taken() > 1,
                Some(ScanError::NoMemory) => are_alike(alloc, &mut scanner, &mut other),
                Some(_) => false,
            },
    )
}

/// One request for memory may be refused in all: what is compared behind that has all that it asks for.
#[test]
fn a_scan_without_memory_takes_no_token(rt: HostRuntime) {
    for (scan, text) in &TEXTS {
        assert!(rt; is_kept(rt.alloc(), *scan, text) == Ok(true), "{scan:?}");
    }
}
