//! Parameters scanned from the tokens of an entry, in any order (RFC 9460, section 2.1).

use dns_text::{Entry, EntryScanner, Scanner};
use std::alloc::Global;
use svcb_params::SvcParams;
use text_spec::ScanError;

/// A scan of parameters, and how many tokens of the entry are taken then.
type Found = (Result<SvcParams, ScanError>, usize);

/// Scans the parameters behind the number that a text begins with.
fn scan_text(alloc: Global, text: &[u8]) -> Result<Found, ScanError> {
    let entry = Entry::from_text(text)?;
    let mut scanner = EntryScanner::new(entry);
    scanner.scan_u16(alloc)?;
    let found = SvcParams::scan(alloc, &mut scanner);
    Ok((found, scanner.taken()))
}

/// Texts, the octets of the parameters that they spell, and the count of all their tokens.
const SPELLED: [(&[u8], &[u8], usize); 6] = [
    (b"1", b"", 1),
    (b"1 port=+053", b"\x00\x03\x00\x02\x00\x35", 2),
    (
        b"16 ( alpn=h2,h3-19 mandatory=ipv4hint,alpn ipv4hint=192.0.2.1 )",
        b"\x00\x00\x00\x04\x00\x01\x00\x04\
            \x00\x01\x00\x09\x02h2\x05h3-19\x00\x04\x00\x04\xc0\x00\x02\x01",
        4,
    ),
    (
        b"16 ipv4hint=192.0.2.1 alpn=h2,h3-19 mandatory=alpn,ipv4hint",
        b"\x00\x00\x00\x04\x00\x01\x00\x04\
            \x00\x01\x00\x09\x02h2\x05h3-19\x00\x04\x00\x04\xc0\x00\x02\x01",
        4,
    ),
    // The octets of `key0` are no list of keys.
    (b"1 key0=ab", b"\x00\x00\x00\x02ab", 2),
    (
        b"1 key65535 ohttp port=80 key667=hello",
        b"\x00\x03\x00\x02\x00\x50\x00\x08\x00\x00\x02\x9b\x00\x05hello\xff\xff\x00\x00",
        5,
    ),
];

/// Whether a text spells parameters of these octets, and so many tokens are taken then.
fn is_spelled(alloc: Global, text: &[u8], octets: &[u8], taken: usize) -> bool {
    let Ok((found, place)) = scan_text(alloc, text) else {
        return false;
    };
    match found {
        Ok(params) => params.as_slice() == octets && place == taken,
        Err(_) => false,
    }
}

#[test]
fn tokens_spell_parameters(rt: HostRuntime) {
    for (text, octets, taken) in &SPELLED {
        assert!(rt; is_spelled(rt.alloc(), text, octets, *taken));
    }
}

/// Texts, their first fault, and how many tokens are taken then.
const REFUSED: [(&[u8], ScanError, usize); 11] = [
    (b"1 port=1 port=2", ScanError::DuplicateKey, 2),
    (b"1 port=1 port=2 x", ScanError::DuplicateKey, 2),
    (b"1 key3=ab port=1", ScanError::DuplicateKey, 2),
    (b"1 key0=ab mandatory=port", ScanError::DuplicateKey, 2),
    // A token's own fault comes before that of its key, and before that of a list of keys.
    (b"1 port=1 port=x", ScanError::BadPort, 2),
    (b"1 mandatory=port port=x", ScanError::BadPort, 2),
    (b"1 alpn=h2,", ScanError::EmptyItem, 1),
    (b"1 alpn=h2 \"\"", ScanError::EmptyParam, 2),
    (b"1 mandatory=port", ScanError::MandatoryMissing, 2),
    (b"1 mandatory=key123", ScanError::MandatoryMissing, 2),
    (
        b"1 alpn=h2 mandatory=port,alpn ohttp",
        ScanError::MandatoryMissing,
        4,
    ),
];

/// Whether a text is refused by this fault, and so many tokens are taken then.
fn is_refused(alloc: Global, text: &[u8], fault: ScanError, taken: usize) -> bool {
    let Ok((found, place)) = scan_text(alloc, text) else {
        return false;
    };
    match found {
        Ok(_) => false,
        Err(error) => error == fault && place == taken,
    }
}

#[test]
fn faults_have_their_places(rt: HostRuntime) {
    for (text, fault, taken) in &REFUSED {
        assert!(rt; is_refused(rt.alloc(), text, *fault, *taken));
    }
}
