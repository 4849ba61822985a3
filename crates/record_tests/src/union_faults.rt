//! Data behind the marker of any type, and the faults of texts.

use dns_text::{Entry, EntryScanner, Scanner};
use rdata_union::ZoneRecordData;
use std::alloc::Global;
use text_spec::ScanError;
use wire_base::{ComposeRecordData, NoMemory, Rtype};

/// What a text is scanned as under a type number, and how many tokens are taken then.
fn scanned(
    alloc: Global,
    rtype: u16,
    text: &[u8],
) -> Result<(Result<ZoneRecordData, ScanError>, usize), ScanError> {
    let entry = Entry::from_text(text)?;
    let mut scanner = EntryScanner::new(entry);
    let outcome = ZoneRecordData::scan(alloc, Rtype::from_int(rtype), &mut scanner);
    Ok((outcome, scanner.taken()))
}

/// The fault of a text, and how many tokens are taken then.
fn fault(alloc: Global, rtype: u16, text: &[u8]) -> Option<(ScanError, usize)> {
    let (outcome, taken) = scanned(alloc, rtype, text).ok()?;
    Some((outcome.err()?, taken))
}

#[test]
fn faults_stand_at_their_places(rt: HostRuntime) {
    let alloc = rt.alloc();
    assert!(rt; fault(alloc, 999, b"\\# 4 0a0b0c") == Some((ScanError::BadNumber, 1)));
    assert!(rt; fault(alloc, 999, b"x") == Some((ScanError::UnknownType, 0)));
    assert!(rt; fault(alloc, 1, b"192.0.2.1 x") == Some((ScanError::TrailingTokens, 1)));
    assert!(rt; fault(alloc, 1, b"192.0.2 x") == Some((ScanError::BadAddress, 0)));
}

/// Whether a text under a type number is held as these octets.
fn is_octets(alloc: Global, rtype: u16, text: &[u8], octets: &[u8]) -> Result<bool, NoMemory> {
    let Ok((Ok(ZoneRecordData::Unknown(found)), _)) = scanned(alloc, rtype, text) else {
        return Ok(false);
    };
    let mut target = Vec::new(alloc);
    found.compose_rdata(&mut target)?;
    Ok(target.as_slice() == octets)
}

#[test]
fn marked_data_is_octets_under_any_number(rt: HostRuntime) {
    let alloc = rt.alloc();
    assert!(rt; is_octets(alloc, 999, b"\\# 3 0A0b0c", b"\x0a\x0b\x0c") == Ok(true));
    assert!(rt; is_octets(alloc, 64, b"\\# 3 000100", b"\x00\x01\x00") == Ok(true));
}

/// The marker is the one escaped `#`, however it is written.
#[test]
fn the_marker_is_an_escaped_number_sign(rt: HostRuntime) {
    let alloc = rt.alloc();
    assert!(rt; is_octets(alloc, 999, b"\\035 1 0a", b"\x0a") == Ok(true));
    assert!(rt; is_octets(alloc, 1, b"\"\\#\" 1 0a", b"\x0a") == Ok(true));
    assert!(rt; fault(alloc, 999, b"\"#\" 1 0a") == Some((ScanError::UnknownType, 0)));
    assert!(rt; fault(alloc, 999, b"\\## 1 0a") == Some((ScanError::UnknownType, 0)));
}
