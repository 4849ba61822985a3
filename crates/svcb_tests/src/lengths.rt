//! The longest record data: 65,535 octets (RFC 1035, section 3.2.1), scanned, read and made.

use dns_text::{Entry, EntryScanner, Scanner};
use std::alloc::Global;
use svcb_params::SvcParams;
use svcb_rdata::{Svcb, SvcbRef, SvcbVariant};
use text_spec::ScanError;
use wire_base::{ComposeRecordData, LongRecordData, Name, NoMemory, ParseError, Parser};

/// A count of octets of data that was scanned, or a fault; and how many tokens are taken then.
type Scanned = (Result<Option<u16>, ScanError>, usize);

/// What a text of so many letters under key 1 is scanned as.
fn scanned(alloc: Global, count: usize) -> Result<Scanned, ScanError> {
    let mut text = Vec::from_slice(alloc, b"1 . key1=")?;
    text.extend_from_slice(&vec![in alloc; b'a'; count]?)?;
    let mut scanner = EntryScanner::new(Entry::from_text(&text)?);
    let found = Svcb::scan(alloc, &mut scanner);
    Ok((found.map(|found| found.rdlen(false)), scanner.taken()))
}

#[test]
fn texts_spell_65_535_octets_at_most(rt: HostRuntime) {
    assert!(rt; scanned(rt.alloc(), 65528) == Ok((Ok(Some(65535)), 3)));
    assert!(rt; scanned(rt.alloc(), 65529) == Ok((Err(ScanError::LongRecord), 3)));
}

/// So many octets under key 1, whose length is said to be `said`.
fn pair(alloc: Global, said: u16, count: usize) -> Result<Vec<u8>, NoMemory> {
    let mut octets = Vec::from_slice(alloc, b"\x00\x01")?;
    octets.extend_from_slice(&said.to_be_bytes())?;
    octets.extend_from_slice(&vec![in alloc; 0u8; count]?)?;
    Ok(octets)
}

/// The faults of record data of 7 octets and so many under key 1, in place and copied.
fn faults(alloc: Global, said: u16, count: usize) -> Result<[Option<ParseError>; 2], NoMemory> {
    let mut data = Vec::from_slice(alloc, b"\x00\x01\x00")?;
    data.extend_from_slice(&pair(alloc, said, count)?)?;
    let in_place: Result<SvcbRef<'_, SvcbVariant>, ParseError> = SvcbRef::parse(
        &mut Parser::from_ref(&data),
    );
    let copied = Svcb::parse(alloc, &mut Parser::from_ref(&data));
    Ok([in_place.err(), copied.err()])
}

#[test]
fn data_of_more_than_65_535_octets_is_not_read(rt: HostRuntime) {
    assert!(rt; faults(rt.alloc(), 65528, 65528) == Ok([None; 2]));
    assert!(rt; faults(rt.alloc(), 65529, 65529) == Ok([Some(ParseError::Form); 2]));
    // the length of all is tested before that of the value
    assert!(rt; faults(rt.alloc(), 65535, 65528) == Ok([Some(ParseError::ShortInput); 2]));
    assert!(rt; faults(rt.alloc(), 65535, 65529) == Ok([Some(ParseError::Form); 2]));
}

/// The refusal of record data at the root that has 7 octets and so many under key 1, if it is refused.
fn refusal(alloc: Global, count: u16) -> Result<Option<LongRecordData>, ParseError> {
    let octets = pair(alloc, count, usize::from(count))?;
    let params = SvcParams::parse(alloc, &mut Parser::from_ref(&octets))?;
    let made: Result<Svcb, LongRecordData> = Svcb::new(1, Name::root(alloc)?, params);
    Ok(made.err())
}

#[test]
fn data_of_more_than_65_535_octets_is_not_made(rt: HostRuntime) {
    assert!(rt; refusal(rt.alloc(), 65528) == Ok(None));
    assert!(rt; refusal(rt.alloc(), 65529) == Ok(Some(LongRecordData)));
}
