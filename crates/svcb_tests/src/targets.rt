//! Record data within a message, with a compressed target and without one.

use crate::printed::is_printed;
use std::alloc::Global;
use svcb_rdata::{RebuildError, SvcbRef, SvcbVariant, rebuild_svcb};
use wire_base::{NoMemory, ParseError, Parser};

/// Messages, the place of record data of the target FoO, and whether the target is compressed.
const TARGETS: [(&[u8], usize, bool); 3] = [
    (b"\x03FoO\x00\x00\x01\xc0\x00", 5, true),
    (b"\x03FoO\x00\x00\x01\x03FoO\x00", 5, false),
    (b"\x00\x00\x01\x03FoO\xc0\x00", 1, true),
];

/// Whether the target of the record data at a place is FoO, compressed or not as is said, and is printed uncompressed.
fn is_target(
    alloc: Global,
    message: &[u8],
    start: usize,
    is_compressed: bool,
) -> Result<bool, ParseError> {
    let mut parser = Parser::from_ref(message);
    parser.seek(start)?;
    let found: SvcbRef<'_, SvcbVariant> = SvcbRef::parse(&mut parser)?;
    let owned = found.to_owned_data(alloc)?;
    let is_same = owned.target().as_slice() == b"\x03FoO\x00".as_slice();
    let is_text = is_printed(alloc, &found, "1 FoO. ")?;
    Ok(is_same && is_text && found.target().is_compressed() == is_compressed)
}

#[test]
fn a_compressed_target_shows(rt: HostRuntime) {
    for (message, start, is_compressed) in &TARGETS {
        let is_target = is_target(rt.alloc(), message, *start, *is_compressed);
        assert_eq!(rt; is_target, Ok(true), "{message:?}");
    }
}

/// A name of five octets, and record data with a pointer to it and one value of `len` octets: `len` + 8 octets, and 3
/// more uncompressed.
fn long_message(alloc: Global, len: u16) -> Result<Vec<u8>, NoMemory> {
    let mut message = Vec::from_slice(alloc, b"\x03foo\x00\x00\x01\xc0\x00\x00\x07")?;
    message.extend_from_slice(&len.to_be_bytes())?;
    message.extend_from_slice(&vec![in alloc; 0u8; usize::from(len)]?)?;
    Ok(message)
}

/// The fault of record data of so long a value, if it has one.
fn fault_of(alloc: Global, len: u16) -> Result<Option<ParseError>, ParseError> {
    let message = long_message(alloc, len)?;
    let mut parser = Parser::from_ref(&message);
    parser.seek(5)?;
    let found: Result<SvcbRef<'_, SvcbVariant>, ParseError> = SvcbRef::parse(&mut parser);
    Ok(found.err())
}

#[test]
fn record_data_has_65_535_octets_at_most_uncompressed(rt: HostRuntime) {
    assert_eq!(rt; fault_of(rt.alloc(), 65524), Ok(None));
    assert_eq!(rt; fault_of(rt.alloc(), 65525), Ok(Some(ParseError::Form)));
}

/// The root, 255 pointers, each to what stands before it, and record data whose target is a pointer to the pointer at
/// place 256 + `low`.
fn chain_of_pointers(low: u8) -> [u8; 515] {
    let mut message = [0; 515];
    for index in 0..255usize {
        let target = (2 * index).saturating_sub(1);
        message[2 * index + 1] = 0xc0 + (target / 256) as u8;
        message[2 * index + 2] = (target % 256) as u8;
    }
    message[512] = 1;
    message[513] = 0xc1;
    message[514] = low;
    message
}

/// What reading record data gives: the count of its target's octets, or its fault; and what rebuilding it gives: the
/// count of all octets, or the refusal.
type Lens = (Result<u16, ParseError>, Result<usize, RebuildError>);

/// What reading and rebuilding the record data from a place on give.
fn lens_at(alloc: Global, message: &[u8], start: usize) -> Result<Lens, ParseError> {
    let mut parser = Parser::from_ref(message);
    parser.seek(start)?;
    let len = parser.remaining();
    let found: Result<SvcbRef<'_, SvcbVariant>, ParseError> = SvcbRef::parse(&mut parser);
    let rebuilt = rebuild_svcb(alloc, message, start, len, &[], 0);
    Ok((
        found.map(|found| found.target().compose_len()),
        rebuilt.map(|done| done.octets.len()),
    ))
}

/// What both give where the target has a fault of form.
const REFUSED: Lens = (
    Err(ParseError::Form),
    Err(RebuildError::Parse(ParseError::Form)),
);

#[test]
fn targets_have_255_pointers_at_most(rt: HostRuntime) {
    // the last pointer but one stands at place 507, and the last at place 509
    let message = chain_of_pointers(0xfb);
    assert!(rt; lens_at(rt.alloc(), &message, 511) == Ok((Ok(1), Ok(3))));
    let message = chain_of_pointers(0xfd);
    assert!(rt; lens_at(rt.alloc(), &message, 511) == Ok(REFUSED));
}

#[test]
fn targets_have_255_octets_at_most(rt: HostRuntime) {
    // a priority, and labels of 63 octets, each of them 63 too
    let mut data = [63; 258];
    data[194] = 62;
    data[257] = 0;
    assert!(rt; lens_at(rt.alloc(), &data, 0) == Ok(REFUSED));
    data[194] = 61;
    data[256] = 0;
    assert!(rt; lens_at(rt.alloc(), &data[..257], 0) == Ok((Ok(255), Ok(257))));
}
