//! Places in a message, the limit on record data, and octets that are written over.

use std::alloc::Global;
use wire_base::{LongRecordData, NoMemory, Octets, Parser, ShortInput};

/// Six octets, of which a parser reads the first four.
const MESSAGE: &[u8; 6] = b"\x00\x01\x02\x03\x04\x05";

/// A parser at the second of four octets.
fn parser_at_1() -> Result<Parser<'static>, ShortInput> {
    let mut parser = Parser::from_ref(MESSAGE).parse_parser(4)?;
    parser.seek(1)?;
    Ok(parser)
}

/// Whether calls that reach behind the end are refused, and leave the parser at its place.
fn are_refused() -> Result<bool, ShortInput> {
    let mut parser = parser_at_1()?;
    let refusals = [
        parser.seek(5).err(),
        parser.advance(4).err(),
        parser.parse_octets(4).err(),
        parser.parse_parser(4).err(),
    ];
    Ok(refusals == [Some(ShortInput); 4] && parser.pos() == 1 && parser.remaining() == 3)
}

/// The places behind calls that reach up to the end.
fn places() -> Result<[usize; 5], ShortInput> {
    let (mut first, mut second) = (parser_at_1()?, parser_at_1()?);
    let (mut third, mut fourth) = (parser_at_1()?, parser_at_1()?);
    let mut fifth = parser_at_1()?;
    first.seek(4)?;
    second.advance(3)?;
    let _octets = third.parse_octets(3)?;
    let _part = fourth.parse_parser(3)?;
    fifth.advance_to_end();
    Ok([
        first.pos(),
        second.pos(),
        third.pos(),
        fourth.pos(),
        fifth.pos(),
    ])
}

#[test]
fn nothing_is_read_behind_the_end(rt: HostRuntime) {
    assert!(rt; are_refused() == Ok(true));
    assert!(rt; places() == Ok([4; 5]));
}

/// Whether octets are read behind one another, two of them in a part with its own end.
fn are_read_in_turn() -> Result<bool, ShortInput> {
    let mut parser = parser_at_1()?;
    let mut part = parser.parse_parser(2)?;
    let first = part.parse_octets(2)?;
    let last = parser.parse_octets(1)?;
    let are_read = first == b"\x01\x02".as_slice() && last == b"\x03".as_slice();
    Ok(are_read && part.remaining() == 0 && parser.remaining() == 0)
}

#[test]
fn octets_are_read_in_turn(rt: HostRuntime) {
    assert!(rt; are_read_in_turn() == Ok(true));
}

#[test]
fn record_data_has_65_535_octets_at_most(rt: HostRuntime) {
    assert_eq!(rt; LongRecordData::check_len(65535), Ok(()));
    assert_eq!(rt; LongRecordData::check_len(65536), Err(LongRecordData));
    assert_eq!(rt; LongRecordData::check_append_len(65534, 1), Ok(()));
    assert_eq!(rt;
        LongRecordData::check_append_len(65534, 2),
        Err(LongRecordData)
    );
    assert_eq!(rt;
        LongRecordData::check_append_len(1, usize::MAX),
        Err(LongRecordData)
    );
    assert_eq!(rt; LongRecordData::check_multi_len(&[65533, 1, 1]), Ok(()));
    assert_eq!(rt;
        LongRecordData::check_multi_len(&[65533, 1, 2]),
        Err(LongRecordData)
    );
}

/// Octets of which the first was written over.
fn written_over(alloc: Global) -> Result<Octets, NoMemory> {
    let mut octets = Octets::from_slice(alloc, b"abc")?;
    let lent = octets.as_slice_mut();
    if !lent.is_empty() {
        lent[0] = b'z';
    }
    Ok(octets)
}

#[test]
fn octets_are_written_in_place(rt: HostRuntime) {
    let octets = written_over(rt.alloc());
    assert!(rt; matches!(&octets, Ok(octets) if octets.as_slice() == b"zbc".as_slice()));
}
