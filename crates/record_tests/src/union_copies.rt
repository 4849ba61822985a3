//! Data of any type, its copies, and its octets.

use crate::record_copies::is_kept;
use rdata_union::{AllRecordData, ZoneRecordData};
use std::alloc::Global;
use wire_base::{ComposeRecordData, NoMemory, ParseError, ParseRecordData, Parser, Rtype};
use wire_records::UnknownRecordData;

/// Data of any type.
trait AnyData: ParseRecordData + ComposeRecordData + From<UnknownRecordData> + PartialEq {
    /// A copy.
    fn copied(&self, alloc: Global) -> Result<Self, NoMemory>;
}

impl AnyData for AllRecordData {
    fn copied(&self, alloc: Global) -> Result<AllRecordData, NoMemory> {
        self.try_clone(alloc)
    }
}

impl AnyData for ZoneRecordData {
    fn copied(&self, alloc: Global) -> Result<ZoneRecordData, NoMemory> {
        self.try_clone(alloc)
    }
}

/// Whether octets are read under a type number as data, which is kept.
fn is_read<D: AnyData>(alloc: Global, rtype: u16, octets: &[u8]) -> Result<bool, ParseError> {
    let mut parser = Parser::from_ref(octets);
    match D::parse_rdata(alloc, Rtype::from_int(rtype), &mut parser)? {
        Some(data) => Ok(is_kept(alloc, &data, &data.copied(alloc)?, octets)?),
        None => Ok(false),
    }
}

/// Type numbers, and octets of their data.
const ROWS: [(u16, &[u8]); 13] = [
    (1, b"\xc0\x00\x02\x01"),
    (28, b"\x20\x01\x0d\xb9\0\0\0\0\0\0\0\0\x00\x12\x00\x13"),
    (
        44,
        b"\x01\x01\x73\xd3\xfa\x02\x2a\x12\x10\x62\x58\x04\x31\x31\x6b\xfe\x5d\x56\x65\x3b\x91\xc2",
    ),
    (45, b"\x0a\x00\x00"),
    (45, b"\x0a\x03\x00\x01\x61\x00"),
    (52, b"\x00\x00\x01\xd2\xab"),
    (59, b"\x00\x0a\x05\x02key"),
    (60, b"\x00\x0a\x0b\x05key"),
    (61, b"key"),
    (
        63,
        b"\x78\x48\xb9\x1c\x01\x01\x00\x11\x22\x33\x44\x55\x66\x77\x88\x99\xaa\xbb",
    ),
    (64, b"\x00\x01\x03foo\x00"),
    (65, b"\x00\x01\x03foo\x00"),
    (999, b"\x0a\x0b\x0c"),
];

#[test]
fn data_of_any_type_is_copied_and_composed(rt: HostRuntime) {
    for (rtype, octets) in &ROWS {
        let is_all = is_read::<AllRecordData>(rt.alloc(), *rtype, octets);
        assert!(rt; is_all == Ok(true), "{rtype}");
        let is_zone = is_read::<ZoneRecordData>(rt.alloc(), *rtype, octets);
        assert!(rt; is_zone == Ok(true), "{rtype}");
    }
}

/// Whether octets that are held under a type number are kept.
fn is_held<D: AnyData>(alloc: Global, rtype: u16, octets: &[u8]) -> Result<bool, ParseError> {
    let rtype = Rtype::from_int(rtype);
    let held = UnknownRecordData::parse(alloc, rtype, &mut Parser::from_ref(octets))?;
    let data = D::from(held);
    Ok(is_kept(alloc, &data, &data.copied(alloc)?, octets)?)
}

#[test]
fn octets_of_any_type_are_copied_and_composed(rt: HostRuntime) {
    let alloc = rt.alloc();
    assert!(rt; is_held::<AllRecordData>(alloc, 64, b"\x00\x01\x00") == Ok(true));
    assert!(rt; is_held::<AllRecordData>(alloc, 999, b"\x0a\x0b\x0c") == Ok(true));
    assert!(rt; is_held::<ZoneRecordData>(alloc, 64, b"\x00\x01\x00") == Ok(true));
    assert!(rt; is_held::<ZoneRecordData>(alloc, 999, b"\x0a\x0b\x0c") == Ok(true));
}
