//! A row for each type: its text, its octets and what is printed.

use crate::printed::is_printed;
use dns_text::{Entry, EntryScanner, ZonefileFmt, display_zonefile};
use rdata_union::{AllRecordData, ZoneRecordData};
use std::alloc::Global;
use std::fmt::Display;
use text_spec::{DisplayKind, ScanError};
use wire_base::{
    ComposeRecordData, NoMemory, ParseError, ParseRecordData, Parser, RecordData, Rtype,
};

/// A type number, a text, the octets that it is, and how the data is printed and laid out.
struct Row {
    rtype: u16,
    text: &'static [u8],
    octets: &'static [u8],
    printed: &'static str,
    simple: &'static [u8],
}

const ROWS: [Row; 12] = [
    Row {
        rtype: 1,
        text: b"192.0.2.1",
        octets: b"\xc0\x00\x02\x01",
        printed: "192.0.2.1",
        simple: b"192.0.2.1",
    },
    Row {
        rtype: 28,
        text: b"2001:db9::12:13",
        octets: b"\x20\x01\x0d\xb9\x00\x00\x00\x00\x00\x00\x00\x00\x00\x12\x00\x13",
        printed: "2001:db9::12:13",
        simple: b"2001:db9::12:13",
    },
    Row {
        rtype: 44,
        text: b"1 1 ( 73d3fa022a121062 580431316bfe5d56 653b91c2 )",
        octets: b"\x01\x01\x73\xd3\xfa\x02\x2a\x12\x10\x62\x58\x04\x31\x31\x6b\xfe\x5d\x56\x65\x3b\x91\xc2",
        printed: "1 1 ( 73D3FA022A121062580431316BFE5D56653B91C2 )",
        simple: b"1 1 73D3FA022A121062580431316BFE5D56653B91C2",
    },
    Row {
        rtype: 45,
        text: b"10 0 0 .",
        octets: b"\x0a\x00\x00",
        printed: "10 0 0 . (  )",
        simple: b"10 0 0 .",
    },
    Row {
        rtype: 52,
        text: b"0 0 1 d2ab",
        octets: b"\x00\x00\x01\xd2\xab",
        printed: "0 0 1 ( D2AB )",
        simple: b"0 0 1 D2AB",
    },
    Row {
        rtype: 59,
        text: b"10 5 2 6b6579",
        octets: b"\x00\x0a\x05\x02key",
        printed: "10 5 2 6b6579",
        simple: b"10 5 2 6B6579",
    },
    Row {
        rtype: 60,
        text: b"10 11 5 a2V5",
        octets: b"\x00\x0a\x0b\x05key",
        printed: "10 11 5 a2V5",
        simple: b"10 11 5 a2V5",
    },
    Row {
        rtype: 61,
        text: b"a2V5",
        octets: b"key",
        printed: "( a2V5 )",
        simple: b"a2V5",
    },
    Row {
        rtype: 63,
        text: b"2018031900 1 1 00112233445566778899aabb",
        octets: b"\x78\x48\xb9\x1c\x01\x01\x00\x11\x22\x33\x44\x55\x66\x77\x88\x99\xaa\xbb",
        printed: "2018031900 1 1 ( 00112233445566778899AABB )",
        simple: b"2018031900 1 1 00112233445566778899AABB",
    },
    Row {
        rtype: 64,
        text: b"16 foo.example.com. port=53",
        octets: b"\x00\x10\x03foo\x07example\x03com\x00\x00\x03\x00\x02\x00\x35",
        printed: "16 foo.example.com. port=53",
        simple: b"16 foo.example.com. port=53",
    },
    Row {
        rtype: 65,
        text: b"0 foo.example.com.",
        octets: b"\x00\x00\x03foo\x07example\x03com\x00",
        printed: "0 foo.example.com. ",
        simple: b"0 foo.example.com.",
    },
    Row {
        rtype: 999,
        text: b"\\# 3 0A0b0c",
        octets: b"\x0a\x0b\x0c",
        printed: "\\# 3 0A0B0C",
        simple: b"\\# 3 0A0B0C",
    },
];

/// Data that is scanned.
trait ScannedData: ComposeRecordData + Display + Drop + PartialEq + Sized + ZonefileFmt {
    /// The data that all tokens left spell under the number of its type.
    fn scanned(alloc: Global, rtype: Rtype, scanner: &mut EntryScanner) -> Result<Self, ScanError>;
}

impl ScannedData for ZoneRecordData {
    fn scanned(
        alloc: Global,
        rtype: Rtype,
        scanner: &mut EntryScanner,
    ) -> Result<ZoneRecordData, ScanError> {
        ZoneRecordData::scan(alloc, rtype, scanner)
    }
}

/// The data of the one entry of a text.
fn scanned<D: ScannedData>(alloc: Global, rtype: u16, text: &[u8]) -> Result<D, ScanError> {
    let entry = Entry::from_text(text)?;
    let mut scanner = EntryScanner::new(entry);
    D::scanned(alloc, Rtype::from_int(rtype), &mut scanner)
}

/// Whether data of the row's type has the row's octets.
fn has_octets<D: ComposeRecordData>(alloc: Global, found: &D, row: &Row) -> Result<bool, NoMemory> {
    let mut target = Vec::new(alloc);
    found.compose_rdata(&mut target)?;
    Ok(found.rtype().to_int() == row.rtype && target.as_slice() == row.octets)
}

/// Whether the text is scanned as the row's octets, and the data printed and laid out as the row says.
fn is_scanned<D: ScannedData>(alloc: Global, row: &Row) -> Result<bool, ScanError> {
    let found: D = scanned(alloc, row.rtype, row.text)?;
    let printed = format!(in alloc; "{found}")?;
    let simple = display_zonefile(alloc, &found, DisplayKind::Simple)?;
    let again: D = scanned(alloc, row.rtype, printed.as_bytes())?;
    Ok(
        has_octets(alloc, &found, row)?
            && is_printed(alloc, &found, row.printed)?
            && simple.as_slice() == row.simple
            && found == again,
    )
}

/// Whether each text is scanned so.
fn are_scanned(alloc: Global) -> Result<bool, ScanError> {
    let mut are = true;
    for row in &ROWS {
        are = are && is_scanned::<ZoneRecordData>(alloc, row)?;
    }
    Ok(are)
}

#[test]
fn texts_are_scanned_and_printed(rt: HostRuntime) {
    assert!(rt; are_scanned(rt.alloc()) == Ok(true));
}

/// The type number whose variant the data is; none for octets.
fn variant(found: &AllRecordData) -> Option<u16> {
    match found {
        AllRecordData::A(_) => Some(1),
        AllRecordData::Aaaa(_) => Some(28),
        AllRecordData::Sshfp(_) => Some(44),
        AllRecordData::Ipseckey(_) => Some(45),
        AllRecordData::Tlsa(_) => Some(52),
        AllRecordData::Cds(_) => Some(59),
        AllRecordData::Cdnskey(_) => Some(60),
        AllRecordData::Openpgpkey(_) => Some(61),
        AllRecordData::Zonemd(_) => Some(63),
        AllRecordData::Svcb(_) => Some(64),
        AllRecordData::Https(_) => Some(65),
        AllRecordData::Unknown(_) => None,
    }
}

/// Whether the row's octets are read as the data, which has them.
fn is_same<D: ComposeRecordData + ParseRecordData + PartialEq>(
    alloc: Global,
    data: &D,
    row: &Row,
) -> Result<bool, ParseError> {
    let mut parser = Parser::from_ref(row.octets);
    match D::parse_rdata(alloc, Rtype::from_int(row.rtype), &mut parser)? {
        Some(found) => Ok(found == *data && has_octets(alloc, &found, row)?),
        None => Ok(false),
    }
}

/// Whether the row's octets are read as the variant of the row's number, by both types.
fn is_read(alloc: Global, row: &Row) -> Result<bool, ParseError> {
    let mut parser = Parser::from_ref(row.octets);
    let rtype = Rtype::from_int(row.rtype);
    let found = AllRecordData::parse_any_rdata(alloc, rtype, &mut parser)?;
    let is_unknown = row.rtype == 999;
    let is_variant = match variant(&found) {
        Some(number) => number == row.rtype,
        None => is_unknown,
    };
    let is_shown = is_printed(alloc, &found, row.printed)?;
    let zone = found.into_zone_data();
    Ok(is_variant && is_shown && parser.remaining() == 0 && is_same(alloc, &zone, row)?)
}

/// Whether all octets are read so.
fn are_read(alloc: Global) -> Result<bool, ParseError> {
    let mut are = true;
    for row in &ROWS {
        are = are && is_read(alloc, row)?;
    }
    Ok(are)
}

#[test]
fn a_number_has_its_variant(rt: HostRuntime) {
    assert!(rt; are_read(rt.alloc()) == Ok(true));
}
