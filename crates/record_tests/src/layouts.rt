//! Data of each type of record, laid out in each kind.

use digest_rdata::{Cds, Sshfp, Tlsa, Zonemd};
use dns_text::{ZonefileFmt, display_zonefile};
use key_rdata::{Cdnskey, Ipseckey, Openpgpkey};
use rdata_union::{AllRecordData, ZoneRecordData};
use std::alloc::Global;
use svcb_rdata::{Https, Svcb};
use text_spec::DisplayKind;
use wire_base::{NoMemory, ParseError, ParseRecordData, Parser, Rtype};
use wire_records::{A, Aaaa, UnknownRecordData};

/// A type number, octets of its data, and how that is laid out.
struct Row {
    rtype: u16,
    octets: &'static [u8],
    simple: &'static [u8],
    tabbed: &'static [u8],
    multiline: &'static [u8],
}

/// Whether data is laid out as the row says.
fn is_laid_out<D: ZonefileFmt>(alloc: Global, data: &D, row: &Row) -> Result<bool, NoMemory> {
    let simple = display_zonefile(alloc, data, DisplayKind::Simple)?;
    let tabbed = display_zonefile(alloc, data, DisplayKind::Tabbed)?;
    let multiline = display_zonefile(alloc, data, DisplayKind::Multiline)?;
    Ok(
        simple.as_slice() == row.simple
            && tabbed.as_slice() == row.tabbed
            && multiline.as_slice() == row.multiline,
    )
}

/// Whether the row's octets are read as data that is laid out so.
fn is_read<D: ParseRecordData + ZonefileFmt>(alloc: Global, row: &Row) -> Result<bool, ParseError> {
    let mut parser = Parser::from_ref(row.octets);
    match D::parse_rdata(alloc, Rtype::from_int(row.rtype), &mut parser)? {
        Some(data) => Ok(is_laid_out(alloc, &data, row)?),
        None => Ok(false),
    }
}

const CDS: Row = Row {
    rtype: 59,
    octets: b"\x00\x0a\x05\x02key",
    simple: b"10 5 2 6B6579",
    tabbed: b"10\t5\t2\t6B6579",
    multiline: b"( 10 ; key tag\n\t5 ; algorithm: RSASHA1\n\t2 ; digest type: SHA-256\n\t6B6579 )",
};

const CDNSKEY: Row = Row {
    rtype: 60,
    octets: b"\x00\x0a\x0b\x05key",
    simple: b"10 11 5 a2V5",
    tabbed: b"10\t11\t5\ta2V5",
    multiline: b"( 10 11 5 ; algorithm: RSASHA1\n\ta2V5 )",
};

const SSHFP: Row = Row {
    rtype: 44,
    octets: b"\x01\x01\x73\xd3\xfa\x02\x2a\x12\x10\x62\x58\x04\x31\x31\x6b\xfe\x5d\x56\x65\x3b\x91\xc2",
    simple: b"1 1 73D3FA022A121062580431316BFE5D56653B91C2",
    tabbed: b"1\t1\t73D3FA022A121062580431316BFE5D56653B91C2",
    multiline: b"( 1 1 73D3FA022A121062580431316BFE5D56653B91C2 )",
};

const TLSA: Row = Row {
    rtype: 52,
    octets: b"\x00\x00\x01\xd2\xab",
    simple: b"0 0 1 D2AB",
    tabbed: b"0\t0\t1\tD2AB",
    multiline: b"( 0 0 ; selector: Cert\n\t1 ; matching type: SHA2-256\n\tD2AB )",
};

const ZONEMD: Row = Row {
    rtype: 63,
    octets: b"\x78\x48\xb9\x1c\x01\x01\x00\x11\x22\x33\x44\x55\x66\x77\x88\x99\xaa\xbb",
    simple: b"2018031900 1 1 00112233445566778899AABB",
    tabbed: b"2018031900\t1\t1\t00112233445566778899AABB",
    multiline: b"( 2018031900 1 ; scheme: SIMPLE\n\t1 ; hash algorithm: SHA384\n\t00112233445566778899AABB )",
};

const OPENPGPKEY: Row = Row {
    rtype: 61,
    octets: b"key",
    simple: b"a2V5",
    tabbed: b"a2V5",
    multiline: b"( a2V5 )",
};

/// Whether digests are laid out so.
fn are_digests(alloc: Global) -> Result<bool, ParseError> {
    Ok(
        is_read::<Cds>(alloc, &CDS)?
            && is_read::<Sshfp>(alloc, &SSHFP)?
            && is_read::<Tlsa>(alloc, &TLSA)?
            && is_read::<Zonemd>(alloc, &ZONEMD)?,
    )
}

/// Whether keys are laid out so.
fn are_keys(alloc: Global) -> Result<bool, ParseError> {
    Ok(is_read::<Cdnskey>(alloc, &CDNSKEY)? && is_read::<Openpgpkey>(alloc, &OPENPGPKEY)?)
}

#[test]
fn digests_and_keys_are_laid_out(rt: HostRuntime) {
    assert!(rt; are_digests(rt.alloc()) == Ok(true));
    assert!(rt; are_keys(rt.alloc()) == Ok(true));
}

/// Data without a gateway and without a key.
const NO_GATEWAY: Row = Row {
    rtype: 45,
    octets: b"\x0a\x00\x00",
    simple: b"10 0 0 .",
    tabbed: b"10\t0\t0\t.",
    multiline: b"( 10 ; precedence\n\t0 ; ipseckey gateway type: NONE\n\t; gateway type\n\t0 ; ipseckey algorithm: NONE\n\t; algorithm\n\t. ; gateway\n\t)",
};

/// Data with a name as its gateway, and without a key.
const GATEWAY: Row = Row {
    rtype: 45,
    octets: b"\x0a\x03\x00\x01\x61\x00",
    simple: b"10 3 0 a.",
    tabbed: b"10\t3\t0\ta.",
    multiline: b"( 10 ; precedence\n\t3 ; ipseckey gateway type: NAME\n\t; gateway type\n\t0 ; ipseckey algorithm: NONE\n\t; algorithm\n\ta. ; gateway\n\t)",
};

const ADDRESS: Row = Row {
    rtype: 1,
    octets: b"\xc0\x00\x02\x01",
    simple: b"192.0.2.1",
    tabbed: b"192.0.2.1",
    multiline: b"192.0.2.1",
};

const LONG_ADDRESS: Row = Row {
    rtype: 28,
    octets: b"\x20\x01\x0d\xb9\0\0\0\0\0\0\0\0\x00\x12\x00\x13",
    simple: b"2001:db9::12:13",
    tabbed: b"2001:db9::12:13",
    multiline: b"2001:db9::12:13",
};

/// Whether gateways and addresses are laid out so.
fn are_hosts(alloc: Global) -> Result<bool, ParseError> {
    Ok(
        is_read::<Ipseckey>(alloc, &NO_GATEWAY)?
            && is_read::<Ipseckey>(alloc, &GATEWAY)?
            && is_read::<A>(alloc, &ADDRESS)?
            && is_read::<Aaaa>(alloc, &LONG_ADDRESS)?,
    )
}

const SVCB: Row = Row {
    rtype: 64,
    octets: b"\x00\x01\x03foo\x00",
    simple: b"1 foo.",
    tabbed: b"1\tfoo.",
    multiline: b"( 1 ; priority\n\tfoo. ; target\n\t( ) )",
};

const HTTPS: Row = Row {
    rtype: 65,
    octets: b"\x00\x01\x00\x00\x03\x00\x02\x00\x35",
    simple: b"1 . port=53",
    tabbed: b"1\t.\tport=53",
    multiline: b"( 1 ; priority\n\t. ; target\n\t( port=53 ) )",
};

/// Whether services are laid out so.
fn are_services(alloc: Global) -> Result<bool, ParseError> {
    Ok(is_read::<Svcb>(alloc, &SVCB)? && is_read::<Https>(alloc, &HTTPS)?)
}

#[test]
fn hosts_and_services_are_laid_out(rt: HostRuntime) {
    assert!(rt; are_hosts(rt.alloc()) == Ok(true));
    assert!(rt; are_services(rt.alloc()) == Ok(true));
}

const UNKNOWN: Row = Row {
    rtype: 999,
    octets: b"\x0a\x0b\x0c",
    simple: b"\\# 3 0A0B0C",
    tabbed: b"\\#\t3\t0A0B0C",
    multiline: b"\\# 3 0A0B0C",
};

/// Octets under the number of a type that has fields.
const HELD: Row = Row {
    rtype: 64,
    octets: b"\x00\x01\x00",
    simple: b"\\# 3 000100",
    tabbed: b"\\#\t3\t000100",
    multiline: b"\\# 3 000100",
};

/// Whether octets that are held under a type number are laid out so.
fn is_unknown(alloc: Global, row: &Row) -> Result<bool, ParseError> {
    let mut parser = Parser::from_ref(row.octets);
    let held = UnknownRecordData::parse(alloc, Rtype::from_int(row.rtype), &mut parser)?;
    Ok(is_laid_out(alloc, &held, row)?)
}

/// Whether octets that are held under a type number are laid out so as data of any type.
fn is_held<D: From<UnknownRecordData> + ZonefileFmt + Drop>(
    alloc: Global,
    row: &Row,
) -> Result<bool, ParseError> {
    let mut parser = Parser::from_ref(row.octets);
    let held = UnknownRecordData::parse(alloc, Rtype::from_int(row.rtype), &mut parser)?;
    let data = D::from(held);
    Ok(is_laid_out(alloc, &data, row)?)
}

#[test]
fn octets_are_laid_out(rt: HostRuntime) {
    assert!(rt; is_unknown(rt.alloc(), &UNKNOWN) == Ok(true));
    assert!(rt; is_unknown(rt.alloc(), &HELD) == Ok(true));
    assert!(rt; is_held::<AllRecordData>(rt.alloc(), &HELD) == Ok(true));
    assert!(rt; is_held::<ZoneRecordData>(rt.alloc(), &HELD) == Ok(true));
}

/// The rows of data that is read.
const ROWS: [&Row; 13] = [
    &ADDRESS,
    &LONG_ADDRESS,
    &SSHFP,
    &NO_GATEWAY,
    &GATEWAY,
    &TLSA,
    &CDS,
    &CDNSKEY,
    &OPENPGPKEY,
    &ZONEMD,
    &SVCB,
    &HTTPS,
    &UNKNOWN,
];

#[test]
fn data_of_any_type_is_laid_out(rt: HostRuntime) {
    for row in &ROWS {
        assert!(rt;
            is_read::<AllRecordData>(rt.alloc(), row) == Ok(true),
            "{}",
            row.rtype
        );
        assert!(rt;
            is_read::<ZoneRecordData>(rt.alloc(), row) == Ok(true),
            "{}",
            row.rtype
        );
    }
}
