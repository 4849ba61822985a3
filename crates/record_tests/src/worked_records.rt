//! Record data in octets, as text and laid out.

use crate::printed::is_printed;
use digest_rdata::{
    AssociationData, AssociationFields, Cds, CdsFields, SshfpFields, TlsaFields, ZonemdFields,
};
use dns_text::{Entry, EntryScanner, Scanner, display_zonefile};
use key_rdata::{CdnskeyFields, OpenpgpkeyFields};
use key_registry::{DigestAlgorithm, SecurityAlgorithm};
use std::alloc::Global;
use text_spec::{DisplayKind, ScanError};
use wire_base::{
    ComposeRecordData, Octets, ParseError, ParseRecordData, Parser, RecordData, Rtype,
};

/// A text, the octets that it is, and how the data is printed and laid out.
struct Row {
    text: &'static [u8],
    octets: &'static [u8],
    printed: &'static str,
    multiline: &'static [u8],
}

const CDS: Row = Row {
    text: b"10 5 2 6b6579",
    octets: b"\x00\x0a\x05\x02key",
    printed: "10 5 2 6b6579",
    multiline: b"( 10 ; key tag\n\t5 ; algorithm: RSASHA1\n\t2 ; digest type: SHA-256\n\t6B6579 )",
};

const CDNSKEY: Row = Row {
    text: b"10 11 5 a2V5",
    octets: b"\x00\x0a\x0b\x05key",
    printed: "10 11 5 a2V5",
    multiline: b"( 10 11 5 ; algorithm: RSASHA1\n\ta2V5 )",
};

const SSHFP: Row = Row {
    text: b"1 1 ( 73d3fa022a121062 580431316bfe5d56 653b91c2 )",
    octets: b"\x01\x01\x73\xd3\xfa\x02\x2a\x12\x10\x62\x58\x04\x31\x31\x6b\xfe\x5d\x56\
        \x65\x3b\x91\xc2",
    printed: "1 1 ( 73D3FA022A121062580431316BFE5D56653B91C2 )",
    multiline: b"( 1 1 73D3FA022A121062580431316BFE5D56653B91C2 )",
};

const TLSA: Row = Row {
    text: b"0 0 1 ( d2abde24\n0d7cd3ee )",
    octets: b"\x00\x00\x01\xd2\xab\xde\x24\x0d\x7c\xd3\xee",
    printed: "0 0 1 ( D2ABDE240D7CD3EE )",
    multiline: b"( 0 0 ; selector: Cert\n\t1 ; matching type: SHA2-256\n\tD2ABDE240D7CD3EE )",
};

const ZONEMD: Row = Row {
    text: b"2018031900 1 1 00112233445566778899aabb",
    octets: b"\x78\x48\xb9\x1c\x01\x01\x00\x11\x22\x33\x44\x55\x66\x77\x88\x99\xaa\xbb",
    printed: "2018031900 1 1 ( 00112233445566778899AABB )",
    multiline: b"( 2018031900 1 ; scheme: SIMPLE\n\t1 ; hash algorithm: SHA384\n\t\
        00112233445566778899AABB )",
};

const OPENPGPKEY: Row = Row {
    text: b"a2V5",
    octets: b"key",
    printed: "( a2V5 )",
    multiline: b"( a2V5 )",
};

/// The data of the one entry of a text.
fn scanned<F: AssociationFields>(
    alloc: Global,
    text: &[u8],
) -> Result<AssociationData<F>, ScanError> {
    let entry = Entry::from_text(text)?;
    let mut scanner = EntryScanner::new(entry);
    let found = AssociationData::scan(alloc, &mut scanner)?;
    scanner.check_end()?;
    Ok(found)
}

/// Whether a text is scanned as the row's data, and so is the text that is printed.
fn is_scanned<F: AssociationFields>(alloc: Global, row: &Row) -> Result<bool, ScanError> {
    let found = scanned::<F>(alloc, row.text)?;
    let printed = format!(in alloc; "{found}")?;
    let again = scanned::<F>(alloc, printed.as_bytes())?;
    let mut target = Vec::new(alloc);
    found.compose_rdata(&mut target)?;
    again.compose_canonical_rdata(&mut target)?;
    let multiline = display_zonefile(alloc, &found, DisplayKind::Multiline)?;
    let (first, second) = target.as_slice().split_at(target.len() / 2);
    Ok(
        is_printed(alloc, &found, row.printed)?
            && first == row.octets
            && second == row.octets
            && found == again
            && multiline.as_slice() == row.multiline,
    )
}

#[test]
fn texts_are_scanned_and_printed(rt: HostRuntime) {
    assert!(rt; is_scanned::<CdsFields>(rt.alloc(), &CDS) == Ok(true));
    assert!(rt; is_scanned::<CdnskeyFields>(rt.alloc(), &CDNSKEY) == Ok(true));
    assert!(rt; is_scanned::<SshfpFields>(rt.alloc(), &SSHFP) == Ok(true));
    assert!(rt; is_scanned::<TlsaFields>(rt.alloc(), &TLSA) == Ok(true));
    assert!(rt; is_scanned::<ZonemdFields>(rt.alloc(), &ZONEMD) == Ok(true));
    assert!(rt; is_scanned::<OpenpgpkeyFields>(rt.alloc(), &OPENPGPKEY) == Ok(true));
}

/// Whether the row's octets are read as data of a type, and of no other.
fn is_read<F: AssociationFields>(
    alloc: Global,
    rtype: Rtype,
    row: &Row,
) -> Result<bool, ParseError> {
    let mut parser = Parser::from_ref(row.octets);
    let other = AssociationData::<F>::parse_rdata(alloc, Rtype::A, &mut parser)?;
    let place = parser.pos();
    let Some(found) = AssociationData::<F>::parse_rdata(alloc, rtype, &mut parser)? else {
        return Ok(false);
    };
    let copy = found.try_clone(alloc)?;
    let mut target = Vec::new(alloc);
    copy.compose_rdata(&mut target)?;
    Ok(
        other.is_none()
            && place == 0
            && parser.remaining() == 0
            && copy.rtype() == rtype
            && copy.rdlen(false).map(usize::from) == Some(row.octets.len())
            && target.as_slice() == row.octets,
    )
}

#[test]
fn octets_are_read(rt: HostRuntime) {
    assert!(rt; is_read::<CdsFields>(rt.alloc(), Rtype::from_int(59), &CDS) == Ok(true));
    assert!(rt; is_read::<CdnskeyFields>(rt.alloc(), Rtype::from_int(60), &CDNSKEY) == Ok(true));
    assert!(rt; is_read::<SshfpFields>(rt.alloc(), Rtype::from_int(44), &SSHFP) == Ok(true));
    assert!(rt; is_read::<TlsaFields>(rt.alloc(), Rtype::from_int(52), &TLSA) == Ok(true));
    assert!(rt; is_read::<ZonemdFields>(rt.alloc(), Rtype::from_int(63), &ZONEMD) == Ok(true));
    assert!(rt;
        is_read::<OpenpgpkeyFields>(rt.alloc(), Rtype::from_int(61), &OPENPGPKEY) == Ok(true)
    );
}

/// The first fault of a text, if it has one.
fn fault<F: AssociationFields>(alloc: Global, text: &[u8]) -> Option<ScanError> {
    scanned::<F>(alloc, text).err()
}

#[test]
fn texts_with_faults_are_refused(rt: HostRuntime) {
    assert!(rt; fault::<CdsFields>(rt.alloc(), b"10 5") == Some(ScanError::EndOfEntry));
    assert!(rt; fault::<CdsFields>(rt.alloc(), b"65536 5 2") == Some(ScanError::BadNumber));
    assert!(rt; fault::<CdsFields>(rt.alloc(), b"10 256 2") == Some(ScanError::BadNumber));
    assert!(rt; fault::<SshfpFields>(rt.alloc(), b"1 1 123") == Some(ScanError::BadBase16));
    assert!(rt; fault::<ZonemdFields>(rt.alloc(), b"4294967296 1 1") == Some(ScanError::BadNumber));
    assert!(rt; fault::<CdnskeyFields>(rt.alloc(), b"10 11 5 a2V") == Some(ScanError::BadBase64));
}

/// ZONEMD data with a digest of 11 octets.
const SHORT_ZONEMD: &[u8] = b"\x78\x48\xb9\x1c\x01\x01\x00\x11\x22\x33\x44\x55\x66\x77\x88\x99\xaa";

/// Whether these are the octets of the data of a text.
fn is_composed<F: AssociationFields>(
    alloc: Global,
    text: &[u8],
    octets: &[u8],
) -> Result<bool, ScanError> {
    let mut target = Vec::new(alloc);
    scanned::<F>(alloc, text)?.compose_rdata(&mut target)?;
    Ok(target.as_slice() == octets)
}

#[test]
fn a_digest_may_be_short_or_missing_as_text(rt: HostRuntime) {
    let text: &[u8] = b"2023092203 1 241 CDBE0DED94844904";
    let octets: &[u8] = b"\x78\x95\xef\xeb\x01\xf1\xcd\xbe\x0d\xed\x94\x84\x49\x04";
    assert!(rt; is_composed::<ZonemdFields>(rt.alloc(), text, octets) == Ok(true));
    let text: &[u8] = b"2018031900 1 1 00112233445566778899aa";
    assert!(rt; is_composed::<ZonemdFields>(rt.alloc(), text, SHORT_ZONEMD) == Ok(true));
    let octets: &[u8] = b"\x00\x00\x01\xd2\xab";
    assert!(rt; is_composed::<TlsaFields>(rt.alloc(), b"0 0 1 d2ab", octets) == Ok(true));
    assert!(rt; is_composed::<TlsaFields>(rt.alloc(), b"3 1 1", b"\x03\x01\x01") == Ok(true));
    assert!(rt; is_composed::<OpenpgpkeyFields>(rt.alloc(), b"", b"") == Ok(true));
}

/// Whether the data of a text is that of its fields.
fn is_made(alloc: Global) -> Result<bool, ScanError> {
    let found = scanned::<CdsFields>(alloc, b"10 5 2 6b6579")?;
    let key = Octets::from_slice(alloc, b"key")?;
    let made = Cds::new(10, SecurityAlgorithm::RSASHA1, DigestAlgorithm::SHA256, key);
    Ok(made.is_ok_and(|made| made == found))
}

#[test]
fn a_text_is_the_data_of_its_fields(rt: HostRuntime) {
    assert!(rt; is_made(rt.alloc()) == Ok(true));
}

/// Why octets are no data, and whether the parser stayed.
fn unread<F: AssociationFields>(alloc: Global, octets: &[u8]) -> Option<(ParseError, bool)> {
    let mut parser = Parser::from_ref(octets);
    let error = AssociationData::<F>::parse(alloc, &mut parser).err()?;
    Some((error, parser.pos() == 0))
}

#[test]
fn short_octets_are_refused(rt: HostRuntime) {
    let short = Some((ParseError::ShortInput, true));
    assert!(rt; unread::<CdsFields>(rt.alloc(), b"\x00\x0a\x05") == short);
    assert!(rt; unread::<SshfpFields>(rt.alloc(), b"\x01") == short);
    assert!(rt; unread::<ZonemdFields>(rt.alloc(), SHORT_ZONEMD) == short);
}
