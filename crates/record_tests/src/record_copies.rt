//! Data of each type of record, its copies, and its octets.

use digest_rdata::{AssociationData, AssociationFields, Cds, Sshfp, Tlsa, Zonemd};
use key_rdata::{Cdnskey, Ipseckey, IpseckeyGateway, Openpgpkey};
use key_registry::IpseckeyGatewayType;
use std::alloc::Global;
use svcb_rdata::{HttpsVariant, SvcVariant, SvcbRef, SvcbVariant};
use wire_base::{ComposeRecordData, NoMemory, ParseError, ParseRecordData, Parser, Rtype};
use wire_records::{A, Aaaa, UnknownRecordData};

/// Whether data is equal to its copy, and composed to octets in both forms.
pub(crate) fn is_kept<D: ComposeRecordData + PartialEq>(
    alloc: Global,
    data: &D,
    copy: &D,
    octets: &[u8],
) -> Result<bool, NoMemory> {
    let mut target = Vec::new(alloc);
    copy.compose_rdata(&mut target)?;
    let mut canonical = Vec::new(alloc);
    copy.compose_canonical_rdata(&mut canonical)?;
    Ok(*data == *copy && target.as_slice() == octets && canonical.as_slice() == octets)
}

// data of the records whose last field is a digest or a key
const CDS: &[u8] = b"\x00\x0a\x05\x02key";

const CDNSKEY: &[u8] = b"\x00\x0a\x0b\x05key";

const SSHFP: &[u8] =
    b"\x01\x01\x73\xd3\xfa\x02\x2a\x12\x10\x62\x58\x04\x31\x31\x6b\xfe\x5d\x56\x65\x3b\x91\xc2";

const TLSA: &[u8] = b"\x00\x00\x01\xd2\xab";

const ZONEMD: &[u8] = b"\x78\x48\xb9\x1c\x01\x01\x00\x11\x22\x33\x44\x55\x66\x77\x88\x99\xaa\xbb";

const OPENPGPKEY: &[u8] = b"key";

/// Whether data of such a record is kept, as what is read under its type number is.
fn are_fields<F: AssociationFields>(
    alloc: Global,
    data: &AssociationData<F>,
    rtype: u16,
    octets: &[u8],
) -> Result<bool, ParseError> {
    let mut parser = Parser::from_ref(octets);
    match AssociationData::parse_rdata(alloc, Rtype::from_int(rtype), &mut parser)? {
        Some(found) => Ok(*data == found && is_kept(alloc, data, &data.try_clone(alloc)?, octets)?),
        None => Ok(false),
    }
}

/// Whether data of a CDS record is kept.
fn is_cds(alloc: Global) -> Result<bool, ParseError> {
    let data = Cds::parse(alloc, &mut Parser::from_ref(CDS))?;
    are_fields(alloc, &data, 59, CDS)
}

/// Whether data of a CDNSKEY record is kept.
fn is_cdnskey(alloc: Global) -> Result<bool, ParseError> {
    let data = Cdnskey::parse(alloc, &mut Parser::from_ref(CDNSKEY))?;
    are_fields(alloc, &data, 60, CDNSKEY)
}

/// Whether data of an SSHFP record is kept.
fn is_sshfp(alloc: Global) -> Result<bool, ParseError> {
    let data = Sshfp::parse(alloc, &mut Parser::from_ref(SSHFP))?;
    are_fields(alloc, &data, 44, SSHFP)
}

/// Whether data of a TLSA record is kept.
fn is_tlsa(alloc: Global) -> Result<bool, ParseError> {
    let data = Tlsa::parse(alloc, &mut Parser::from_ref(TLSA))?;
    are_fields(alloc, &data, 52, TLSA)
}

/// Whether data of a ZONEMD record is kept.
fn is_zonemd(alloc: Global) -> Result<bool, ParseError> {
    let data = Zonemd::parse(alloc, &mut Parser::from_ref(ZONEMD))?;
    are_fields(alloc, &data, 63, ZONEMD)
}

/// Whether data of an OPENPGPKEY record is kept.
fn is_openpgpkey(alloc: Global) -> Result<bool, ParseError> {
    let data = Openpgpkey::parse(alloc, &mut Parser::from_ref(OPENPGPKEY))?;
    are_fields(alloc, &data, 61, OPENPGPKEY)
}

#[test]
fn digests_and_keys_are_copied_and_composed(rt: HostRuntime) {
    assert!(rt; is_cds(rt.alloc()) == Ok(true));
    assert!(rt; is_cdnskey(rt.alloc()) == Ok(true));
    assert!(rt; is_sshfp(rt.alloc()) == Ok(true));
    assert!(rt; is_tlsa(rt.alloc()) == Ok(true));
    assert!(rt; is_zonemd(rt.alloc()) == Ok(true));
    assert!(rt; is_openpgpkey(rt.alloc()) == Ok(true));
}

/// Whether data of an IPSECKEY record is kept, and its gateway is equal to its copy.
fn is_ipseckey(alloc: Global, octets: &[u8]) -> Result<bool, ParseError> {
    let data = Ipseckey::parse(alloc, &mut Parser::from_ref(octets))?;
    let mut parser = Parser::from_ref(octets);
    let Some(found) = Ipseckey::parse_rdata(alloc, Rtype::from_int(45), &mut parser)? else {
        return Ok(false);
    };
    Ok(
        data == found
            && *data.gateway() == data.gateway().try_clone(alloc)?
            && is_kept(alloc, &data, &data.try_clone(alloc)?, octets)?,
    )
}

/// Whether the gateway of a type that octets are is equal to its copy.
fn is_gateway(
    alloc: Global,
    gateway_type: IpseckeyGatewayType,
    octets: &[u8],
) -> Result<bool, ParseError> {
    let mut parser = Parser::from_ref(octets);
    let gateway = IpseckeyGateway::parse(alloc, &mut parser, gateway_type)?;
    let copy = gateway.try_clone(alloc)?;
    Ok(gateway == copy && usize::from(copy.rdlen()) == octets.len())
}

#[test]
fn gateways_are_copied_and_composed(rt: HostRuntime) {
    assert!(rt; is_ipseckey(rt.alloc(), b"\x0a\x00\x00") == Ok(true));
    assert!(rt; is_ipseckey(rt.alloc(), b"\x0a\x03\x00\x01\x61\x00") == Ok(true));
    assert!(rt; is_gateway(rt.alloc(), IpseckeyGatewayType::NONE, b"") == Ok(true));
    assert!(rt; is_gateway(rt.alloc(), IpseckeyGatewayType::NAME, b"\x01\x61\x00") == Ok(true));
}

/// Whether data of an A record is kept. It is copied as it stands.
fn is_a(alloc: Global, octets: &[u8]) -> Result<bool, ParseError> {
    let data = A::parse(&mut Parser::from_ref(octets))?;
    match A::parse_rdata(alloc, Rtype::A, &mut Parser::from_ref(octets))? {
        Some(found) => Ok(is_kept(alloc, &data, &found, octets)?),
        None => Ok(false),
    }
}

/// Whether data of an AAAA record is kept. It is copied as it stands.
fn is_aaaa(alloc: Global, octets: &[u8]) -> Result<bool, ParseError> {
    let data = Aaaa::parse(&mut Parser::from_ref(octets))?;
    match Aaaa::parse_rdata(alloc, Rtype::AAAA, &mut Parser::from_ref(octets))? {
        Some(found) => Ok(is_kept(alloc, &data, &found, octets)?),
        None => Ok(false),
    }
}

/// Whether octets under a type number are kept.
fn is_unknown(alloc: Global, rtype: u16, octets: &[u8]) -> Result<bool, ParseError> {
    let rtype = Rtype::from_int(rtype);
    let data = UnknownRecordData::parse(alloc, rtype, &mut Parser::from_ref(octets))?;
    Ok(is_kept(alloc, &data, &data.try_clone(alloc)?, octets)?)
}

#[test]
fn addresses_and_octets_are_copied_and_composed(rt: HostRuntime) {
    assert!(rt; is_a(rt.alloc(), b"\xc0\x00\x02\x01") == Ok(true));
    let octets = b"\x20\x01\x0d\xb9\0\0\0\0\0\0\0\0\x00\x12\x00\x13";
    assert!(rt; is_aaaa(rt.alloc(), octets) == Ok(true));
    assert!(rt; is_unknown(rt.alloc(), 999, b"\x0a\x0b\x0c") == Ok(true));
    assert!(rt; is_unknown(rt.alloc(), 64, b"\x00\x01\x00") == Ok(true));
}

/// Whether data at a place of a message is copied out of it, kept, and composed to octets.
fn is_service<V: SvcVariant>(
    alloc: Global,
    message: &[u8],
    start: usize,
    octets: &[u8],
) -> Result<bool, ParseError> {
    let mut parser = Parser::from_ref(message);
    parser.seek(start)?;
    let view: SvcbRef<'_, V> = SvcbRef::parse(&mut parser)?;
    let owned = view.to_owned_data(alloc)?;
    let params = view.params().to_owned_data(alloc)?;
    Ok(
        *owned.target() == view.target().to_name(alloc)?
            && *owned.params() == params
            && is_kept(alloc, &owned, &owned.try_clone(alloc)?, octets)?,
    )
}

/// A message, the place of data in it, and its octets.
const SERVICES: [(&[u8], usize, &[u8]); 3] = [
    (b"\x03foo\x00\x00\x01\xc0\x00", 5, b"\x00\x01\x03foo\x00"),
    (
        b"\x00\x10\x03foo\x07example\x03org\x00\x00\x00\x00\x04\x00\x01\x00\x04\x00\x01\x00\x09\x02h2\x05h3-19\x00\x04\x00\x04\xc0\x00\x02\x01",
        0,
        b"\x00\x10\x03foo\x07example\x03org\x00\x00\x00\x00\x04\x00\x01\x00\x04\x00\x01\x00\x09\x02h2\x05h3-19\x00\x04\x00\x04\xc0\x00\x02\x01",
    ),
    (
        b"\x00\x01\x00\x00\x01\x00\x06\x02h3\x02h2\x00\x04\x00\x08\xc0\x00\x02\x01\xc0\x00\x02\x02\x00\x06\x00\x10\x20\x01\x0d\xb8\0\0\0\0\0\0\0\0\0\0\0\x01",
        0,
        b"\x00\x01\x00\x00\x01\x00\x06\x02h3\x02h2\x00\x04\x00\x08\xc0\x00\x02\x01\xc0\x00\x02\x02\x00\x06\x00\x10\x20\x01\x0d\xb8\0\0\0\0\0\0\0\0\0\0\0\x01",
    ),
];

#[test]
fn services_are_copied_and_composed(rt: HostRuntime) {
    for (message, start, octets) in &SERVICES {
        let is_svcb = is_service::<SvcbVariant>(rt.alloc(), message, *start, octets);
        assert!(rt; is_svcb == Ok(true), "{octets:?}");
        let is_https = is_service::<HttpsVariant>(rt.alloc(), message, *start, octets);
        assert!(rt; is_https == Ok(true), "{octets:?}");
    }
}
