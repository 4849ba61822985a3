//! Tests with digests from outside: made by Python's hashlib.

use crate::{ZoneRecord, ZonemdError, ZonemdVerdict, check_zonemd, records_ascend, zonemd_digest};
use digest_rdata::Zonemd;
use key_registry::{ZonemdAlgorithm, ZonemdScheme};
use std::alloc::Global;
use wire_base::{Name, Octets, ParseError, Rtype};
use wire_records::{Serial, UnknownRecordData};

/// The digest of the zone below by SHA-384.
const SHA384_DIGEST: &[u8] =
    b"\x23\x35\x8d\xd7\xcb\x53\x86\xd0\x9f\x3e\xb5\x5b\xb3\xc9\xfa\x0c\x2e\x74\x92\x1e\xe1\xc5\x0f\x23\
      \xee\xd3\x33\xeb\x32\x7f\x87\x99\x7d\x0e\x98\x09\x58\x78\xbd\x7c\x9c\x74\x59\x93\xfd\x94\x7f\xf3";

/// Its digest by SHA-512.
const SHA512_DIGEST: &[u8] =
    b"\xf1\x2b\x65\xb7\xc6\x90\x00\x53\x69\x1e\x41\x75\xb8\xaa\x22\xea\x52\x74\xe0\x2f\xa4\x96\xb7\xb7\
      \x88\x6c\x7b\x3d\x02\x7e\xa0\x1d\xc2\x47\xc3\x36\x02\x4e\x30\x4f\x7f\xfc\x0e\x29\x8c\x04\x1d\x25\
      \x2a\x1d\x4d\xf1\x21\xd7\x28\xdb\xeb\xa3\x6d\xe0\x9c\xe6\x6e\xa5";

/// SHA-384 of no octets.
const EMPTY_DIGEST: &[u8] =
    b"\x38\xb0\x60\xa7\x51\xac\x96\x38\x4c\xd9\x32\x7e\xb1\xb1\xe3\x6a\x21\xfd\xb7\x11\x14\xbe\x07\x43\
      \x4c\x0c\xc7\xbf\x63\xf6\xe1\xda\x27\x4e\xde\xbf\xe7\x6f\x65\xfb\xd5\x1a\xd2\xf1\x48\x98\xb9\x5b";

const APEX: &[u8] = b"\x07example\x00";

/// What a test makes fails only for memory or for octets that are no name.
fn name(alloc: Global, octets: &[u8]) -> Result<Name, ParseError> {
    Name::from_octets(Octets::from_slice(alloc, octets)?)
}

/// A record of class IN.
fn found(
    alloc: Global,
    owner: &[u8],
    rtype: u16,
    ttl: u32,
    octets: &[u8],
) -> Result<ZoneRecord, ParseError> {
    let octets = Octets::from_slice(alloc, octets)?;
    let record_data = UnknownRecordData::new(Rtype::from_int(rtype), octets)?;
    Ok(ZoneRecord::new(name(alloc, owner)?, 1, ttl, record_data))
}

fn zonemd(alloc: Global, scheme: u8, algorithm: u8, digest: &[u8]) -> Result<Zonemd, ParseError> {
    let digest = Octets::from_slice(alloc, digest)?;
    let scheme = ZonemdScheme::from(scheme);
    let algorithm = ZonemdAlgorithm::from(algorithm);
    Ok(Zonemd::try_new(Serial::from_int(2018031900), scheme, algorithm, digest)?)
}

/// An address of `ns1.example.` twice, the second time with another TTL and case, behind a signature over the ZONEMD
/// records of the apex.
fn zone(alloc: Global, address: &[u8]) -> Result<[ZoneRecord; 3], ParseError> {
    Ok([
        found(alloc, b"\x07EXAMPLE\x00", 46, 86400, b"\x00\x3f\x01\x02")?,
        found(alloc, b"\x03ns1\x07example\x00", 1, 3600, address)?,
        found(alloc, b"\x03Ns1\x07example\x00", 1, 60, address)?,
    ])
}

/// The verdict on that zone; `Form` where its records don't ascend.
fn verdict(
    alloc: Global,
    address: &[u8],
    scheme: u8,
    algorithm: u8,
    digest: &[u8],
) -> Result<ZonemdVerdict, ParseError> {
    let records = zone(alloc, address)?;
    if !records_ascend(&records) {
        return Err(ParseError::Form);
    }
    let zonemd = zonemd(alloc, scheme, algorithm, digest)?;
    Ok(check_zonemd(alloc, &name(alloc, APEX)?, &records, &zonemd)?)
}

#[test]
fn a_zone_matches(rt: HostRuntime) {
    let alloc = rt.alloc();
    let address = b"\xcb\x00\x71\x3f";
    assert!(rt; verdict(alloc, address, 1, 1, SHA384_DIGEST) == Ok(ZonemdVerdict::Match));
    assert!(rt; verdict(alloc, address, 1, 2, SHA512_DIGEST) == Ok(ZonemdVerdict::Match));
}

#[test]
fn another_zone_mismatches(rt: HostRuntime) {
    let alloc = rt.alloc();
    let address = b"\xcb\x00\x71\x3e";
    assert!(rt; verdict(alloc, address, 1, 1, SHA384_DIGEST) == Ok(ZonemdVerdict::Mismatch));
    assert!(rt; verdict(alloc, address, 2, 1, SHA384_DIGEST) == Ok(ZonemdVerdict::Unsupported));
    assert!(rt; verdict(alloc, address, 1, 3, SHA384_DIGEST) == Ok(ZonemdVerdict::Unsupported));
}

/// Whether the digest of no records is that of no octets, and no other algorithm is taken.
fn no_records(alloc: Global) -> Result<bool, ParseError> {
    let apex = name(alloc, APEX)?;
    let digest = zonemd_digest(alloc, &apex, &[], ZonemdAlgorithm::SHA384);
    let other = zonemd_digest(alloc, &apex, &[], ZonemdAlgorithm::from(0));
    let is_empty = digest.is_ok_and(|digest| digest.as_slice() == EMPTY_DIGEST);
    Ok(is_empty && other.err() == Some(ZonemdError::Unsupported))
}

#[test]
fn no_records_are_digested(rt: HostRuntime) {
    assert!(rt; no_records(rt.alloc()) == Ok(true));
}
