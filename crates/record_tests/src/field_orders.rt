//! Constructors, readers, equality and order of record data.

use crate::printed::is_printed;
use digest_rdata::{
    Cds, CdsFields, EncodedOctets, OpenpgpkeyFields, Sshfp, SshfpFields, Zonemd, ZonemdFields,
};
use key_rdata::{Cdnskey, Openpgpkey};
use key_registry::{
    DigestAlgorithm, SecurityAlgorithm, SshfpAlgorithm, SshfpType, ZonemdAlgorithm, ZonemdScheme,
};
use record_spec::Encoding;
use std::alloc::Global;
use std::cmp::Ordering;
use wire_base::{CanonicalOrd, NoMemory, Octets};
use wire_records::Serial;

/// ZONEMD data with a digest of 12 octets.
fn zonemd(alloc: Global, serial: u32, scheme: u8, octet: u8) -> Result<Zonemd, NoMemory> {
    Ok(Zonemd::new(
        Serial::from_int(serial),
        ZonemdScheme::from(scheme),
        ZonemdAlgorithm::SHA384,
        Octets::from_slice(alloc, &[octet; 12])?,
    ))
}

/// The order of two serials, schemes and digests, and the canonical one.
fn order(
    alloc: Global,
    first: (u32, u8, u8),
    second: (u32, u8, u8),
) -> Result<(Ordering, Ordering), NoMemory> {
    let first = zonemd(alloc, first.0, first.1, first.2)?;
    let second = zonemd(alloc, second.0, second.1, second.2)?;
    Ok((first.cmp(&second), first.canonical_cmp(&second)))
}

#[test]
fn the_first_field_that_differs_decides(rt: HostRuntime) {
    let less = Ok((Ordering::Less, Ordering::Less));
    assert!(rt; order(rt.alloc(), (255, 2, 9), (256, 1, 0)) == less);
    assert!(rt; order(rt.alloc(), (7, 1, 9), (7, 2, 0)) == less);
    assert!(rt; order(rt.alloc(), (7, 1, 0), (7, 1, 9)) == less);
    assert!(rt; order(rt.alloc(), (0, 1, 0), (0xffff_ffff, 1, 0)) == less);
    assert!(rt; order(rt.alloc(), (7, 1, 9), (7, 1, 9)) == Ok((Ordering::Equal, Ordering::Equal)));
}

/// Whether the readers of CDS and SSHFP data give its fields.
fn has_digest_fields(alloc: Global) -> Result<bool, NoMemory> {
    let octets: &[u8] = b"digest";
    let digest = Octets::from_slice(alloc, octets)?;
    let Ok(cds) = Cds::new(10, SecurityAlgorithm::DSA, DigestAlgorithm::SM3, digest) else {
        return Ok(false);
    };
    let fields = (cds.key_tag(), cds.algorithm(), cds.digest_type());
    let sshfp = Sshfp::new(SshfpAlgorithm::ED448, SshfpType::SHA256, cds.into_digest());
    Ok(
        fields == (10, SecurityAlgorithm::DSA, DigestAlgorithm::SM3)
            && sshfp.algorithm() == SshfpAlgorithm::ED448
            && sshfp.fingerprint_type() == SshfpType::SHA256
            && sshfp.fingerprint().as_slice() == octets,
    )
}

/// Whether the readers of CDNSKEY and OPENPGPKEY data give its fields.
fn has_key_fields(alloc: Global) -> Result<bool, NoMemory> {
    let octets: &[u8] = b"key";
    let key = Octets::from_slice(alloc, octets)?;
    let Ok(cdnskey) = Cdnskey::new(257, 3, SecurityAlgorithm::ED25519, key) else {
        return Ok(false);
    };
    let openpgpkey = Openpgpkey::new(cdnskey.public_key().try_clone(alloc)?);
    Ok(
        cdnskey.flags() == 257
            && cdnskey.protocol() == 3
            && cdnskey.algorithm() == SecurityAlgorithm::ED25519
            && openpgpkey.key().as_slice() == octets,
    )
}

#[test]
fn readers_give_the_fields(rt: HostRuntime) {
    assert!(rt; has_digest_fields(rt.alloc()) == Ok(true));
    assert!(rt; has_key_fields(rt.alloc()) == Ok(true));
}

#[test]
fn a_serial_is_its_number(rt: HostRuntime) {
    let serial = Serial::from_int(4294967295);
    assert!(rt; serial.into_int() == 4294967295);
    assert!(rt; is_printed(rt.alloc(), &serial, "4294967295") == Ok(true));
}

#[test]
fn fields_are_printed(rt: HostRuntime) {
    let cds = CdsFields {
        key_tag: 60485,
        algorithm: SecurityAlgorithm::RSASHA1,
        digest_type: DigestAlgorithm::SHA1,
    };
    assert!(rt; is_printed(rt.alloc(), &cds, "60485 5 1 ") == Ok(true));
    let sshfp = SshfpFields {
        algorithm: SshfpAlgorithm::DSA,
        fingerprint_type: SshfpType::SHA1,
    };
    assert!(rt; is_printed(rt.alloc(), &sshfp, "2 1 ") == Ok(true));
    let zonemd = ZonemdFields {
        serial: Serial::from_int(2018031900),
        scheme: ZonemdScheme::SIMPLE,
        algorithm: ZonemdAlgorithm::SHA384,
    };
    assert!(rt; is_printed(rt.alloc(), &zonemd, "2018031900 1 1 ") == Ok(true));
    assert!(rt; is_printed(rt.alloc(), &OpenpgpkeyFields, "") == Ok(true));
}

#[test]
fn last_fields_are_printed(rt: HostRuntime) {
    for (encoding, in_brackets, text) in [
        (Encoding::Base16, false, "6b6579"),
        (Encoding::Base16, true, "( 6B6579 )"),
        (Encoding::Base64, false, "a2V5"),
        (Encoding::Base64, true, "( a2V5 )"),
    ] {
        let octets: &[u8] = b"key";
        let last = EncodedOctets {
            octets,
            encoding,
            in_brackets,
        };
        assert!(rt; is_printed(rt.alloc(), &last, text) == Ok(true), "{text}");
    }
}
