//! Tests with digests from outside: those of the RFCs, and one made by Python's hashlib.

ghost use Rattle.std.specs.Prelude.{◌≤◌, ◌≡◌, length};

use crate::{CdsVerdict, MakeCdsError, check_cds, key_tag, make_cds};
use digest_rdata::Cds;
use key_rdata::Cdnskey;
use key_registry::{DigestAlgorithm, SecurityAlgorithm};
use std::alloc::Global;
use wire_base::{Name, Octets, ParseError};

/// The digest of type 2 of the key `key` of `example.`.
const DIGEST: &[u8] =
    b"\xa4\x17\x14\x59\xf7\x23\x00\x53\xcf\x3c\xeb\xd5\xac\x14\xb6\x61\xa0\xec\x7b\x91\x25\xa0\xcb\xde\
      \x9c\xb9\xba\x50\x0b\x4c\x40\xe9";

/// The public key of RFC 4509, section 2.3.
const SHA256_KEY: &[u8] =
    b"\x01\x03\x9e\x8a\x24\x74\x18\xe3\x18\x90\x3b\x21\x5a\x84\x8a\xcf\xd5\xf3\x7f\x02\x6b\xd4\x06\x2d\
      \xb2\x6c\x77\x4c\x69\x09\x68\xd5\xd5\x6d\xf8\xbf\xda\x91\xe6\xf3\x6d\x9a\x27\x98\x88\xf4\x13\x33\
      \x35\x7c\x5e\x60\x29\x99\x0d\x10\xfd\xf5\x66\x30\x62\xa5\x12\x76\x33\x26\x98\x0a\x61\x5d\xdb\xf1\
      \x7a\x05\xdd\xfc\xce\x7e\x5f\xb3\xab\xcc\xa0\x5a\x31\xb0\x95\x74\x52\xd4\x52\x1e\x83\x87\x07\x89\
      \x06\x31\x15\xbf\x97\xf6\xc3\x08\xcc\xf5\x7c\xdc\x9c\xe7\xfe\x10\xf6\xed\x1b\xd0\xcc\x06\x60\x03\
      \x8c\x50\xdc\xdb\x0f\xeb\x96\x3c\x2f\x17";

/// Its digest there.
const SHA256_DIGEST: &[u8] =
    b"\xd4\xb7\xd5\x20\xe7\xbb\x5f\x0f\x67\x67\x4a\x0c\xce\xb1\xe3\xe0\x61\x4b\x93\xc4\xf9\xe9\x9b\x83\
      \x83\xf6\xa1\xe4\x46\x9d\xa5\x0a";

/// The public key of RFC 6605, section 6.2.
const SHA384_KEY: &[u8] =
    b"\xc4\xa6\x1a\x36\x15\x9d\x18\xe7\xc9\xfa\x73\xeb\x2f\xcf\xda\xae\x4c\x1f\xd8\x46\x37\x30\x32\x7e\
      \x48\x4a\xca\x8a\xf0\x55\x4a\xe9\xb5\xc3\xf7\xa0\xb1\x7b\xd2\x00\x3b\x4d\x26\x1c\x9e\x9b\x94\x42\
      \x3a\x98\x10\xe8\xaf\x17\xd4\x34\x52\x12\x4a\xdb\x61\x0f\x8e\x07\xeb\xfc\xfe\xe5\xf8\xe4\xd0\x70\
      \x63\xca\xe9\xeb\x91\x7a\x1a\x5b\xab\xf0\x8f\xe6\x95\x53\x60\x17\xa5\xbf\xa9\x32\x37\xee\x6e\x34";

/// Its digest there.
const SHA384_DIGEST: &[u8] =
    b"\x72\xd7\xb6\x29\x76\xce\x06\x43\x8e\x9c\x0b\xf3\x19\x01\x3c\xf8\x01\xf0\x9e\xcc\x84\xb8\xd7\xe9\
      \x49\x5f\x27\xe3\x05\xc6\xa9\xb0\x56\x3a\x9b\x5f\x4d\x28\x84\x05\xc3\x00\x8a\x94\x6d\xf9\x83\xd6";

/// What a test makes fails only for memory or for octets that are no name.
fn name(alloc: Global, octets: &[u8]) -> Result<Name, ParseError> {
    Name::from_octets(Octets::from_slice(alloc, octets)?)
}

fn key(
    alloc: Global,
    flags: u16,
    protocol: u8,
    algorithm: u8,
    octets: &[u8],
) -> Result<Cdnskey, ParseError> {
    let octets = Octets::from_slice(alloc, octets)?;
    let algorithm = SecurityAlgorithm::from(algorithm);
    Ok(Cdnskey::new(flags, protocol, algorithm, octets)?)
}

fn cds(
    alloc: Global,
    key_tag: u16,
    algorithm: u8,
    digest_type: u8,
    octets: &[u8],
) -> Result<Cds, ParseError> {
    let octets = Octets::from_slice(alloc, octets)?;
    let algorithm = SecurityAlgorithm::from(algorithm);
    Ok(Cds::new(
        key_tag,
        algorithm,
        DigestAlgorithm::from(digest_type),
        octets,
    )?)
}

/// The key of most tests.
fn small_key(alloc: Global, algorithm: u8) -> Result<Cdnskey, ParseError> {
    key(alloc, 10, 11, algorithm, b"key")
}

/// Whether a key has this tag, and the CDS with this digest is made of it and agrees with it.
fn is_made(
    alloc: Global,
    owner: &[u8],
    key: Cdnskey,
    tag: u16,
    digest_type: DigestAlgorithm,
    digest: &[u8],
) -> Result<bool, ParseError> {
    let owner = name(alloc, owner)?;
    let Ok(made) = make_cds(alloc, &owner, &key, digest_type) else {
        return Ok(false);
    };
    let is_digest = made.digest().as_slice() == digest;
    let is_cds = made.key_tag() == tag && made.digest_type() == digest_type && is_digest;
    let verdict = check_cds(alloc, &owner, &[made], &[key])?;
    Ok(is_cds && verdict == CdsVerdict::Agree)
}

fn are_made(alloc: Global) -> Result<bool, ParseError> {
    let small = small_key(alloc, 5)?;
    let first = key(alloc, 256, 3, 5, SHA256_KEY)?;
    let second = key(alloc, 257, 3, 14, SHA384_KEY)?;
    let sha256 = DigestAlgorithm::SHA256;
    let sha384 = DigestAlgorithm::SHA384;
    Ok(
        key_tag(&small) == 61300
            && is_made(alloc, b"\x07example\x00", small, 61300, sha256, DIGEST)?
            && is_made(
                alloc,
                b"\x05dsKEY\x07Example\x03com\x00",
                first,
                60485,
                sha256,
                SHA256_DIGEST,
            )?
            && is_made(
                alloc,
                b"\x07example\x03net\x00",
                second,
                10771,
                sha384,
                SHA384_DIGEST,
            )?,
    )
}

#[test]
fn cds_of_outside_agree(rt: HostRuntime) {
    assert!(rt; are_made(rt.alloc()) == Ok(true));
}

/// Why no CDS is made of a key with this algorithm.
fn refusal(
    alloc: Global,
    algorithm: u8,
    digest_type: u8,
) -> Result<Option<MakeCdsError>, ParseError> {
    let owner = name(alloc, b"\x07example\x00")?;
    let key = small_key(alloc, algorithm)?;
    Ok(make_cds(alloc, &owner, &key, DigestAlgorithm::from(digest_type)).err())
}

#[test]
fn algorithms_are_refused(rt: HostRuntime) {
    let alloc = rt.alloc();
    let digest = Ok(Some(MakeCdsError::UnsupportedDigest));
    let algorithm = Ok(Some(MakeCdsError::UnsupportedAlgorithm));
    assert!(rt; refusal(alloc, 5, 0) == digest);
    assert!(rt; refusal(alloc, 5, 1) == digest);
    assert!(rt; refusal(alloc, 5, 3) == digest);
    assert!(rt; refusal(alloc, 1, 2) == algorithm);
    assert!(rt; refusal(alloc, 1, 1) == algorithm);
}

/// The verdict on one CDS of the small key with this tag, algorithm, digest type and digest, and on that key.
fn verdict_on(
    alloc: Global,
    tag: u16,
    algorithm: u8,
    digest_type: u8,
    digest: &[u8],
) -> Result<CdsVerdict, ParseError> {
    let owner = name(alloc, b"\x07example\x00")?;
    let found = cds(alloc, tag, algorithm, digest_type, digest)?;
    Ok(check_cds(alloc, &owner, &[found], &[small_key(alloc, algorithm)?])?)
}

/// The verdict on the digest of the small key with its last bit the other way.
fn one_bit_off(alloc: Global) -> Result<CdsVerdict, ParseError> {
    let mut octets = Octets::from_slice(alloc, DIGEST)?;
    octets.as_slice_mut()[31] ^= 1;
    verdict_on(alloc, 61300, 5, 2, octets.as_slice())
}

#[test]
fn another_digest_is_alone(rt: HostRuntime) {
    let alloc = rt.alloc();
    let alone = Ok(CdsVerdict::CdsAlone(0));
    assert!(rt; verdict_on(alloc, 61300, 5, 2, DIGEST) == Ok(CdsVerdict::Agree));
    assert!(rt; one_bit_off(alloc) == alone);
    assert!(rt; verdict_on(alloc, 61300, 5, 2, b"\x00") == alone);
    assert!(rt; verdict_on(alloc, 61300, 5, 2, &DIGEST[..31]) == alone);
    assert!(rt; verdict_on(alloc, 61301, 5, 2, DIGEST) == alone);
    assert!(rt; verdict_on(alloc, 61300, 5, 1, DIGEST) == alone);
    assert!(rt; verdict_on(alloc, 61296, 1, 2, DIGEST) == alone);
    assert!(rt; verdict_on(alloc, 0, 0, 0, b"\x00") == alone);
}

/// The verdict on the first of two equal CDS and a wrong one, and on the first of the key that they have and another.
fn verdict_on_first(
    alloc: Global,
    cds_count: usize,
    key_count: usize,
) -> Result<CdsVerdict, ParseError>
    requires cds { cds_count ≤ 3 }
    requires keys { key_count ≤ 2 }
{
    let owner = name(alloc, b"\x07example\x00")?;
    let found = [
        cds(alloc, 61300, 5, 2, DIGEST)?,
        cds(alloc, 61300, 5, 2, DIGEST)?,
        cds(alloc, 61300, 5, 2, b"\x00")?,
    ];
    let keys = [small_key(alloc, 5)?, small_key(alloc, 8)?];
    Ok(check_cds(alloc, &owner, &found[..cds_count], &keys[..key_count])?)
}

#[test]
fn the_first_alone_is_named(rt: HostRuntime) {
    let alloc = rt.alloc();
    assert!(rt; verdict_on_first(alloc, 0, 0) == Ok(CdsVerdict::Agree));
    assert!(rt; verdict_on_first(alloc, 0, 1) == Ok(CdsVerdict::CdnskeyAlone(0)));
    assert!(rt; verdict_on_first(alloc, 2, 1) == Ok(CdsVerdict::Agree));
    assert!(rt; verdict_on_first(alloc, 2, 2) == Ok(CdsVerdict::CdnskeyAlone(1)));
    assert!(rt; verdict_on_first(alloc, 3, 1) == Ok(CdsVerdict::CdsAlone(2)));
    assert!(rt; verdict_on_first(alloc, 3, 2) == Ok(CdsVerdict::CdsAlone(2)));
}
