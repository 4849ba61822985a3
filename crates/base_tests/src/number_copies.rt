//! Numbers of each registry, composed.

use key_registry::{
    DigestAlgorithm, IpseckeyAlgorithm, IpseckeyGatewayType, SecurityAlgorithm, SshfpAlgorithm,
    SshfpType, TlsaCertificateUsage, TlsaMatchingType, TlsaSelector, ZonemdAlgorithm, ZonemdScheme,
};
use registry::{IanaNumber, SvcParamKey};
use std::alloc::Global;
use wire_base::NoMemory;

/// Whether a number is composed to octets, through the trait.
fn is_composed<N: IanaNumber>(alloc: Global, number: N, octets: &[u8]) -> Result<bool, NoMemory> {
    let mut target = Vec::new(alloc);
    number.compose(&mut target)?;
    Ok(target.as_slice() == octets)
}

/// Keys, and their octets.
const KEYS: [(u16, &[u8]); 6] = [
    (1, b"\x00\x01"),
    (2, b"\x00\x02"),
    (4, b"\x00\x04"),
    (6, b"\x00\x06"),
    (8, b"\x00\x08"),
    (65280, b"\xff\x00"),
];

#[test]
fn keys_are_composed(rt: HostRuntime) {
    for (number, octets) in &KEYS {
        let key = SvcParamKey::from(*number);
        assert!(rt;
            is_composed(rt.alloc(), key, octets) == Ok(true),
            "{number}"
        );
    }
}

/// Whether the algorithms of keys and digests are composed.
fn are_algorithms_composed(alloc: Global) -> Result<bool, NoMemory> {
    Ok(
        is_composed(alloc, SecurityAlgorithm::RSASHA1, b"\x05")?
            && is_composed(alloc, DigestAlgorithm::SHA256, b"\x02")?
            && is_composed(alloc, IpseckeyAlgorithm::NONE, b"\x00")?
            && is_composed(alloc, SshfpAlgorithm::RSA, b"\x01")?
            && is_composed(alloc, ZonemdAlgorithm::SHA384, b"\x01")?,
    )
}

/// Whether the types, uses and schemes are composed.
fn are_types_composed(alloc: Global) -> Result<bool, NoMemory> {
    Ok(
        is_composed(alloc, IpseckeyGatewayType::NONE, b"\x00")?
            && is_composed(alloc, IpseckeyGatewayType::NAME, b"\x03")?
            && is_composed(alloc, SshfpType::SHA1, b"\x01")?
            && is_composed(alloc, TlsaCertificateUsage::PKIX_TA, b"\x00")?
            && is_composed(alloc, TlsaSelector::CERT, b"\x00")?
            && is_composed(alloc, TlsaMatchingType::SHA2_256, b"\x01")?
            && is_composed(alloc, ZonemdScheme::SIMPLE, b"\x01")?,
    )
}

#[test]
fn numbers_of_each_registry_are_composed(rt: HostRuntime) {
    assert!(rt; are_algorithms_composed(rt.alloc()) == Ok(true));
    assert!(rt; are_types_composed(rt.alloc()) == Ok(true));
}
