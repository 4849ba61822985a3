//! Numbers of registries: their texts, mnemonics and octets.

use key_registry::{SecurityAlgorithm, TlsaSelector};
use registry::{IanaNumber, SvcParamKey};
use std::alloc::Global;
use wire_base::NoMemory;

/// Texts, and the key that is read of each.
const KEYS: [(&[u8], Option<u16>); 10] = [
    (b"ALPN", Some(1)),
    (b"KEY+05", Some(5)),
    (b"key65535", Some(65535)),
    (b"key65536", None),
    (b"key", None),
    (b"key-1", None),
    (b"key\xff", None),
    (b"ke", None),
    (b"5", None),
    (b"", None),
];

#[test]
fn keys_are_read(rt: HostRuntime) {
    for (text, number) in &KEYS {
        let found = SvcParamKey::from_bytes(text).map(u16::from);
        assert_eq!(rt; found, *number, "{text:?}");
    }
}

#[test]
fn numbers_are_read_as_by_their_own_parser(rt: HostRuntime) {
    for text in &["5", "+005", "256", "-1", "RSASHA1", ""] {
        let found = text.parse::<SecurityAlgorithm>().map(u8::from);
        assert_eq!(rt; found, text.parse::<u8>(), "{text}");
    }
}

#[test]
fn mnemonics_are_read_in_any_case(rt: HostRuntime) {
    let found = SecurityAlgorithm::from_mnemonic(b"rsaSHA1");
    assert!(rt; found == Some(SecurityAlgorithm::RSASHA1));
    assert!(rt; SecurityAlgorithm::from_int(4).to_mnemonic_str() == None);
}

/// Whether a number is composed to octets, through the trait.
fn is_composed<N: IanaNumber>(alloc: Global, number: N, octets: &[u8]) -> Result<bool, NoMemory> {
    let mut target = Vec::new(alloc);
    number.compose(&mut target)?;
    Ok(target.as_slice() == octets && octets.len() == usize::from(N::COMPOSE_LEN))
}

#[test]
fn numbers_are_composed(rt: HostRuntime) {
    let key = SvcParamKey::from(0x0102);
    assert!(rt; is_composed(rt.alloc(), key, b"\x01\x02") == Ok(true));
    assert!(rt; is_composed(rt.alloc(), TlsaSelector::PRIVSEL, b"\xff") == Ok(true));
}
