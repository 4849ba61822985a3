//! What is printed: errors, keys, and the words for what a number is.

use crate::printed::is_printed;
use key_registry::{
    DigestAlgorithm, IpseckeyAlgorithm, IpseckeyGatewayType, SecurityAlgorithm, SshfpAlgorithm,
    SshfpType, TlsaCertificateUsage, TlsaMatchingType, TlsaSelector, ZonemdAlgorithm, ZonemdScheme,
};
use registry::{BuildValueError, FromStrError, IanaNumber, LongSvcParam, ShortBuf, SvcParamKey};
use std::fmt::Display;
use std::process::Abort;
use wire_base::{LongRecordData, NoMemory, ParseError, ShortInput};

/// Asserts that a value is printed as a text.
fn shows(rt: &(impl Abort + AllocGlobal), value: &impl Display, text: &str) {
    assert!(rt; is_printed(rt.alloc(), value, text) == Ok(true), "{text}");
}

#[test]
fn errors_say_what_is_wrong(rt: HostRuntime) {
    shows(&rt, &ParseError::ShortInput, "short input");
    shows(&rt, &ParseError::Form, "form error");
    shows(&rt, &ParseError::NoMemory, "want of memory");
    shows(&rt, &NoMemory, "want of memory");
    shows(&rt, &ShortInput, "short input");
    shows(&rt, &LongRecordData, "long record data");
    shows(&rt, &BuildValueError::LongSvcParam, "long SVCB value");
    shows(&rt, &BuildValueError::ShortBuf, "short buffer");
    shows(&rt, &BuildValueError::EmptyValue, "empty SVCB value");
    shows(&rt, &BuildValueError::NoMemory, "want of memory");
    shows(&rt, &LongSvcParam, "service parameter too long");
    shows(&rt, &ShortBuf, "short buffer");
    shows(&rt, &FromStrError, "unknown key");
}

/// Keys, with a mnemonic and without one.
const KEYS: [(u16, &str); 6] = [
    (2, "no-default-alpn"),
    (9, "tls-supported-groups"),
    (13, "key13"),
    (SvcParamKey::PRIVATE_RANGE_BEGIN, "key65280"),
    (SvcParamKey::PRIVATE_RANGE_END, "key65534"),
    (65535, "key65535"),
];

#[test]
fn numbers_are_shown(rt: HostRuntime) {
    for (number, text) in &KEYS {
        shows(&rt, &SvcParamKey::from(*number), text);
    }
    shows(&rt, &SecurityAlgorithm::RSASHA1, "5");
}

#[test]
fn registries_say_what_their_numbers_are(rt: HostRuntime) {
    let shown = [
        SvcParamKey::SHOW_NAME,
        SecurityAlgorithm::SHOW_NAME,
        DigestAlgorithm::SHOW_NAME,
        IpseckeyAlgorithm::SHOW_NAME,
        IpseckeyGatewayType::SHOW_NAME,
        SshfpType::SHOW_NAME,
        SshfpAlgorithm::SHOW_NAME,
        TlsaCertificateUsage::SHOW_NAME,
        TlsaSelector::SHOW_NAME,
        TlsaMatchingType::SHOW_NAME,
        ZonemdScheme::SHOW_NAME,
        ZonemdAlgorithm::SHOW_NAME,
    ];
    let names = [
        "",
        "algorithm",
        "digest type",
        "ipseckey algorithm",
        "ipseckey gateway type",
        "fingerprint type",
        "public key algorithm",
        "certificate usage type",
        "selector",
        "matching type",
        "scheme",
        "hash algorithm",
    ];
    assert_eq!(rt; shown, names);
}
