//! Values scanned from the octets of a token (RFC 9460, section 2.1 and appendix D.2).

use registry::{ComposeSvcParamValue, SvcParamValue};
use std::alloc::Global;
use svcb_text::{AllValues, SvcParamValueScanIter, scan_param};
use text_spec::ScanError;

/// Whether a token spells a value of this key and these octets, and whether the value has a type.
fn spells(
    alloc: Global,
    token: &[u8],
    key: u16,
    octets: &[u8],
    has_type: bool,
) -> Result<bool, ScanError> {
    let value = scan_param(alloc, token)?;
    let mut composed = Vec::new(alloc);
    value.compose_value(&mut composed)?;
    let is_unknown = matches!(&value, AllValues::Unknown(_));
    Ok(u16::from(value.key()) == key && composed.as_slice() == octets && is_unknown != has_type)
}

/// Tokens that spell values of a type, and their keys and octets. A key has one type.
const TYPED: [(&[u8], u16, &[u8]); 13] = [
    (b"mandatory=port,alpn", 0, b"\0\x01\0\x03"),
    (b"alpn=h2,h3-19", 1, b"\x02h2\x05h3-19"),
    (b"alpn=a\\,b", 1, b"\x03a,b"),
    (b"alpn=f\\\\oo\\,bar,h2", 1, b"\x08f\\oo,bar\x02h2"),
    (b"no-default-alpn", 2, b""),
    (b"port=+053", 3, b"\0\x35"),
    (
        b"ipv4hint=192.0.2.1,192.0.2.2",
        4,
        b"\xc0\0\x02\x01\xc0\0\x02\x02",
    ),
    (b"ech=a2V5", 5, b"key"),
    (
        b"ipv6hint=2001:db8::1",
        6,
        b"\x20\x01\x0d\xb8\0\0\0\0\0\0\0\0\0\0\0\x01",
    ),
    (b"dohpath=/q{?dns}", 7, b"/q{?dns}"),
    (b"dohpath", 7, b""),
    (b"ohttp=", 8, b""),
    (b"tls-supported-groups=29,23", 9, b"\0\x1d\0\x17"),
];

/// Tokens that spell any octets, and their keys and octets: of keys without a type, and of keys as numbers.
const UNTYPED: [(&[u8], u16, &[u8]); 8] = [
    (b"pvd=a", 11, b"a"),
    (b"key1=h2", 1, b"h2"),
    (b"key00001=h2", 1, b"h2"),
    (b"key0", 0, b""),
    (b"key00003=a", 3, b"a"),
    (b"key19=a=b", 19, b"a=b"),
    (b"key667=hello\xd2qoo", 667, b"hello\xd2qoo"),
    (b"key65535=", 65535, b""),
];

#[test]
fn tokens_spell_values(rt: HostRuntime) {
    for (token, key, octets) in &TYPED {
        assert!(rt; spells(rt.alloc(), token, *key, octets, true) == Ok(true));
    }
    for (token, key, octets) in &UNTYPED {
        assert!(rt; spells(rt.alloc(), token, *key, octets, false) == Ok(true));
    }
}

/// Tokens, and their first faults.
const FAULTS: [(&[u8], ScanError); 45] = [
    (b"", ScanError::EmptyParam),
    (b"Port=1", ScanError::BadKeyChar),
    (b"Foo=1", ScanError::BadKeyChar),
    (b"ALPN=h2", ScanError::BadKeyChar),
    (b"Key1=a", ScanError::BadKeyChar),
    (b"foo=1", ScanError::UnknownKey),
    (b"=x", ScanError::UnknownKey),
    (b"key65536=a", ScanError::UnknownKey),
    (b"key", ScanError::UnknownKey),
    (b"mandatory", ScanError::MissingValue),
    (b"mandatory=mandatory", ScanError::KeyZeroInMandatory),
    (b"mandatory=key0", ScanError::KeyZeroInMandatory),
    (b"mandatory=key0,key0", ScanError::KeyZeroInMandatory),
    (b"mandatory=key123,key123", ScanError::DuplicateItem),
    (b"mandatory=port,foo", ScanError::UnknownKey),
    (b"mandatory=foo,a\\b", ScanError::UnknownKey),
    (b"mandatory=port,", ScanError::EmptyItem),
    (b"mandatory=po\\rt", ScanError::BadListEscape),
    (b"alpn=", ScanError::MissingValue),
    (b"alpn=a\\b", ScanError::BadListEscape),
    (b"alpn=a\\", ScanError::BadListEscape),
    (b"alpn=a,", ScanError::EmptyItem),
    (b"alpn=,a\\b", ScanError::EmptyItem),
    (b"no-default-alpn=abc", ScanError::UnexpectedValue),
    (b"port", ScanError::MissingValue),
    (b"port=65536", ScanError::BadPort),
    (b"port=1,2", ScanError::BadPort),
    (b"ipv4hint", ScanError::MissingValue),
    (b"ipv4hint=1\\.2", ScanError::BadListEscape),
    (b"ipv4hint=1.2.3", ScanError::BadAddress),
    (b"ipv4hint=1.2.3.4,,1", ScanError::EmptyItem),
    (b"ech=", ScanError::MissingValue),
    (b"ech=YQ", ScanError::BadBase64),
    (b"ipv6hint", ScanError::MissingValue),
    (b"ipv6hint=::1\\", ScanError::BadListEscape),
    (b"ipv6hint=::1,", ScanError::EmptyItem),
    (b"ipv6hint=::1,1.2.3.4", ScanError::BadAddress),
    (b"dohpath=/\xff", ScanError::BadUtf8),
    (b"ohttp=1", ScanError::UnexpectedValue),
    (b"tls-supported-groups=", ScanError::MissingValue),
    (b"tls-supported-groups=29,", ScanError::EmptyItem),
    (b"tls-supported-groups=29,23,29", ScanError::DuplicateItem),
    (b"tls-supported-groups=29,29,x", ScanError::DuplicateItem),
    (b"tls-supported-groups=65536", ScanError::BadNumber),
    (b"tls-supported-groups=29,\\,", ScanError::BadListEscape),
];

#[test]
fn other_tokens_have_their_first_fault(rt: HostRuntime) {
    for (token, fault) in &FAULTS {
        let found = scan_param(rt.alloc(), token);
        assert!(rt; matches!(&found, Err(error) if error == fault));
    }
}

/// Whether the next item is these octets without its escapes.
fn next_is(
    alloc: Global,
    items: &mut SvcParamValueScanIter<'_>,
    octets: &[u8],
) -> Result<bool, ScanError> {
    match items.next_item(alloc)? {
        Some(item) => Ok(item.as_slice() == octets),
        None => Ok(false),
    }
}

#[test]
fn items_lose_their_escapes(rt: HostRuntime) {
    let alloc = rt.alloc();
    let mut items = SvcParamValueScanIter::from_slice(b"a\\,b,c\\\\,");
    assert!(rt; next_is(alloc, &mut items, b"a,b") == Ok(true));
    assert!(rt; next_is(alloc, &mut items, b"c\\") == Ok(true));
    assert!(rt; next_is(alloc, &mut items, b"") == Err(ScanError::EmptyItem));
    assert!(rt; next_is(alloc, &mut items, b"") == Err(ScanError::EmptyItem));
    let mut items = SvcParamValueScanIter::from_slice(b"a\\b");
    assert!(rt; next_is(alloc, &mut items, b"ab") == Err(ScanError::BadListEscape));
    assert!(rt; next_is(alloc, &mut items, b"ab") == Err(ScanError::BadListEscape));
    let mut items = SvcParamValueScanIter::from_slice(b"");
    assert!(rt; matches!(items.next_item(alloc), Ok(None)));
}

#[test]
fn a_refused_item_stays_the_next(rt: HostRuntime) {
    let mut items = SvcParamValueScanIter::from_slice(b"a,b\\c");
    assert!(rt; items.next_no_escapes() == Ok(Some(b"a".as_slice())));
    assert!(rt; items.next_no_escapes() == Err(ScanError::BadListEscape));
    assert!(rt; items.next_no_escapes() == Err(ScanError::BadListEscape));
}
