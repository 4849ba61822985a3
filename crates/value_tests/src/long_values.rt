//! The longest values that tokens spell: 65,535 octets, or as many items as fit.

use std::alloc::{AllocError, Global};
use svcb_text::scan_param;
use text_spec::ScanError;

/// A key with `=`, and so many items behind it with commas between them. An item is its number where it is to be new,
/// and else a text that is the same for each.
struct List {
    key: &'static str,
    front: &'static str,
    is_numbered: bool,
}

const MANDATORY: List = List {
    key: "mandatory=",
    front: "key",
    is_numbered: true,
};

const IPV4HINT: List = List {
    key: "ipv4hint=",
    front: "192.0.2.1",
    is_numbered: false,
};

const IPV6HINT: List = List {
    key: "ipv6hint=",
    front: "2001:db8::1",
    is_numbered: false,
};

const GROUPS: List = List {
    key: "tls-supported-groups=",
    front: "",
    is_numbered: true,
};

/// The text of so many items and what stands behind them; numbers begin with 1.
fn list_text(alloc: Global, list: &List, count: u16, end: &str) -> Result<String, AllocError> {
    let mut text = String::from_str(alloc, list.key)?;
    for i in 0..count {
        if i > 0 {
            text.push(',')?;
        }
        text.push_str(list.front)?;
        if list.is_numbered {
            let number = format!(in alloc; "{}", i.saturating_add(1))?;
            text.push_str(number.as_str())?;
        }
    }
    text.push_str(end)?;
    Ok(text)
}

/// The fault of so many items and what stands behind them, if they have one.
fn list_fault(alloc: Global, list: &List, count: u16, end: &str) -> Result<(), ScanError> {
    let text = list_text(alloc, list, count, end)?;
    let _value = scan_param(alloc, text.as_bytes())?;
    Ok(())
}

#[test]
fn lists_have_at_most_65535_octets(rt: HostRuntime) {
    assert!(rt; list_fault(rt.alloc(), &MANDATORY, 32767, "") == Ok(()));
    assert!(rt; list_fault(rt.alloc(), &MANDATORY, 32768, "") == Err(ScanError::LongValue));
    assert!(rt; list_fault(rt.alloc(), &IPV4HINT, 16383, "") == Ok(()));
    assert!(rt; list_fault(rt.alloc(), &IPV4HINT, 16384, "") == Err(ScanError::LongValue));
    assert!(rt; list_fault(rt.alloc(), &IPV6HINT, 4095, "") == Ok(()));
    assert!(rt; list_fault(rt.alloc(), &IPV6HINT, 4096, "") == Err(ScanError::LongValue));
    assert!(rt; list_fault(rt.alloc(), &GROUPS, 32767, "") == Ok(()));
    assert!(rt; list_fault(rt.alloc(), &GROUPS, 32768, "") == Err(ScanError::LongValue));
}

#[test]
fn an_item_is_refused_before_the_length(rt: HostRuntime) {
    assert!(rt; list_fault(rt.alloc(), &IPV4HINT, 16384, ",1.2.3") == Err(ScanError::BadAddress));
    assert!(rt; list_fault(rt.alloc(), &GROUPS, 32768, ",1") == Err(ScanError::DuplicateItem));
}

/// The front of a token, an octet and how often it stands behind the front, the end, and the first fault.
type Long = (&'static [u8], u8, usize, &'static [u8], Option<ScanError>);

/// Tokens of many octets.
const LONG: [Long; 16] = [
    (b"alpn=", b'a', 255, b"", None),
    (b"alpn=", b'a', 256, b"", Some(ScanError::LongItem)),
    (b"alpn=", b'a', 256, b",", Some(ScanError::LongItem)),
    (b"alpn=", b'a', 256, b"\\x", Some(ScanError::BadListEscape)),
    (b"ech=", b'A', 87380, b"", None),
    (b"ech=", b'A', 87382, b"==", Some(ScanError::LongValue)),
    (b"ech=", b'A', 87384, b"", Some(ScanError::LongValue)),
    (b"ech=", b'A', 87384, b"A", Some(ScanError::BadBase64)),
    (b"dohpath=", b'/', 65535, b"", None),
    (b"dohpath=", b'/', 65536, b"", Some(ScanError::LongValue)),
    (b"dohpath=", b'/', 65535, b"\xff", Some(ScanError::BadUtf8)),
    (b"key65280=", b'a', 65535, b"", None),
    (b"key65280=", b'a', 65536, b"", Some(ScanError::LongValue)),
    (b"key1=", b'a', 65536, b"", Some(ScanError::LongValue)),
    (b"pvd=", b'a', 65535, b"", None),
    (b"pvd=", b'a', 65536, b"", Some(ScanError::LongValue)),
];

/// A token of many octets.
fn long_token(
    alloc: Global,
    front: &[u8],
    octet: u8,
    count: usize,
    end: &[u8],
) -> Result<Vec<u8>, AllocError> {
    let mut token = Vec::from_slice(alloc, front)?;
    for _ in 0..count {
        token.push(octet)?;
    }
    token.extend_from_slice(end)?;
    Ok(token)
}

/// The fault of a token, if it has one.
fn fault_of(alloc: Global, token: &[u8]) -> Option<ScanError> {
    match scan_param(alloc, token) {
        Ok(_) => None,
        Err(error) => Some(error),
    }
}

#[test]
fn items_and_values_are_bounded(rt: HostRuntime) -> Result<(), AllocError> {
    for (front, octet, count, end, fault) in &LONG {
        let token = long_token(rt.alloc(), front, *octet, *count, end)?;
        assert_eq!(rt;
            fault_of(rt.alloc(), &token),
            *fault,
            "{count} at {front:?}"
        );
    }
    Ok(())
}

/// The fault of a token that ends in so many protocols of one octet, if it has one.
fn protocols_fault(alloc: Global, front: &[u8], count: u16) -> Result<(), ScanError> {
    let mut token = Vec::from_slice(alloc, front)?;
    for _ in 0..count {
        token.extend_from_slice(b",h")?;
    }
    let _value = scan_param(alloc, token.as_slice())?;
    Ok(())
}

#[test]
fn protocols_are_at_most_65535_octets(rt: HostRuntime) {
    assert!(rt; protocols_fault(rt.alloc(), b"alpn=h2", 32766) == Ok(()));
    assert!(rt; protocols_fault(rt.alloc(), b"alpn=h", 32767) == Err(ScanError::LongValue));
}
