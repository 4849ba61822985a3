//! The texts of values (RFC 9460, section 7 and appendix D.2; RFC 9461, section 5).

use crate::printed::is_printed;
use registry::SvcParamKey;
use std::alloc::Global;
use std::fmt::Display;
use svcb_list::{AlpnBuilder, Ipv4Hint, Ipv6Hint, Mandatory, TlsSupportedGroups};
use svcb_text::scan_param;
use svcb_value::{DohPath, Ech, NoDefaultAlpn, Ohttp, Port};
use wire_base::{Ipv4Addr, Ipv6Addr, Octets};

/// Whether a value was made, and is printed so.
fn is_made<T: Display + Drop, E: Drop>(alloc: Global, value: Result<T, E>, text: &str) -> bool {
    match value {
        Ok(value) => is_printed(alloc, &value, text) == Ok(true),
        Err(_) => false,
    }
}

#[test]
fn lists_are_printed(rt: HostRuntime) {
    let alloc = rt.alloc();
    let keys = [
        SvcParamKey::ALPN,
        SvcParamKey::IPV4HINT,
        SvcParamKey::from(65280),
    ];
    let text = "mandatory=alpn,ipv4hint,key65280";
    assert!(rt; is_made(alloc, Mandatory::from_keys(alloc, &keys), text));
    let groups = TlsSupportedGroups::from_keys(alloc, &[29, 23]);
    assert!(rt; is_made(alloc, groups, "tls-supported-groups=29,23"));
    let mut protocols = AlpnBuilder::empty(alloc);
    assert!(rt; protocols.push(b"h2").is_ok() && protocols.push(b"h3-19").is_ok());
    assert!(rt; is_printed(alloc, &protocols.freeze(), "alpn=h2,h3-19") == Ok(true));
    assert!(rt; is_printed(alloc, &AlpnBuilder::empty(alloc).freeze(), "") == Ok(true));
}

#[test]
fn addresses_are_printed(rt: HostRuntime) {
    let alloc = rt.alloc();
    let hosts = [Ipv4Addr::new([192, 0, 2, 1]), Ipv4Addr::new([192, 0, 2, 2])];
    let hint = Ipv4Hint::from_addrs(alloc, &hosts);
    assert!(rt; is_made(alloc, hint, "ipv4hint=192.0.2.1,192.0.2.2"));
    let host = Ipv6Addr::new([0x20, 1, 0x0d, 0xb8, 0, 0, 0, 0, 0, 0, 0, 0, 0, 0, 0, 1]);
    let hint = Ipv6Hint::from_addrs(alloc, &[host]);
    assert!(rt; is_made(alloc, hint, "ipv6hint=2001:db8::1"));
}

#[test]
fn other_values_are_printed(rt: HostRuntime) {
    let alloc = rt.alloc();
    assert!(rt;
        is_made(
            alloc,
            DohPath::from_text(alloc, "/q{?dns}"),
            "dohpath=/q{?dns}"
        )
    );
    assert!(rt; is_made(alloc, DohPath::from_text(alloc, ""), "dohpath"));
    let no_octets = Octets::from_vec(Vec::new(alloc));
    assert!(rt; is_made(alloc, Ech::from_octets(no_octets), "ech"));
    assert!(rt; is_printed(alloc, &Port::new(53), "port=53") == Ok(true));
    assert!(rt; is_printed(alloc, &NoDefaultAlpn, "no-default-alpn") == Ok(true));
    assert!(rt; is_printed(alloc, &Ohttp, "ohttp") == Ok(true));
}

/// Tokens, and the text of the values that they spell.
const PRINTED: [(&[u8], &str); 8] = [
    (b"alpn=f\\\\oo\\,bar,h2", "alpn=f\\\\\\\\oo\\\\,bar,h2"),
    (b"alpn= \xe9", "alpn=\\ \\233"),
    (b"ech=a2V5", "ech=a2V5"),
    (b"key5", "key5"),
    (b"key3=\x005\x00", "key3=\\0005\\000"),
    (b"pvd=a", "pvd=a"),
    (b"port=0053", "port=53"),
    (b"key667=hello\xd2qoo", "key667=hello\\210qoo"),
];

/// Whether the value that a token spells is printed so.
fn is_spelled(alloc: Global, token: &[u8], text: &str) -> bool {
    match scan_param(alloc, token) {
        Ok(value) => is_printed(alloc, &value, text) == Ok(true),
        Err(_) => false,
    }
}

#[test]
fn values_of_tokens_are_printed(rt: HostRuntime) {
    for (token, text) in &PRINTED {
        assert!(rt; is_spelled(rt.alloc(), token, text));
    }
}
