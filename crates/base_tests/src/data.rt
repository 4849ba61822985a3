//! The texts of addresses, and of data of any type (RFC 3597, section 5; RFC 4291, section 2.2; RFC 5952).

use crate::printed::is_printed;
use dns_text::{Entry, EntryScanner, Scanner, scan_a, scan_aaaa, scan_unknown};
use std::alloc::Global;
use text_spec::ScanError;
use wire_base::{Ipv4Addr, Ipv6Addr, Octets, Rtype};
use wire_records::{A, Aaaa, Base16, Serial, UnknownRecordData};

/// The octets of the one IPv4 address of a text.
fn scan_ipv4(alloc: Global, text: &[u8]) -> Result<[u8; 4], ScanError> {
    let entry = Entry::from_text(text)?;
    let mut scanner = EntryScanner::new(entry);
    let a = scan_a(alloc, &mut scanner)?;
    scanner.check_end()?;
    Ok(a.addr().octets())
}

/// Texts, and the IPv4 address that they are.
const IPV4: [(&[u8], Result<[u8; 4], ScanError>); 9] = [
    (b"192.0.2.1", Ok([192, 0, 2, 1])),
    (b"0.0.0.0", Ok([0, 0, 0, 0])),
    (b"255.255.255.255", Ok([255, 255, 255, 255])),
    (b"192.0.2.1 x", Err(ScanError::TrailingTokens)),
    (b"192.0.2", Err(ScanError::BadAddress)),
    (b"192.0.2.256", Err(ScanError::BadAddress)),
    (b"192.0.2.01", Err(ScanError::BadAddress)),
    (b"192.0.2.1.", Err(ScanError::BadAddress)),
    (b"", Err(ScanError::EndOfEntry)),
];

#[test]
fn ipv4_addresses_are_scanned(rt: HostRuntime) {
    for (text, octets) in &IPV4 {
        assert!(rt; scan_ipv4(rt.alloc(), text) == *octets);
    }
}

/// The octets of the one IPv6 address of a text.
fn scan_ipv6(alloc: Global, text: &[u8]) -> Result<[u8; 16], ScanError> {
    let entry = Entry::from_text(text)?;
    let mut scanner = EntryScanner::new(entry);
    let aaaa = scan_aaaa(alloc, &mut scanner)?;
    scanner.check_end()?;
    Ok(aaaa.addr().octets())
}

/// Texts of IPv6 addresses, their octets, and how RFC 5952 has them printed.
const IPV6: [(&[u8], &[u8; 16], &str); 9] = [
    (
        b"2001:db9::12:13",
        b"\x20\x01\x0d\xb9\0\0\0\0\0\0\0\0\0\x12\0\x13",
        "2001:db9::12:13",
    ),
    (
        b"2001:0DB8:0:8002::2000:1",
        b"\x20\x01\x0d\xb8\0\0\x80\x02\0\0\0\0\x20\0\0\x01",
        "2001:db8:0:8002::2000:1",
    ),
    (b"::", b"\0\0\0\0\0\0\0\0\0\0\0\0\0\0\0\0", "::"),
    (b"::1", b"\0\0\0\0\0\0\0\0\0\0\0\0\0\0\0\x01", "::1"),
    (
        b"2001:db8:0:0:1:0:0:1",
        b"\x20\x01\x0d\xb8\0\0\0\0\0\x01\0\0\0\0\0\x01",
        "2001:db8::1:0:0:1",
    ),
    (
        b"2001:db8:0:1:1:1:1:1",
        b"\x20\x01\x0d\xb8\0\0\0\x01\0\x01\0\x01\0\x01\0\x01",
        "2001:db8:0:1:1:1:1:1",
    ),
    (
        b"::FFFF:198.51.100.100",
        b"\0\0\0\0\0\0\0\0\0\0\xff\xff\xc6\x33\x64\x64",
        "::ffff:198.51.100.100",
    ),
    (
        b"2001:db8:122:344::192.0.2.33",
        b"\x20\x01\x0d\xb8\x01\x22\x03\x44\0\0\0\0\xc0\0\x02\x21",
        "2001:db8:122:344::c000:221",
    ),
    (
        b"1:2:3:4:5:6:7::",
        b"\0\x01\0\x02\0\x03\0\x04\0\x05\0\x06\0\x07\0\0",
        "1:2:3:4:5:6:7:0",
    ),
];

#[test]
fn ipv6_addresses_are_scanned(rt: HostRuntime) {
    for (text, octets, _printed) in &IPV6 {
        assert!(rt; scan_ipv6(rt.alloc(), text) == Ok(**octets));
    }
}

#[test]
fn ipv6_addresses_are_printed(rt: HostRuntime) {
    for (_text, octets, printed) in &IPV6 {
        let address = Ipv6Addr::new(**octets);
        assert!(rt;
            is_printed(rt.alloc(), &address, printed) == Ok(true),
            "{printed}"
        );
        assert!(rt;
            is_printed(rt.alloc(), &Aaaa::new(address), printed) == Ok(true),
            "{printed}"
        );
    }
}

#[test]
fn ipv4_addresses_are_printed(rt: HostRuntime) {
    let address = Ipv4Addr::new([192, 0, 2, 1]);
    assert!(rt; is_printed(rt.alloc(), &address, "192.0.2.1") == Ok(true));
    assert!(rt; is_printed(rt.alloc(), &A::new(address), "192.0.2.1") == Ok(true));
}

/// Texts that are no IPv6 addresses.
const NO_IPV6: [&[u8]; 8] = [
    b"1:2:3:4:5:6:7",
    b"1:2:3:4:5:6:7:8:9",
    b"1::2::3",
    b":::",
    b"12345::",
    b"::1.2.3",
    b"1.2.3.4::",
    b"::g",
];

#[test]
fn other_texts_are_no_ipv6_addresses(rt: HostRuntime) {
    for text in &NO_IPV6 {
        assert!(rt; scan_ipv6(rt.alloc(), text) == Err(ScanError::BadAddress));
    }
}

/// The octets of data of type 999 in a text, and how many tokens are taken then.
fn scan_any(alloc: Global, text: &[u8]) -> Result<(Result<Octets, ScanError>, usize), ScanError> {
    let entry = Entry::from_text(text)?;
    let mut scanner = EntryScanner::new(entry);
    let found = scan_unknown(alloc, Rtype::from_int(999), &mut scanner);
    let octets = match found {
        Ok(data) => Ok(Octets::from_slice(alloc, data.octets())?),
        Err(error) => Err(error),
    };
    Ok((octets, scanner.taken()))
}

/// Texts behind the marker, their octets or fault, and how many tokens are taken.
const ANY: [(&[u8], Result<&[u8], ScanError>, usize); 7] = [
    (b"3 0A0b0c", Ok(b"\x0a\x0b\x0c"), 2),
    (b"3 0A 0b 0c", Ok(b"\x0a\x0b\x0c"), 4),
    (b"0", Ok(b""), 1),
    (b"4 0a0b0c", Err(ScanError::BadNumber), 0),
    (b"65536 00", Err(ScanError::BadNumber), 0),
    (b"1 0 00", Err(ScanError::BadBase16), 1),
    (b"", Err(ScanError::EndOfEntry), 0),
];

#[test]
fn data_of_any_type_is_scanned(rt: HostRuntime) {
    for (text, octets, taken) in &ANY {
        let found = scan_any(rt.alloc(), text);
        assert!(rt;
            match (&found, octets) {
                (Ok((Ok(found), place)), Ok(octets)) => found.as_slice() == *octets
                    && place == taken,
                (Ok((Err(error), place)), Err(fault)) => error == fault && place == taken,
                _ => false,
            }
        );
    }
}

/// Whether data of type 999 is printed so.
fn is_any_printed(alloc: Global, octets: &[u8], text: &str) -> Result<bool, ScanError> {
    let octets = Octets::from_slice(alloc, octets)?;
    let Ok(data) = UnknownRecordData::new(Rtype::from_int(999), octets) else {
        return Err(ScanError::LongRecord);
    };
    Ok(is_printed(alloc, &data, text)?)
}

#[test]
fn data_of_any_type_is_printed(rt: HostRuntime) {
    assert!(rt; is_any_printed(rt.alloc(), b"\x0a\x0b\xfc", "\\# 3 0A0BFC") == Ok(true));
    assert!(rt; is_any_printed(rt.alloc(), b"", "\\# 0") == Ok(true));
}

#[test]
fn octets_and_serials_are_printed(rt: HostRuntime) {
    let octets: &[u8] = b"\x0a\xfc";
    for (is_upper, text) in [(true, "0AFC"), (false, "0afc")] {
        let digits = Base16 { octets, is_upper };
        assert!(rt; is_printed(rt.alloc(), &digits, text) == Ok(true), "{text}");
    }
    let serial = Serial::from_int(4_294_967_295);
    assert!(rt; is_printed(rt.alloc(), &serial, "4294967295") == Ok(true));
}
