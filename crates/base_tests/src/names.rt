//! Names that stand alone, and their order (RFC 4034, section 6.1).

use std::alloc::Global;
use std::cmp::Ordering;
use std::cmp::Ordering::{Equal, Greater, Less};
use wire_base::{Name, Octets, ParseError};

/// The name that these octets are.
fn name_of(alloc: Global, octets: &[u8]) -> Result<Name, ParseError> {
    Name::from_octets(Octets::from_slice(alloc, octets)?)
}

/// Octets, and why they are no name, if they are none.
const OCTETS: [(&[u8], Option<ParseError>); 11] = [
    (b"\x00", None),
    (b"\x03Foo\x01a\x00", None),
    (b"", Some(ParseError::ShortInput)),
    (b"\x03foo", Some(ParseError::ShortInput)),
    (b"\x03fo", Some(ParseError::ShortInput)),
    (b"\x40\x00", Some(ParseError::Form)),
    (b"\x40", Some(ParseError::Form)),
    (b"\xc0", Some(ParseError::Form)),
    (b"\x03foo\xc0", Some(ParseError::Form)),
    (b"\x01a\xc0\x00", Some(ParseError::Form)),
    (b"\x00\x00", Some(ParseError::Form)),
];

#[test]
fn octets_are_a_name_or_refused(rt: HostRuntime) {
    for (octets, error) in &OCTETS {
        assert_eq!(rt; name_of(rt.alloc(), octets).err(), *error, "{octets:?}");
    }
}

/// The order of two names, and that of their octets.
fn orders(alloc: Global, one: &[u8], other: &[u8]) -> Result<(Ordering, Ordering), ParseError> {
    let one = name_of(alloc, one)?;
    let other = name_of(alloc, other)?;
    Ok((one.cmp(&other), one.lowercase_composed_cmp(&other)))
}

/// The names of RFC 4034, section 6.1, each with the one behind it; and two more pairs.
const PAIRS: [(&[u8], &[u8], Ordering, Ordering); 10] = [
    (b"\x07example\x00", b"\x01a\x07example\x00", Less, Greater),
    (
        b"\x01a\x07example\x00",
        b"\x08yljkjljk\x01a\x07example\x00",
        Less,
        Less,
    ),
    (
        b"\x08yljkjljk\x01a\x07example\x00",
        b"\x01Z\x01a\x07example\x00",
        Less,
        Greater,
    ),
    (
        b"\x01Z\x01a\x07example\x00",
        b"\x04zABC\x01a\x07EXAMPLE\x00",
        Less,
        Less,
    ),
    (
        b"\x04zABC\x01a\x07EXAMPLE\x00",
        b"\x01z\x07example\x00",
        Less,
        Greater,
    ),
    (
        b"\x01z\x07example\x00",
        b"\x01\x01\x01z\x07example\x00",
        Less,
        Greater,
    ),
    (
        b"\x01\x01\x01z\x07example\x00",
        b"\x01*\x01z\x07example\x00",
        Less,
        Less,
    ),
    (
        b"\x01*\x01z\x07example\x00",
        b"\x01\xc8\x01z\x07example\x00",
        Less,
        Less,
    ),
    (
        b"\x01Z\x07example\x00",
        b"\x01z\x07EXAMPLE\x00",
        Equal,
        Equal,
    ),
    (
        b"\x01Z\x07example\x00",
        b"\x02aa\x07example\x00",
        Greater,
        Less,
    ),
];

#[test]
fn names_have_a_canonical_order(rt: HostRuntime) {
    for (one, other, by_labels, by_octets) in &PAIRS {
        let found = orders(rt.alloc(), one, other);
        assert_eq!(rt;
            found,
            Ok((*by_labels, *by_octets)),
            "{one:?} and {other:?}"
        );
    }
}
