//! The texts of names and of octets (RFC 1035, section 5.1).

use crate::printed::is_printed;
use dns_text::name_from_text;
use std::alloc::Global;
use text_spec::ScanError;
use wire_base::{Name, Octets, ParseError, PrintedOctets};

/// The wire form of the name that a text's one token spells.
fn scan_wire(alloc: Global, text: &[u8]) -> Result<Octets, ScanError> {
    let name = name_from_text(alloc, text)?;
    let octets = Octets::from_slice(alloc, name.as_slice())?;
    Ok(octets)
}

/// Texts of names, and their wire forms.
const NAMES: [(&[u8], &[u8]); 9] = [
    (b".", b"\x00"),
    (b"a.", b"\x01a\x00"),
    (b"a\\.b.c", b"\x03a.b\x01c\x00"),
    (b"a\"b.c\".", b"\x02ab\x01c\x00"),
    (b"\\@", b"\x01@\x00"),
    (b"@.", b"\x01@\x00"),
    (b"@a", b"\x02@a\x00"),
    (b"\\000\\255.x", b"\x02\x00\xff\x01x\x00"),
    (
        b"aaaaaaaaaaaaaaaaaaaaaaaaaaaaaaaaaaaaaaaaaaaaaaaaaaaaaaaaaaaaaaa",
        b"\x3faaaaaaaaaaaaaaaaaaaaaaaaaaaaaaaaaaaaaaaaaaaaaaaaaaaaaaaaaaaaaaa\x00",
    ),
];

#[test]
fn names_are_scanned(rt: HostRuntime) {
    for (text, wire) in &NAMES {
        let found = scan_wire(rt.alloc(), text);
        assert!(rt; matches!(&found, Ok(octets) if octets.as_slice() == *wire));
    }
}

#[test]
fn a_name_stands_alone(rt: HostRuntime) {
    let two = scan_wire(rt.alloc(), b"a b");
    assert!(rt; matches!(two, Err(ScanError::TrailingTokens)));
    let none = scan_wire(rt.alloc(), b" ; a");
    assert!(rt; matches!(none, Err(ScanError::EndOfEntry)));
}

/// Texts that are no names: without a label, with an empty one, a lone `@`, a label of 64 octets.
const NO_NAMES: [&[u8]; 8] = [
    b"\"\"",
    b"@",
    b"\"@\"",
    b"..",
    b"a..b",
    b".a",
    b"a..",
    b"aaaaaaaaaaaaaaaaaaaaaaaaaaaaaaaaaaaaaaaaaaaaaaaaaaaaaaaaaaaaaaaa",
];

#[test]
fn other_texts_are_no_names(rt: HostRuntime) {
    for text in &NO_NAMES {
        let found = scan_wire(rt.alloc(), text);
        assert!(rt; matches!(found, Err(ScanError::BadName)));
    }
}

/// The octets of the name of four labels, three of which have 63 octets, and the last so many.
fn long_name(alloc: Global, last: usize) -> Result<usize, ScanError> {
    let mut text = Vec::new(alloc);
    for len in [63, 63, 63, last] {
        for _ in 0..len {
            text.push(b'a')?;
        }
        text.push(b'.')?;
    }
    let wire = scan_wire(alloc, text.as_slice())?;
    Ok(wire.len())
}

#[test]
fn names_have_at_most_255_octets(rt: HostRuntime) {
    assert!(rt; long_name(rt.alloc(), 61) == Ok(255));
    assert!(rt; long_name(rt.alloc(), 62) == Err(ScanError::BadName));
}

/// Whether a name is printed so, without and with its final dot.
fn is_name_printed(
    alloc: Global,
    wire: &[u8],
    text: &str,
    dotted: &str,
) -> Result<bool, ParseError> {
    let name = Name::from_octets(Octets::from_slice(alloc, wire)?)?;
    let with_dot = name.fmt_with_dot();
    Ok(is_printed(alloc, &name, text)? && is_printed(alloc, &with_dot, dotted)?)
}

/// Names in wire form, and their texts without and with the final dot.
const PRINTED: [(&[u8], &str, &str); 4] = [
    (b"\x00", ".", "."),
    (b"\x03foo\x07example\x00", "foo.example", "foo.example."),
    (b"\x03a.b\x01@\x00", "a\\.b.@", "a\\.b.@."),
    (
        b"\x05 \";()\x03\x00\x7f\xff\x00",
        "\\ \\\"\\;\\(\\).\\000\\127\\255",
        "\\ \\\"\\;\\(\\).\\000\\127\\255.",
    ),
];

#[test]
fn names_are_printed(rt: HostRuntime) {
    for (wire, text, dotted) in &PRINTED {
        assert!(rt;
            is_name_printed(rt.alloc(), wire, text, dotted) == Ok(true),
            "{text}"
        );
    }
}

#[test]
fn octets_are_printed(rt: HostRuntime) {
    let octets = PrintedOctets::new(b"hello\xd2qoo \\.\t\x7f~");
    let text = "hello\\210qoo\\ \\\\.\\009\\127~";
    assert!(rt; is_printed(rt.alloc(), &octets, text) == Ok(true));
}
