//! Aliases in answers: one, two of them, loops, and records that are no alias; and the port of a service behind one.

use crate::messages::{KNOTD_HTTPS, NAMED_HTTPS};
use crate::names::{Labels, is_name};
use dns_message::{AliasError, Message};
use std::alloc::Global;
use std::test::Fail;
use svcb_rdata::{HttpsVariant, SvcbRef};
use wire_base::{Name, Octets, ParseError, ParsedName, Rtype};

/// The alias www.example of svc.example, and the HTTPS record of svc.example with the port 8443.
const ALIAS: &[u8] = b"\
    \x00\x00\x80\x00\x00\x01\x00\x02\x00\x00\x00\x00\
    \x03www\x07example\x00\x00\x41\x00\x01\
    \xc0\x0c\x00\x05\x00\x01\x00\x00\x00\x3c\x00\x06\x03svc\xc0\x10\
    \xc0\x29\x00\x41\x00\x01\x00\x00\x00\x3c\x00\x09\
    \x00\x01\x00\x00\x03\x00\x02\x20\xfb";

/// The same, with two octets of priority alone for the data of the HTTPS record.
const CUT_SERVICE: &[u8] = b"\
    \x00\x00\x80\x00\x00\x01\x00\x02\x00\x00\x00\x00\
    \x03www\x07example\x00\x00\x41\x00\x01\
    \xc0\x0c\x00\x05\x00\x01\x00\x00\x00\x3c\x00\x06\x03svc\xc0\x10\
    \xc0\x29\x00\x41\x00\x01\x00\x00\x00\x3c\x00\x02\x00\x01";

/// The alias b.example of c.example, and behind it the alias a.example of b.example, its target in upper case.
const TWO_ALIASES: &[u8] = b"\
    \x00\x00\x80\x00\x00\x00\x00\x02\x00\x00\x00\x00\
    \x01b\x07example\x00\x00\x05\x00\x01\x00\x00\x00\x3c\x00\x04\x01c\xc0\x0e\
    \x01a\xc0\x0e\x00\x05\x00\x01\x00\x00\x00\x3c\x00\x0b\x01B\x07EXAMPLE\x00";

/// Two aliases that lead to each other, a.example and b.example, and the alias c.example of a.example.
const LOOP: &[u8] = b"\
    \x00\x00\x80\x00\x00\x00\x00\x03\x00\x00\x00\x00\
    \x01a\x07example\x00\x00\x05\x00\x01\x00\x00\x00\x3c\x00\x04\x01b\xc0\x0e\
    \xc0\x21\x00\x05\x00\x01\x00\x00\x00\x3c\x00\x02\xc0\x0c\
    \x01c\xc0\x0e\x00\x05\x00\x01\x00\x00\x00\x3c\x00\x02\xc0\x0c";

/// An alias of the root that leads to itself.
const OWN_ALIAS: &[u8] = b"\
    \x00\x00\x80\x00\x00\x00\x00\x01\x00\x00\x00\x00\
    \x00\x00\x05\x00\x01\x00\x00\x00\x3c\x00\x01\x00";

/// A record of type 5 in class 3, and one of type 39, DNAME, in class 1.
const NO_ALIAS: &[u8] = b"\
    \x00\x00\x80\x00\x00\x00\x00\x02\x00\x00\x00\x00\
    \x01a\x00\x00\x05\x00\x03\x00\x00\x00\x3c\x00\x03\x01b\x00\
    \xc0\x0c\x00\x27\x00\x01\x00\x00\x00\x3c\x00\x03\x01b\x00";

/// An alias with an octet behind its target, and one whose target is cut off.
const OCTET_LEFT: &[u8] = b"\
    \x00\x00\x80\x00\x00\x00\x00\x02\x00\x00\x00\x00\
    \x01a\x00\x00\x05\x00\x01\x00\x00\x00\x3c\x00\x04\x01b\x00\x00\
    \x01b\x00\x00\x05\x00\x01\x00\x00\x00\x3c\x00\x02\x01c";

/// An alias of the root, and then no second record.
const CUT_SECTION: &[u8] = b"\
    \x00\x00\x80\x00\x00\x00\x00\x02\x00\x00\x00\x00\
    \x00\x00\x05\x00\x01\x00\x00\x00\x3c\x00\x03\x01a\x00";

const SHORT: AliasError = AliasError::Parse(ParseError::ShortInput);

const FORM: AliasError = AliasError::Parse(ParseError::Form);

const A: &[u8] = b"\x01a\x07example\x00";

/// What an answer says of a name: the labels of its canonical name, none where it has no alias, or why there is none.
type Row = (
    &'static [u8],
    &'static [u8],
    Result<Option<Labels>, AliasError>,
);

/// As RFC 1034, section 4.3.2, step 3a, has aliases followed. That they end is this library's own.
const ROWS: [Row; 16] = [
    (
        NAMED_HTTPS,
        b"\x03www\x07example\x03com\x00",
        Ok(Some(&[b"web", b"example", b"com"])),
    ),
    (
        KNOTD_HTTPS,
        b"\x03www\x07example\x03com\x00",
        Ok(Some(&[b"web", b"example", b"com"])),
    ),
    (
        ALIAS,
        b"\x03www\x07example\x00",
        Ok(Some(&[b"svc", b"example"])),
    ),
    (
        ALIAS,
        b"\x03WWW\x07Example\x00",
        Ok(Some(&[b"svc", b"example"])),
    ),
    (ALIAS, b"\x03svc\x07example\x00", Ok(None)),
    (ALIAS, b"\x00", Ok(None)),
    (TWO_ALIASES, A, Ok(Some(&[b"c", b"example"]))),
    (TWO_ALIASES, b"\x01c\x07example\x00", Ok(None)),
    (LOOP, A, Err(AliasError::Loop)),
    (LOOP, b"\x01c\x07example\x00", Err(AliasError::Loop)),
    (OWN_ALIAS, b"\x00", Err(AliasError::Loop)),
    (NO_ALIAS, b"\x01a\x00", Ok(None)),
    (OCTET_LEFT, b"\x01a\x00", Err(FORM)),
    (OCTET_LEFT, b"\x01b\x00", Err(SHORT)),
    (OCTET_LEFT, b"\x01c\x00", Ok(None)),
    (CUT_SECTION, b"\x00", Err(SHORT)),
];

/// The name of these octets.
fn name(alloc: Global, octets: &[u8]) -> Result<Name, ParseError> {
    Name::from_octets(Octets::from_slice(alloc, octets)?)
}

/// What an answer says of a name.
fn canonical<'a>(
    alloc: Global,
    octets: &'a [u8],
    owner: &[u8],
) -> Result<Option<ParsedName<'a>>, AliasError> {
    let owner = name(alloc, owner)?;
    Message::from_octets(octets)?.canonical_name(&owner)
}

#[test]
fn aliases_are_followed(rt: HostRuntime) {
    for (octets, owner, wanted) in &ROWS {
        let is_wanted = match (canonical(rt.alloc(), octets, owner), wanted) {
            (Ok(Some(name)), Ok(Some(labels))) => is_name(&name, labels),
            (Ok(None), Ok(None)) => true,
            (Err(error), Err(wanted)) => error == *wanted,
            _ => false,
        };
        assert!(rt; is_wanted, "{octets:?} {owner:?}");
    }
}

/// The port in the first HTTPS record of an owner's canonical name.
fn port(alloc: Global, octets: &[u8], owner: &Name) -> Result<Option<u16>, AliasError> {
    let message = Message::from_octets(octets)?;
    let canonical = match message.canonical_name(owner)? {
        Some(target) => target.to_name(alloc)?,
        None => owner.try_clone(alloc)?,
    };
    let mut found = message.find(&canonical, Rtype::HTTPS)?;
    let Some(record) = found.next() else {
        return Ok(None);
    };
    let https = SvcbRef::<HttpsVariant>::parse(&mut record?.parser())?;
    Ok(https.params().port().map(|port| port.port()))
}

#[test]
fn services_behind_aliases_have_ports(rt: HostRuntime) -> Result<(), Fail> {
    let alloc = rt.alloc();
    let owner = name(alloc, b"\x03www\x07example\x00")?;
    assert_eq!(rt; port(alloc, ALIAS, &owner), Ok(Some(8443)));
    assert_eq!(rt; port(alloc, CUT_SERVICE, &owner), Err(SHORT));
    assert_eq!(rt; port(alloc, TWO_ALIASES, &owner), Ok(None));
    assert_eq!(rt; port(alloc, LOOP, &name(alloc, A)?), Err(AliasError::Loop));
    Ok(())
}
