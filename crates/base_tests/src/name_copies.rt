//! Octets and names copied, and names composed.

use std::alloc::Global;
use wire_base::{Name, NoMemory, Octets, ParseError, ParsedName, Parser};

/// Whether octets are copied.
fn are_copied(alloc: Global, octets: &[u8]) -> Result<bool, NoMemory> {
    let copy = Octets::from_slice(alloc, octets)?;
    Ok(copy.try_clone(alloc)? == copy && copy.as_slice() == octets)
}

#[test]
fn octets_are_copied(rt: HostRuntime) {
    assert!(rt; are_copied(rt.alloc(), b"") == Ok(true));
    assert!(rt; are_copied(rt.alloc(), b"\x0a\x0b\x0c") == Ok(true));
}

/// Whether a name is composed to octets, and so is its copy.
fn is_composed(alloc: Global, name: &Name, octets: &[u8]) -> Result<bool, NoMemory> {
    let mut target = Vec::new(alloc);
    name.compose(&mut target)?;
    let copy = name.try_clone(alloc)?;
    Ok(*name == copy && target.as_slice() == octets && copy.as_slice() == octets)
}

/// Whether the root is composed.
fn is_root(alloc: Global) -> Result<bool, NoMemory> {
    is_composed(alloc, &Name::root(alloc)?, b"\x00")
}

/// Whether the name at a place of a message is composed to octets, by itself too.
fn is_read(alloc: Global, message: &[u8], start: usize, octets: &[u8]) -> Result<bool, ParseError> {
    let mut parser = Parser::from_ref(message);
    parser.seek(start)?;
    let found = ParsedName::parse(&mut parser)?;
    let mut target = Vec::new(alloc);
    found.compose(&mut target)?;
    Ok(target.as_slice() == octets && is_composed(alloc, &found.to_name(alloc)?, octets)?)
}

#[test]
fn names_are_copied_and_composed(rt: HostRuntime) {
    assert!(rt; is_root(rt.alloc()) == Ok(true));
    let message = b"\x03foo\x00\x00\x01\xc0\x00";
    assert!(rt; is_read(rt.alloc(), message, 7, b"\x03foo\x00") == Ok(true));
    assert!(rt; is_read(rt.alloc(), b"\x01a\x00", 0, b"\x01a\x00") == Ok(true));
}
