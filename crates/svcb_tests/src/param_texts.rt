//! Parameters as text.

use crate::printed::is_printed;
use dns_text::display_zonefile;
use std::alloc::Global;
use svcb_params::{SvcParams, SvcParamsRef};
use text_spec::DisplayKind;
use wire_base::{NoMemory, Octets, ParseError};

/// Octets of parameters, and their text.
const TEXTS: [(&[u8], &str); 11] = [
    (b"", ""),
    (b"\x00\x01\x00\x00\x00\x03\x00\x02\x00\x35", "key1 port=53"),
    (b"\x00\x00\x00\x02\x00\x7b", "key0=\\000{"),
    (b"\x00\x03\x00\x03\x00\x35\x00", "key3=\\0005\\000"),
    (b"\x00\x05\x00\x00", "key5"),
    (
        b"\x00\x01\x00\x03\x02h2\x00\x03\x00\x02\x00\x35",
        "alpn=h2 port=53",
    ),
    (
        b"\x00\x00\x00\x04\x00\x01\x00\x03\x00\x01\x00\x03\x02h2\x00\x03\x00\x02\x00\x35",
        "mandatory=alpn,port alpn=h2 port=53",
    ),
    // a key that is mandatory and not there
    (
        b"\x00\x00\x00\x04\x00\x01\x00\x04\x00\x01\x00\x03\x02h2\x00\x03\x00\x02\x00\x35",
        "key0=\\000\\001\\000\\004 alpn=h2 port=53",
    ),
    (b"\x00\x07\x00\x02/q", "dohpath=/q"),
    (b"\x00\x07\x00\x02;q", "key7=\\;q"),
    (
        b"\x00\x09\x00\x04\x00\x1d\x00\x1d",
        "key9=\\000\\029\\000\\029",
    ),
];

/// Whether octets are parameters with this text.
fn has_text(alloc: Global, octets: &[u8], text: &str) -> Result<bool, NoMemory> {
    match SvcParamsRef::from_slice(octets) {
        Ok(params) => Ok(
            is_printed(alloc, &params, text)?
                && is_printed(alloc, &params.to_owned_data(alloc)?, text)?,
        ),
        Err(_) => Ok(false),
    }
}

#[test]
fn parameters_are_printed(rt: HostRuntime) {
    for (octets, text) in &TEXTS {
        assert!(rt; has_text(rt.alloc(), octets, text) == Ok(true));
    }
}

/// Whether a port is laid out in brackets.
fn is_in_brackets(alloc: Global) -> Result<bool, ParseError> {
    let octets = Octets::from_slice(alloc, b"\x00\x03\x00\x02\x00\x35")?;
    let params = SvcParams::from_octets(octets)?;
    let text = display_zonefile(alloc, &params, DisplayKind::Multiline)?;
    Ok(text.as_slice() == b"( port=53 )".as_slice())
}

#[test]
fn parameters_are_laid_out(rt: HostRuntime) {
    assert!(rt; is_in_brackets(rt.alloc()) == Ok(true));
}
