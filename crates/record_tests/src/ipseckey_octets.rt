//! IPSECKEY data in octets (RFC 4025, section 2).

use key_rdata::{Ipseckey, IpseckeyGateway};
use key_registry::{IpseckeyAlgorithm, IpseckeyGatewayType};
use std::alloc::Global;
use wire_base::{ComposeRecordData, ParseError, ParseRecordData, Parser, RecordData, Rtype};

/// Octets behind `03 66 6f 6f 00`, the name `foo.`, and their fault, if they have one.
const READ: [(&[u8], Option<ParseError>); 14] = [
    (b"\x0a\x00\x00", None),
    (b"\x0a\x01\x02\xc0\x00\x02\x26key", None),
    (
        b"\x0a\x02\x02\x20\x01\x0d\xb8\0\0\0\0\0\0\0\0\0\0\0\x01key",
        None,
    ),
    (b"\x0a\x03\x00\x01\x61\x00", None),
    (b"\x0a\x00", Some(ParseError::ShortInput)),
    (b"\x0a\x04\x02.key", Some(ParseError::Form)),
    (b"\x0a\x01\x02\xc0\x00\x02", Some(ParseError::ShortInput)),
    (
        b"\x0a\x02\x02\x20\x01\x0d\xb8",
        Some(ParseError::ShortInput),
    ),
    (b"\x0a\x03\x02\x01\x61", Some(ParseError::ShortInput)),
    (b"\x0a\x03\x02\x40\x00key", Some(ParseError::Form)),
    (b"\x0a\x03\x02\xc0\x00key", Some(ParseError::Form)),
    (b"\x0a\x03\x02\x01\x61\xc0\x00", Some(ParseError::Form)),
    (b"\x0a\x00\x01", Some(ParseError::ShortInput)),
    (b"\x0a\x03\x01\x01\x61\x00", Some(ParseError::ShortInput)),
];

/// The fault of octets as data, behind the name; and whether the parser stands where it has to, and data that is read
/// is composed to the same octets.
fn read_behind_name(
    alloc: Global,
    octets: &[u8],
) -> Result<(Option<ParseError>, bool), ParseError> {
    let mut message = Vec::new(alloc);
    append(&mut message, b"\x03foo\x00")?;
    append(&mut message, octets)?;
    let mut parser = Parser::from_ref(message.as_slice());
    parser.advance(5)?;
    match Ipseckey::parse(alloc, &mut parser) {
        Ok(found) => {
            let mut target = Vec::new(alloc);
            found.compose_rdata(&mut target)?;
            Ok((None, parser.remaining() == 0 && target.as_slice() == octets))
        }
        Err(error) => Ok((Some(error), parser.pos() == 5)),
    }
}

fn append(target: &mut Vec<u8>, octets: &[u8]) -> Result<(), ParseError> {
    target
        .extend_from_slice(octets)
        .map_err(|_| ParseError::NoMemory)
}

#[test]
fn octets_are_read_or_refused(rt: HostRuntime) {
    for (octets, fault) in &READ {
        assert!(rt; read_behind_name(rt.alloc(), octets) == Ok((*fault, true)));
    }
}

/// Types of gateways, octets of gateways, and their fault, if they have one.
const GATEWAYS: [(u8, &[u8], Option<ParseError>); 9] = [
    (0, b"", None),
    (1, b"\xc0\x00\x02\x26", None),
    (2, b"\x20\x01\x0d\xb8\0\0\0\0\0\0\0\0\0\0\0\x01", None),
    (3, b"\x00", None),
    (3, b"\x03foo\x00", None),
    (3, b"\x01a\x03foo\x00", None),
    (3, b"\xc0\x00", Some(ParseError::Form)),
    (3, b"\x01a\xc0\x00", Some(ParseError::Form)),
    (4, b"", Some(ParseError::Form)),
];

/// Algorithms, keys, and their fault, if they have one.
const KEYS: [(u8, &[u8], Option<ParseError>); 4] = [
    (0, b"", None),
    (0, b"key", None),
    (1, b"", Some(ParseError::ShortInput)),
    (1, b"key", None),
];

/// The octets of three numbers, a gateway and a key.
fn laid_end_to_end(
    alloc: Global,
    numbers: [u8; 3],
    gateway: &[u8],
    key: &[u8],
) -> Result<Vec<u8>, ParseError> {
    let mut octets = Vec::new(alloc);
    append(&mut octets, &numbers)?;
    append(&mut octets, gateway)?;
    append(&mut octets, key)?;
    Ok(octets)
}

/// Whether a gateway with each key has the gateway's fault, or else the key's.
fn gateway_decides_first(
    alloc: Global,
    number: u8,
    gateway: &[u8],
    fault: Option<ParseError>,
) -> Result<bool, ParseError> {
    for (algorithm, key, key_fault) in &KEYS {
        let octets = laid_end_to_end(alloc, [10, number, *algorithm], gateway, key)?;
        if read_behind_name(alloc, octets.as_slice())? != (fault.or(*key_fault), true) {
            return Ok(false);
        }
    }
    Ok(true)
}

#[test]
fn a_key_is_missed_behind_the_gateway(rt: HostRuntime) {
    for (number, gateway, fault) in &GATEWAYS {
        assert!(rt; gateway_decides_first(rt.alloc(), *number, gateway, *fault) == Ok(true));
    }
}

/// Whether octets are missed wherever data is cut off before its gateway ends.
fn cuts_are_short(alloc: Global, number: u8, gateway: &[u8]) -> Result<bool, ParseError> {
    let octets = laid_end_to_end(alloc, [10, number, 0], gateway, b"")?;
    for len in 0..octets.len() {
        let found = read_behind_name(alloc, &octets[..len])?;
        if found != (Some(ParseError::ShortInput), true) {
            return Ok(false);
        }
    }
    Ok(true)
}

#[test]
fn cut_octets_are_refused(rt: HostRuntime) {
    for (number, gateway, _) in &GATEWAYS {
        assert!(rt; cuts_are_short(rt.alloc(), *number, gateway) == Ok(true));
    }
}

/// Whether the fields of data are those of its octets.
fn has_fields(alloc: Global) -> Result<bool, ParseError> {
    let mut parser = Parser::from_ref(b"\x0a\x01\x02\xc0\x00\x02\x26key");
    let other = Ipseckey::parse_rdata(alloc, Rtype::A, &mut parser)?;
    let place = parser.pos();
    let Some(found) = Ipseckey::parse_rdata(alloc, Rtype::from_int(45), &mut parser)? else {
        return Ok(false);
    };
    Ok(
        other.is_none()
            && place == 0
            && found.rtype() == Rtype::from_int(45)
            && found.precedence() == 10
            && found.gateway_type() == IpseckeyGatewayType::IPV4
            && found.algorithm() == IpseckeyAlgorithm::RSA
            && found.gateway().rdlen() == 4
            && found
                .gateway()
                .is_correct_gateway_type(IpseckeyGatewayType::IPV4)
            && !found
                .gateway()
                .is_correct_gateway_type(IpseckeyGatewayType::NAME)
            && found.key().as_slice() == b"key".as_slice(),
    )
}

#[test]
fn data_has_its_fields(rt: HostRuntime) {
    assert!(rt; has_fields(rt.alloc()) == Ok(true));
}

/// The length of the gateway of a type that octets begin with, and the count of octets left behind it.
fn gateway_len(alloc: Global, number: u8, octets: &[u8]) -> Result<(u16, usize), ParseError> {
    let mut parser = Parser::from_ref(octets);
    let gateway_type = IpseckeyGatewayType::from(number);
    let gateway = IpseckeyGateway::parse(alloc, &mut parser, gateway_type)?;
    let copy = gateway.try_clone(alloc)?;
    Ok((copy.rdlen(), parser.remaining()))
}

#[test]
fn gateways_are_read(rt: HostRuntime) {
    assert!(rt; gateway_len(rt.alloc(), 0, b"\x01a\x00key") == Ok((0, 6)));
    assert!(rt; gateway_len(rt.alloc(), 1, b"\x01a\x00key") == Ok((4, 2)));
    assert!(rt; gateway_len(rt.alloc(), 2, b"\x01a\x00key") == Err(ParseError::ShortInput));
    assert!(rt; gateway_len(rt.alloc(), 3, b"\x01a\x00key") == Ok((3, 3)));
    assert!(rt; gateway_len(rt.alloc(), 4, b"\x01a\x00key") == Err(ParseError::Form));
}
