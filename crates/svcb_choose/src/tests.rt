//! Choices of records in octets.

use crate::{Choice, Endpoint, choose, priorities_ascend};
use registry::SvcParamKey;
use std::alloc::Global;
use svcb_rdata::{HttpsVariant, SvcVariant, SvcbRdata, SvcbVariant};
use wire_base::{Name, NoMemory, Octets, ParseError, Parser};

/// The records in octets.
fn records_of<V: SvcVariant>(
    alloc: Global,
    octets: &[&[u8]],
) -> Result<Vec<SvcbRdata<V>>, ParseError> {
    let mut records = Vec::new(alloc);
    for octets in octets {
        let found = SvcbRdata::parse(alloc, &mut Parser::from_ref(octets))?;
        if records.push(found).is_err() {
            return Err(ParseError::NoMemory);
        }
    }
    Ok(records)
}

/// Owned copies of protocols.
fn protocols_of(alloc: Global, protocols: &[&[u8]]) -> Result<Vec<Octets>, NoMemory> {
    let mut owned = Vec::new(alloc);
    for protocol in protocols {
        owned.push(Octets::from_slice(alloc, protocol)?)?;
    }
    Ok(owned)
}

/// What is chosen for an owner from records in octets. `Form`: their priorities don't ascend, or a record is malformed.
fn chosen<V: SvcVariant>(
    alloc: Global,
    owner: &[u8],
    records: &[&[u8]],
    understood: &[SvcParamKey],
    defaults: &[&[u8]],
) -> Result<Choice, ParseError> {
    let owner = Name::from_octets(Octets::from_slice(alloc, owner)?)?;
    let records: Vec<SvcbRdata<V>> = records_of(alloc, records)?;
    let defaults = protocols_of(alloc, defaults)?;
    if !priorities_ascend(&records) {
        return Err(ParseError::Form);
    }
    Ok(choose(alloc, &owner, &records, understood, &defaults)?)
}

/// Whether protocols are these.
fn are_protocols(protocols: &[Octets], expected: &[&[u8]]) -> bool {
    if protocols.len() != expected.len() {
        return false;
    }
    for (protocol, expected) in protocols.iter().zip(expected) {
        if protocol.as_slice() != *expected {
            return false;
        }
    }
    true
}

/// Whether an endpoint has these parts.
fn is_endpoint(
    endpoint: &Endpoint,
    index: usize,
    target: &[u8],
    port: Option<u16>,
    protocols: &[&[u8]],
) -> bool {
    endpoint.index == index
        && endpoint.target.as_slice() == target
        && endpoint.port == port
        && are_protocols(endpoint.protocols.as_slice(), protocols)
}

/// Whether the first and the last of three records are chosen, and the second isn't, whose key isn't understood.
fn are_two_chosen<V: SvcVariant>(alloc: Global) -> Result<bool, ParseError> {
    let owner = b"\x07example\x03com\x00";
    let records: [&[u8]; 3] = [
        b"\x00\x01\x00\x00\x01\x00\x03\x02h2\x00\x03\x00\x02\x20\xfb",
        b"\x00\x02\x03foo\x00\x00\x00\x00\x02\x00\x04\x00\x04\x00\x04\xc0\x00\x02\x01",
        b"\x00\x03\x03bar\x00",
    ];
    let understood = [SvcParamKey::ALPN, SvcParamKey::PORT];
    let choice = chosen::<V>(alloc, owner, &records, &understood, &[b"http/1.1"])?;
    match &choice {
        Choice::Endpoints(endpoints) => match endpoints.as_slice() {
            [first, last] => Ok(
                is_endpoint(first, 0, owner, Some(8443), &[b"h2", b"http/1.1"])
                    && is_endpoint(last, 2, b"\x03bar\x00", None, &[b"http/1.1"]),
            ),
            _ => Ok(false),
        },
        _ => Ok(false),
    }
}

#[test]
fn usable_records_are_endpoints(rt: HostRuntime) {
    assert!(rt; are_two_chosen::<SvcbVariant>(rt.alloc()) == Ok(true));
    assert!(rt; are_two_chosen::<HttpsVariant>(rt.alloc()) == Ok(true));
}

/// Whether this alias is chosen for `a.`, or with no octets, that there is no service.
fn is_alias(alloc: Global, records: &[&[u8]], alias: &[u8]) -> Result<bool, ParseError> {
    let choice = chosen::<SvcbVariant>(alloc, b"\x01a\x00", records, &[], &[])?;
    match &choice {
        Choice::Alias(target) => Ok(target.as_slice() == alias),
        Choice::Unavailable => Ok(alias.is_empty()),
        Choice::Endpoints(_) => Ok(false),
    }
}

#[test]
fn an_alias_counts_alone(rt: HostRuntime) {
    let records: [&[u8]; 2] = [b"\x00\x00\x03foo\x00", b"\x00\x01\x00"];
    assert!(rt; is_alias(rt.alloc(), &records, b"\x03foo\x00") == Ok(true));
    assert!(rt; is_alias(rt.alloc(), &[b"\x00\x00\x00"], b"") == Ok(true));
}

/// How many endpoints the records have for `a.`, with `port` understood and no defaults.
fn count(alloc: Global, records: &[&[u8]]) -> Result<Option<usize>, ParseError> {
    let choice = chosen::<SvcbVariant>(alloc, b"\x01a\x00", records, &[SvcParamKey::PORT], &[])?;
    match &choice {
        Choice::Endpoints(endpoints) => Ok(Some(endpoints.as_slice().len())),
        _ => Ok(None),
    }
}

#[test]
fn priorities_are_to_ascend(rt: HostRuntime) {
    assert!(rt; count(rt.alloc(), &[]) == Ok(Some(0)));
    let equal: [&[u8]; 2] = [b"\x00\x01\x00", b"\x00\x01\x00"];
    assert!(rt; count(rt.alloc(), &equal) == Ok(Some(2)));
    let falling: [&[u8]; 2] = [b"\x00\x02\x00", b"\x00\x01\x00"];
    assert!(rt; count(rt.alloc(), &falling) == Err(ParseError::Form));
}

/// Records, and whether a client that understands `port` can use them.
const RECORDS: [(&[u8], usize); 13] = [
    // mandatory=port port=53
    (
        b"\x00\x01\x00\x00\x00\x00\x02\x00\x03\x00\x03\x00\x02\x00\x35",
        1,
    ),
    // key667 has any octets
    (b"\x00\x01\x00\x02\x9b\x00\x01\xff", 1),
    // a port of one octet
    (b"\x00\x01\x00\x00\x03\x00\x01\x35", 0),
    // mandatory=port, and no port
    (b"\x00\x01\x00\x00\x00\x00\x02\x00\x03", 0),
    // mandatory=ipv4hint ipv4hint=192.0.2.1
    (
        b"\x00\x01\x00\x00\x00\x00\x02\x00\x04\x00\x04\x00\x04\xc0\x00\x02\x01",
        0,
    ),
    // mandatory=port,port port=53
    (
        b"\x00\x01\x00\x00\x00\x00\x04\x00\x03\x00\x03\x00\x03\x00\x02\x00\x35",
        0,
    ),
    // an address of three octets
    (b"\x00\x01\x00\x00\x04\x00\x03\xc0\x00\x02", 0),
    // no-default-alpn of one octet
    (b"\x00\x01\x00\x00\x01\x00\x03\x02h2\x00\x02\x00\x01\x00", 0),
    // mandatory without keys
    (b"\x00\x01\x00\x00\x00\x00\x00", 0),
    // mandatory=mandatory
    (b"\x00\x01\x00\x00\x00\x00\x02\x00\x00", 0),
    // alpn without protocols
    (b"\x00\x01\x00\x00\x01\x00\x00", 0),
    // alpn of an empty protocol
    (b"\x00\x01\x00\x00\x01\x00\x01\x00", 0),
    // no-default-alpn without alpn
    (b"\x00\x01\x00\x00\x02\x00\x00", 0),
];

#[test]
fn records_are_usable_by_their_values(rt: HostRuntime) {
    for (record, endpoints) in &RECORDS {
        assert!(rt;
            count(rt.alloc(), &[*record]) == Ok(Some(*endpoints)),
            "{record:?}"
        );
    }
}

/// Whether the one endpoint of a record has these protocols, where `h2` and twice `h3` are the defaults.
fn are_spoken(alloc: Global, record: &[u8], protocols: &[&[u8]]) -> Result<bool, ParseError> {
    let choice = chosen::<SvcbVariant>(alloc, b"\x00", &[record], &[], &[b"h2", b"h3", b"h3"])?;
    match &choice {
        Choice::Endpoints(endpoints) => match endpoints.as_slice() {
            [endpoint] => Ok(are_protocols(endpoint.protocols.as_slice(), protocols)),
            _ => Ok(false),
        },
        _ => Ok(false),
    }
}

#[test]
fn defaults_are_added_once(rt: HostRuntime) {
    let named = b"\x00\x01\x00\x00\x01\x00\x03\x02h2";
    assert!(rt; are_spoken(rt.alloc(), named, &[b"h2", b"h3"]) == Ok(true));
    let alone = b"\x00\x01\x00\x00\x01\x00\x03\x02h2\x00\x02\x00\x00";
    assert!(rt; are_spoken(rt.alloc(), alone, &[b"h2"]) == Ok(true));
}
