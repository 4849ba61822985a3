//! Data that is cut off, values that are none of their type, and limits.

use crate::rebuilding::value;
use std::alloc::Global;
use std::test::Fail;
use svcb_params::SvcParamsRef;
use svcb_rdata::{Reply, SvcbRef, SvcbVariant, rebuild_svcb};
use wire_base::{ParseError, Parser};

/// Priority 1, the root, `alpn=h3,h2`, two addresses as `ipv4hint`, and one as `ipv6hint`.
const DATA: &[u8; 45] =
    b"\x00\x01\x00\x00\x01\x00\x06\x02h3\x02h2\x00\x04\x00\x08\xc0\x00\x02\x01\xc0\x00\x02\x02\x00\x06\x00\x10\x20\x01\x0d\xb8\x00\x00\x00\x00\x00\x00\x00\x00\x00\x00\x00\x01";

/// The fault of record data.
fn fault_of(octets: &[u8]) -> Option<ParseError> {
    let mut parser = Parser::from_ref(octets);
    let found: Result<SvcbRef<'_, SvcbVariant>, ParseError> = SvcbRef::parse(&mut parser);
    found.err()
}

#[test]
fn data_cut_off_is_short(rt: HostRuntime) {
    for len in 0..46 {
        // in front of the parameters, and behind each of them
        let fault = match len {
            3 | 13 | 25 | 45 => None,
            _ => Some(ParseError::ShortInput),
        };
        assert_eq!(rt; fault_of(&DATA[..len]), fault, "{len} octets");
    }
    // a length past the end
    let short = Some(ParseError::ShortInput);
    assert_eq!(rt; fault_of(b"\x00\x01\x00\x00\x03\xff\xff\x00\x35"), short);
    // an octet behind the value
    assert_eq!(rt; fault_of(b"\x00\x01\x00\x00\x03\x00\x01\x00\x35"), short);
    // a key twice
    let twice = b"\x00\x01\x00\x00\x03\x00\x00\x00\x03\x00\x00";
    assert_eq!(rt; fault_of(twice), Some(ParseError::Form));
}

/// Keys of types, with octets that are no value of the type. Those of `ech` and `dohpath` are any octets.
const MALFORMED: [(u16, &[u8]); 12] = [
    (0, b"\x00\x01\x00"),
    (1, b"\x03h2"),
    (2, b"\x00"),
    (3, b"\x00"),
    (3, b"\x00\x35\x00"),
    (4, b"\xc0\x00\x02"),
    (4, b"\xc0\x00\x02\x01\xc0"),
    (
        6,
        b"\x20\x01\x0d\xb8\x00\x00\x00\x00\x00\x00\x00\x00\x00\x00\x00",
    ),
    (8, b"\x00"),
    (9, b""),
    (9, b"\x00"),
    (9, b"\x00\x1d\x00"),
];

/// Whether the getter of a key's type finds a value.
fn is_found(params: &SvcParamsRef<'_>, key: u16) -> bool {
    match key {
        0 => params.mandatory().is_some(),
        1 => params.alpn().is_some(),
        2 => params.no_default_alpn(),
        3 => params.port().is_some(),
        4 => params.ipv4hint().is_some(),
        6 => params.ipv6hint().is_some(),
        8 => params.ohttp(),
        9 => params.tls_supported_groups().is_some(),
        _ => true,
    }
}

/// Whether the only item among the values of all types is an error.
fn ends_at_once(params: &SvcParamsRef<'_>) -> bool {
    let mut values = params.iter_all();
    matches!(values.next(), Some(Err(_))) && values.next().is_none()
}

/// Record data without a target name, with a value under a key and one octet under key 10.
fn data_with(alloc: Global, key: u16, value: &[u8]) -> Result<Vec<u8>, Fail> {
    let mut data = Vec::from_slice(alloc, b"\x00\x01\x00")?;
    data.extend_from_slice(&key.to_be_bytes())?;
    data.push(0)?;
    data.push((value.len() & 0xff) as u8)?;
    data.extend_from_slice(value)?;
    data.extend_from_slice(b"\x00\x0a\x00\x01\xaa")?;
    Ok(data)
}

#[test]
fn a_value_of_no_type_is_kept(rt: HostRuntime) -> Result<(), Fail> {
    for (key, value) in MALFORMED {
        let data = data_with(rt.alloc(), key, value)?;
        let found: SvcbRef<'_, SvcbVariant> = SvcbRef::parse(&mut Parser::from_ref(&data))?;
        let params = found.params();
        assert!(rt; !is_found(&params, key), "{key}: {value:?}");
        assert!(rt; ends_at_once(&params), "{key}: {value:?}");
        let rebuilt = rebuild_svcb(rt.alloc(), &data, 0, data.len(), &[], 100)?;
        assert_eq!(rt;
            rebuilt.octets.as_slice(),
            data.as_slice(),
            "{key}: {value:?}"
        );
    }
    Ok(())
}

const A: Reply = Reply::Accepted;

const S: Reply = Reply::ShortBuf;

/// What is answered within each limit from 0 on to pushes whose parameters have six, five and four octets.
const REPLIES: [[Reply; 3]; 17] = [
    [S, S, S],
    [S, S, S],
    [S, S, S],
    [S, S, S],
    [S, S, A],
    [S, A, S],
    [A, S, S],
    [A, S, S],
    [A, S, S],
    [A, S, S],
    [A, S, A],
    [A, A, S],
    [A, A, S],
    [A, A, S],
    [A, A, S],
    [A, A, A],
    [A, A, A],
];

#[test]
fn a_limit_refuses_each_push_by_itself(rt: HostRuntime) -> Result<(), Fail> {
    let alloc = rt.alloc();
    let pushes = [
        value(alloc, 3, b"\x00\x35")?,
        value(alloc, 5, b"\xaa")?,
        value(alloc, 8, b"")?,
    ];
    for (limit, replies) in REPLIES.iter().enumerate() {
        let rebuilt = rebuild_svcb(alloc, b"\x00\x01\x00", 0, 3, &pushes, limit)?;
        assert_eq!(rt;
            rebuilt.replies.as_slice(),
            replies.as_slice(),
            "limit {limit}"
        );
    }
    Ok(())
}
