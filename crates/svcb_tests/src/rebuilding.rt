//! Record data rebuilt, and the refusals.

use std::alloc::Global;
use std::test::Fail;
use svcb_rdata::{
    AllValues, RebuildError, Rebuilt, Reply, SvcParamKey, UnknownSvcParam, rebuild_svcb,
};
use wire_base::{Octets, ParseError};

/// What `rebuild_svcb` answers: the octets and the replies, or the refusal.
type Answer<'a> = Result<(&'a [u8], &'a [Reply]), RebuildError>;

/// The data of a message from a place on, a limit, the pushes by key and octets, and the answer.
struct Row {
    message: &'static [u8],
    start: usize,
    limit: usize,
    pushes: &'static [(u16, &'static [u8])],
    answer: Answer<'static>,
}

const ROWS: [Row; 9] = [
    // the target is written uncompressed
    Row {
        message: b"\x03foo\x00\x00\x01\xc0\x00",
        start: 5,
        limit: 0,
        pushes: &[],
        answer: Ok((b"\x00\x01\x03foo\x00", &[])),
    },
    Row {
        message: b"\x00\x01\x00",
        start: 0,
        limit: 6,
        pushes: &[(3, b"\x00\x35"), (3, b"\x00\x36"), (8, b"")],
        answer: Ok((
            b"\x00\x01\x00\x00\x03\x00\x02\x00\x35",
            &[Reply::Accepted, Reply::DuplicateKey, Reply::ShortBuf],
        )),
    },
    // ascending keys, whatever the order of the pushes
    Row {
        message: b"\x00\x01\x00",
        start: 0,
        limit: 100,
        pushes: &[(65535, b"\xff"), (0, b"\x00\x01")],
        answer: Ok((
            b"\x00\x01\x00\x00\x00\x00\x02\x00\x01\xff\xff\x00\x01\xff",
            &[Reply::Accepted, Reply::Accepted],
        )),
    },
    // after a refused push the next one is tried
    Row {
        message: b"\x00\x01\x00",
        start: 0,
        limit: 8,
        pushes: &[(5, b"\x00\x11\x22\x33\x44"), (6, b"\xaa")],
        answer: Ok((
            b"\x00\x01\x00\x00\x06\x00\x01\xaa",
            &[Reply::ShortBuf, Reply::Accepted],
        )),
    },
    // a pointer to itself
    Row {
        message: b"\x00\x01\xc0\x02",
        start: 0,
        limit: 100,
        pushes: &[],
        answer: Err(RebuildError::Parse(ParseError::Form)),
    },
    // a key twice, whose second length is cut off
    Row {
        message: b"\x00\x01\x00\x00\x03\x00\x00\x00\x03",
        start: 0,
        limit: 100,
        pushes: &[],
        answer: Err(RebuildError::Parse(ParseError::Form)),
    },
    // a length that is cut off
    Row {
        message: b"\x00\x01\x00\x00\x03\x00\x00\x00\x04",
        start: 0,
        limit: 100,
        pushes: &[],
        answer: Err(RebuildError::Parse(ParseError::ShortInput)),
    },
    Row {
        message: b"\x00",
        start: 0,
        limit: 100,
        pushes: &[],
        answer: Err(RebuildError::Parse(ParseError::ShortInput)),
    },
    // six octets of parameters
    Row {
        message: b"\x00\x01\x00\x00\x03\x00\x02\x00\x35",
        start: 0,
        limit: 5,
        pushes: &[(9, b"\x00")],
        answer: Err(RebuildError::ShortBuf),
    },
];

fn answer_of(rebuilt: &Result<Rebuilt, RebuildError>) -> Answer<'_> {
    match rebuilt {
        Ok(done) => Ok((done.octets.as_slice(), done.replies.as_slice())),
        Err(error) => Err(*error),
    }
}

/// A value of octets under a key, without a type.
pub(crate) fn value(alloc: Global, key: u16, octets: &[u8]) -> Result<AllValues, Fail> {
    let param = UnknownSvcParam::new(SvcParamKey::from(key), Octets::from_slice(alloc, octets)?)?;
    Ok(AllValues::from(param))
}

/// Whether `rebuild_svcb` answers as the row says.
fn is_answered(alloc: Global, row: &Row) -> Result<bool, Fail> {
    let mut pushes = Vec::new(alloc);
    for (key, octets) in row.pushes {
        pushes.push(value(alloc, *key, octets)?)?;
    }
    if row.start > row.message.len() || row.limit > 100 {
        return Ok(false);
    }
    let len = row.message.len() - row.start;
    let rebuilt = rebuild_svcb(alloc, row.message, row.start, len, &pushes, row.limit);
    Ok(answer_of(&rebuilt) == row.answer)
}

#[test]
fn rebuilds_or_refuses(rt: HostRuntime) -> Result<(), Fail> {
    for (i, row) in ROWS.iter().enumerate() {
        assert!(rt; is_answered(rt.alloc(), row)?, "row {i}");
    }
    Ok(())
}

/// The count of octets of data to which a value of so many octets is added, or the refusal.
fn len_with(alloc: Global, len: usize) -> Result<Result<usize, RebuildError>, Fail> {
    let pushes = [value(alloc, 9, &vec![in alloc; 0u8; len]?)?];
    let rebuilt = rebuild_svcb(alloc, b"\x00\x01\x00", 0, 3, &pushes, 70000);
    Ok(rebuilt.map(|done| done.octets.len()))
}

#[test]
fn record_data_has_at_most_65_535_octets(rt: HostRuntime) -> Result<(), Fail> {
    assert_eq!(rt; len_with(rt.alloc(), 65528)?, Ok(65535));
    assert_eq!(rt;
        len_with(rt.alloc(), 65529)?,
        Err(RebuildError::LongRecordData)
    );
    Ok(())
}

#[test]
fn want_of_memory_stays_want_of_memory(rt: HostRuntime) {
    assert_eq!(rt;
        RebuildError::from(ParseError::NoMemory),
        RebuildError::NoMemory
    );
    let form = RebuildError::from(ParseError::Form);
    assert_eq!(rt; form, RebuildError::Parse(ParseError::Form));
}
