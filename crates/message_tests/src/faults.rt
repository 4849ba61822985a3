//! Messages with faults: counts that promise too much, owners that are no names, lengths past the end; the first fault
//! decides. Octets behind the last record are none.

use dns_message::{Entries, Message, ParseEntry};
use std::test::Fail;
use wire_base::{Name, ParseError, Rtype};

/// How many entries a section gives in front of its fault, if it has one.
type Entered = (usize, Option<ParseError>);

const SHORT: ParseError = ParseError::ShortInput;

const FORM: ParseError = ParseError::Form;

/// Whether a section gives so many entries, then its fault, and then nothing.
pub fn are_entered<'a, E: ParseEntry<'a>>(mut entries: Entries<'a, E>, wanted: Entered) -> bool {
    let (count, fault) = wanted;
    for _ in 0..count {
        match entries.next() {
            Some(Ok(_)) => {}
            _ => return false,
        }
    }
    let ends = match entries.next() {
        None => fault.is_none(),
        Some(Ok(_)) => false,
        Some(Err(error)) => fault == Some(error),
    };
    ends && entries.next().is_none()
}

/// A question whose name points to itself, in front of no record.
const BAD_QUESTION: &[u8] =
    b"\x00\x00\x00\x00\x00\x01\x00\x01\x00\x00\x00\x00\xc0\x0c\x00\x01\x00\x01";

/// A record of the root, one whose owner points to itself, and a third like the first, which isn't reached.
const FAULT_BETWEEN: &[u8] = b"\
    \x00\x00\x00\x00\x00\x00\x00\x03\x00\x00\x00\x00\
    \x00\x00\x01\x00\x01\x00\x00\x00\x00\x00\x00\
    \xc0\x17\x00\x01\x00\x01\x00\x00\x00\x00\x00\x00\
    \x00\x00\x01\x00\x01\x00\x00\x00\x00\x00\x00";

/// Messages without a fault, the counts of records in their sections, and the octets behind the last one.
const GOOD: [(&[u8], [usize; 3], &[u8]); 4] = [
    (
        b"\x00\x00\x00\x00\x00\x00\x00\x00\x00\x00\x00\x00",
        [0, 0, 0],
        b"",
    ),
    (
        b"\x00\x00\x00\x00\x00\x00\x00\x00\x00\x00\x00\x00\xff\xc0",
        [0, 0, 0],
        b"\xff\xc0",
    ),
    (
        b"\x00\x00\x00\x00\x00\x00\x00\x01\x00\x00\x00\x00\
            \x00\x00\x01\x00\x01\x00\x00\x00\x00\x00\x01\xaa\xbb",
        [1, 0, 0],
        b"\xbb",
    ),
    (
        b"\x00\x00\x00\x00\x00\x00\x00\x00\x00\x01\x00\x00\
            \x00\x00\x01\x00\x01\x00\x00\x00\x00\x00\x01\xaa",
        [0, 1, 0],
        b"",
    ),
];

/// Whether a message has so many records in each section, and these octets behind them.
fn is_good(octets: &[u8], counts: [usize; 3], behind: &[u8]) -> Result<bool, ParseError> {
    let message = Message::from_octets(octets)?;
    let [answers, authorities, additionals] = counts;
    Ok(
        are_entered(message.answers()?, (answers, None))
            && are_entered(message.authorities()?, (authorities, None))
            && are_entered(message.additionals()?, (additionals, None))
            && message.trailing()? == behind,
    )
}

#[test]
fn octets_behind_the_last_record_are_no_fault(rt: HostRuntime) {
    for (octets, counts, behind) in &GOOD {
        assert_eq!(rt; is_good(octets, *counts, behind), Ok(true), "{octets:?}");
    }
}

/// Messages with a fault: the count of answer records in front of it, or none where it is in a question; and the fault.
const FAULTS: [(&[u8], Option<usize>, ParseError); 15] = [
    // two questions are promised, and there is one
    (
        b"\x00\x00\x00\x00\x00\x02\x00\x00\x00\x00\x00\x00\x00\x00\x01\x00\x01",
        None,
        SHORT,
    ),
    // 65,535 questions are promised, and there is none
    (
        b"\x00\x00\x00\x00\xff\xff\x00\x00\x00\x00\x00\x00",
        None,
        SHORT,
    ),
    // no question is promised, and there is one: it is no record
    (
        b"\x00\x00\x00\x00\x00\x00\x00\x01\x00\x00\x00\x00\x00\x00\x01\x00\x01",
        Some(0),
        SHORT,
    ),
    // two records are promised, and there is one
    (
        b"\x00\x00\x00\x00\x00\x00\x00\x02\x00\x00\x00\x00\
            \x00\x00\x01\x00\x01\x00\x00\x00\x00\x00\x01\xaa",
        Some(1),
        SHORT,
    ),
    // an owner that points to itself, and one that points to the label in front of it
    (
        b"\x00\x00\x00\x00\x00\x00\x00\x01\x00\x00\x00\x00\
            \xc0\x0c\x00\x01\x00\x01\x00\x00\x00\x00\x00\x00",
        Some(0),
        FORM,
    ),
    (
        b"\x00\x00\x00\x00\x00\x00\x00\x01\x00\x00\x00\x00\
            \x01a\xc0\x0c\x00\x01\x00\x01\x00\x00\x00\x00\x00\x00",
        Some(0),
        FORM,
    ),
    // one that points forward, to a root
    (
        b"\x00\x00\x00\x00\x00\x00\x00\x01\x00\x00\x00\x00\
            \xc0\x0e\x00\x01\x00\x01\x00\x00\x00\x00\x00\x00",
        Some(0),
        FORM,
    ),
    // one that is cut off
    (
        b"\x00\x00\x00\x00\x00\x00\x00\x01\x00\x00\x00\x00\x05abcd",
        Some(0),
        SHORT,
    ),
    // a length past the end, by one octet and by all
    (
        b"\x00\x00\x00\x00\x00\x00\x00\x01\x00\x00\x00\x00\
            \x00\x00\x01\x00\x01\x00\x00\x00\x00\x00\x02\xaa",
        Some(0),
        SHORT,
    ),
    (
        b"\x00\x00\x00\x00\x00\x00\x00\x01\x00\x00\x00\x00\
            \x00\x00\x01\x00\x01\x00\x00\x00\x00\xff\xff",
        Some(0),
        SHORT,
    ),
    // a record without the last octet of its length
    (
        b"\x00\x00\x00\x00\x00\x00\x00\x01\x00\x00\x00\x00\
            \x00\x00\x01\x00\x01\x00\x00\x00\x00\x00",
        Some(0),
        SHORT,
    ),
    // an owner that points to itself in front of a length past the end
    (
        b"\x00\x00\x00\x00\x00\x00\x00\x01\x00\x00\x00\x00\
            \xc0\x0c\x00\x01\x00\x01\x00\x00\x00\x00\xff\xff",
        Some(0),
        FORM,
    ),
    // a length past the end, within which an owner would point to itself
    (
        b"\x00\x00\x00\x00\x00\x00\x00\x02\x00\x00\x00\x00\
            \x00\x00\x01\x00\x01\x00\x00\x00\x00\xff\xff\xc0\x17",
        Some(0),
        SHORT,
    ),
    (BAD_QUESTION, None, FORM),
    (FAULT_BETWEEN, Some(1), FORM),
];

/// Whether the answers of a message have a fault behind so many records, or a question has it, and all behind that is
/// refused for it.
fn is_refused(octets: &[u8], place: Option<usize>, error: ParseError) -> Result<bool, ParseError> {
    let message = Message::from_octets(octets)?;
    let is_answered = match message.answers() {
        Ok(records) => match place {
            Some(count) => are_entered(records, (count, Some(error))),
            None => false,
        },
        Err(fault) => place.is_none() && fault == error,
    };
    Ok(
        is_answered
            && message.authorities().err() == Some(error)
            && message.additionals().err() == Some(error)
            && message.trailing() == Err(error),
    )
}

#[test]
fn the_first_fault_decides(rt: HostRuntime) {
    for (octets, place, error) in &FAULTS {
        assert_eq!(rt; is_refused(octets, *place, *error), Ok(true), "{octets:?}");
    }
}

/// The authority records end before the first additional one, which is missing.
#[test]
fn a_fault_is_of_its_section(rt: HostRuntime) -> Result<(), Fail> {
    let octets = b"\x00\x00\x00\x00\x00\x00\x00\x00\x00\x01\x00\x01\
        \x00\x00\x01\x00\x01\x00\x00\x00\x00\x00\x01\xaa";
    let message = Message::from_octets(octets)?;
    assert!(rt; are_entered(message.answers()?, (0, None)));
    assert!(rt; are_entered(message.authorities()?, (1, None)));
    assert!(rt; are_entered(message.additionals()?, (0, Some(SHORT))));
    assert_eq!(rt; message.trailing().err(), Some(SHORT));
    Ok(())
}

#[test]
fn a_search_ends_with_the_first_fault(rt: HostRuntime) -> Result<(), Fail> {
    let root = Name::root(rt.alloc())?;
    let message = Message::from_octets(FAULT_BETWEEN)?;
    let mut found = message.find(&root, Rtype::A)?;
    assert!(rt; matches!(found.next(), Some(Ok(_))));
    assert!(rt; matches!(found.next(), Some(Err(ParseError::Form))));
    assert!(rt; found.next().is_none());
    let message = Message::from_octets(BAD_QUESTION)?;
    assert_eq!(rt; message.find(&root, Rtype::A).err(), Some(FORM));
    Ok(())
}
