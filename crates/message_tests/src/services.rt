//! HTTPS records of two servers' answers and of one by hand: found, read in place, and rebuilt.

use crate::messages::{KNOTD_HTTPS, NAMED_HTTPS};
use crate::names::{Labels, is_name};
use dns_message::{FoundRecords, Message, ParsedRecord};
use std::alloc::Global;
use std::test::Fail;
use svcb_rdata::{HttpsVariant, SvcbRef, rebuild_svcb};
use wire_base::{Name, Octets, ParseError, ParsedName, Rtype};

/// An HTTPS record: its priority, the labels of its target and whether that is compressed, and its port.
type Service = (u16, Labels, bool, Option<u16>);

/// The HTTPS records of the zone that both servers serve.
const SERVICES: [Service; 2] = [
    (1, &[b"svc", b"example", b"com"], false, Some(8443)),
    (2, &[], false, None),
];

/// Whether a record has the data of a service.
fn is_service(record: &ParsedRecord<'_>, service: &Service) -> Result<bool, ParseError> {
    let (priority, target, is_compressed, port) = *service;
    let https = SvcbRef::<HttpsVariant>::parse(&mut record.parser())?;
    let params = https.params();
    Ok(
        https.priority() == priority
            && is_name(https.target(), target)
            && https.target().is_compressed() == is_compressed
            && params.port().map(|port| port.port()) == port,
    )
}

/// Whether the records that were found are these services, in order, and no others.
fn are_services(mut found: FoundRecords<'_, '_>, services: &[Service]) -> Result<bool, ParseError> {
    for service in services {
        match found.next() {
            Some(Ok(record)) if is_service(&record, service)? => {}
            _ => return Ok(false),
        }
    }
    Ok(found.next().is_none())
}

/// The name that the first answer record holds.
fn alias<'a>(message: &Message<'a>) -> Result<ParsedName<'a>, ParseError> {
    let Some(Ok(record)) = message.answers()?.next() else {
        return Err(ParseError::Form);
    };
    ParsedName::parse(&mut record.parser())
}

/// An answer's alias, whose name is compressed, is followed to its HTTPS records.
#[test]
fn services_are_found_behind_an_alias(rt: HostRuntime) -> Result<(), Fail> {
    for octets in [NAMED_HTTPS, KNOTD_HTTPS] {
        let message = Message::from_octets(octets)?;
        let alias = alias(&message)?;
        assert!(rt; is_name(&alias, &[b"web", b"example", b"com"]));
        assert!(rt; alias.is_compressed());
        let owner = alias.to_name(rt.alloc())?;
        assert_eq!(rt;
            are_services(message.find(&owner, Rtype::HTTPS)?, &SERVICES),
            Ok(true)
        );
    }
    Ok(())
}

/// Names and types, and whether the services are found under them: the case of a name is nothing to a search.
const SEARCHES: [(&[u8], Rtype, bool); 4] = [
    (b"\x03WEB\x07Example\x03com\x00", Rtype::HTTPS, true),
    (b"\x03web\x07example\x03com\x00", Rtype::SVCB, false),
    (b"\x03www\x07example\x03com\x00", Rtype::HTTPS, false),
    (b"\x07example\x03com\x00", Rtype::HTTPS, false),
];

/// Whether the services, or nothing, are found in the answer of `named` under a name and a type.
fn is_found(
    alloc: Global,
    owner: &[u8],
    rtype: Rtype,
    is_wanted: bool,
) -> Result<bool, ParseError> {
    let owner = Name::from_octets(Octets::from_slice(alloc, owner)?)?;
    let mut found = Message::from_octets(NAMED_HTTPS)?.find(&owner, rtype)?;
    if is_wanted {
        return are_services(found, &SERVICES);
    }
    Ok(found.next().is_none())
}

#[test]
fn records_of_an_owner_and_a_type_are_found(rt: HostRuntime) {
    for (owner, rtype, is_wanted) in &SEARCHES {
        assert_eq!(rt;
            is_found(rt.alloc(), owner, *rtype, *is_wanted),
            Ok(true),
            "{owner:?}"
        );
    }
}

/// An answer by hand: a question for an HTTPS record of a.example, and that record, with the priority 1, a pointer to
/// the name "example" for its target, and the port 53.
const COMPRESSED: &[u8] = b"\
    \x00\x00\x80\x00\x00\x01\x00\x01\x00\x00\x00\x00\
    \x01a\x07example\x00\x00\x41\x00\x01\
    \xc0\x0c\x00\x41\x00\x01\x00\x00\x00\x3c\x00\x0a\
    \x00\x01\xc0\x0e\x00\x03\x00\x02\x00\x35";

/// The answer record behind so many others.
pub fn answer_at<'a>(octets: &'a [u8], index: usize) -> Result<ParsedRecord<'a>, ParseError> {
    let mut records = Message::from_octets(octets)?.answers()?;
    for _ in 0..index {
        records.next();
    }
    match records.next() {
        Some(item) => item,
        None => Err(ParseError::ShortInput),
    }
}

#[test]
fn a_compressed_target_is_followed(rt: HostRuntime) -> Result<(), Fail> {
    let record = answer_at(COMPRESSED, 0)?;
    let service: Service = (1, &[b"example"], true, Some(53));
    assert_eq!(rt; is_service(&record, &service), Ok(true));
    Ok(())
}

/// Messages, the count of answers in front of an HTTPS record, and its data with its target uncompressed.
const REBUILT: [(&[u8], usize, &[u8]); 2] = [
    (
        COMPRESSED,
        0,
        b"\x00\x01\x07example\x00\x00\x03\x00\x02\x00\x35",
    ),
    (
        KNOTD_HTTPS,
        1,
        b"\x00\x01\x03svc\x07example\x03com\x00\x00\x01\x00\x06\x02h2\x02h3\
            \x00\x03\x00\x02\x20\xfb\x00\x04\x00\x08\xc0\x00\x02\x01\xc0\x00\x02\x02",
    ),
];

#[test]
fn data_is_rebuilt_at_its_place(rt: HostRuntime) -> Result<(), Fail> {
    for (octets, index, data) in &REBUILT {
        let record = answer_at(octets, *index)?;
        let (start, len) = (record.start(), record.rdlen());
        assert!(rt; start <= octets.len() && len <= octets.len() - start);
        let rebuilt = rebuild_svcb(rt.alloc(), octets, start, len, &[], 100)?;
        assert_eq!(rt; rebuilt.octets.as_slice(), *data);
    }
    Ok(())
}
