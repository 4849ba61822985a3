//! The data of records of two servers' answers as types of data read it, printed as `kdig` printed it.

use crate::messages::{KNOTD_HTTPS, NAMED_HTTPS};
use crate::services::answer_at;
use dns_message::{Message, ParsedRecord, Records};
use rdata_union::AllRecordData;
use std::alloc::Global;
use std::fmt::Display;
use std::test::Fail;
use svcb_rdata::{Https, Svcb};
use wire_base::ParseRecordData;
use wire_records::A;

/// Whether a type of data reads the data of a record, and prints it so; without a text, whether it doesn't take it.
fn is_printed<D: ParseRecordData + Display>(
    alloc: Global,
    record: &ParsedRecord<'_>,
    text: Option<&str>,
) -> Result<bool, Fail> {
    let Some(found) = record.data::<D>(alloc)? else {
        return Ok(text.is_none());
    };
    let printed = format!(in alloc; "{found}")?;
    Ok(text == Some(printed.as_str()))
}

/// The data of the first HTTPS record of both answers.
const SERVICE: &str = "1 svc.example.com. alpn=h2,h3 port=8443 ipv4hint=192.0.2.1,192.0.2.2";

#[test]
fn a_type_reads_its_own_data(rt: HostRuntime) -> Result<(), Fail> {
    let record = answer_at(KNOTD_HTTPS, 1)?;
    assert!(rt; is_printed::<Https>(rt.alloc(), &record, Some(SERVICE))?);
    assert!(rt; is_printed::<Svcb>(rt.alloc(), &record, None)?);
    assert!(rt; is_printed::<A>(rt.alloc(), &record, None)?);
    Ok(())
}

/// Whether the data of the records of a section is printed so.
fn are_printed(alloc: Global, mut records: Records<'_>, texts: &[&str]) -> Result<bool, Fail> {
    for text in texts {
        match records.next() {
            Some(Ok(record)) if is_printed::<AllRecordData>(alloc, &record, Some(*text))? => {}
            _ => return Ok(false),
        }
    }
    Ok(records.next().is_none())
}

/// The answers of `named`. The first is an alias, whose octets are printed as they stand (RFC 3597, section 5).
const ANSWERS: [&str; 3] = ["\\# 6 03776562C010", SERVICE, "2 . alpn=h2"];

/// What `named` adds: addresses.
const ADDITIONALS: [&str; 4] = ["192.0.2.1", "192.0.2.53", "2001:db8::1", "2001:db8::53"];

#[test]
fn data_of_any_type_is_read(rt: HostRuntime) -> Result<(), Fail> {
    let message = Message::from_octets(NAMED_HTTPS)?;
    assert!(rt; are_printed(rt.alloc(), message.answers()?, &ANSWERS)?);
    assert!(rt; are_printed(rt.alloc(), message.additionals()?, &ADDITIONALS)?);
    Ok(())
}
