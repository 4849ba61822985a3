//! Calls of these functions.

use crate::{layouts, orders, rebuilding, texts};
use hollywhist::base::iana::Rtype;
use hollywhist::base::rdata::ParseRecordData;
use hollywhist::base::wire::{ParseError, Parser};
use hollywhist::base::zonefile_fmt::DisplayKind;
use hollywhist::rdata::svcb::value::Port;
use hollywhist::rdata::svcb::{Reply, Svcb};
use hollywhist::rdata::{A, Cds};
use std::alloc::Global;
use std::cmp::Ordering;
use std::test::Fail;

/// Data of SVCB with a port of 53.
const SERVICE: &[u8] = b"\0\x01\0\0\x03\0\x02\0\x35";

/// The data that octets are, of a type.
fn data<T: ParseRecordData>(alloc: Global, rtype: Rtype, octets: &[u8]) -> Result<T, ParseError> {
    let found = T::parse_rdata(alloc, rtype, &mut Parser::from_ref(octets))?;
    found.ok_or(ParseError::Form)
}

#[test]
fn texts_are_read_back(rt: HostRuntime) -> Result<(), Fail> {
    let alloc = rt.alloc();
    let address = data::<A>(alloc, Rtype::A, b"\xc0\0\x02\x01")?;
    assert!(rt; texts::ipv4_read_back(alloc, &address)? == address);
    let cds = data::<Cds>(alloc, Rtype::CDS, b"\0\x0a\x05\x02key")?;
    assert!(rt; texts::cds_read_back(alloc, &cds)? == cds);
    let svcb = data::<Svcb>(alloc, Rtype::SVCB, SERVICE)?;
    assert!(rt; texts::svcb_read_back(alloc, &svcb)? == svcb);
    Ok(())
}

#[test]
fn layouts_are_read_back(rt: HostRuntime) -> Result<(), Fail> {
    let alloc = rt.alloc();
    let cds = data::<Cds>(alloc, Rtype::CDS, b"\0\x0a\x05\x02key")?;
    assert!(rt; layouts::cds_read_back(alloc, &cds, DisplayKind::Multiline)? == cds);
    let svcb = data::<Svcb>(alloc, Rtype::SVCB, SERVICE)?;
    assert!(rt; layouts::svcb_read_back(alloc, &svcb, DisplayKind::Tabbed)? == svcb);
    Ok(())
}

#[test]
fn orders_are_the_same(rt: HostRuntime) -> Result<(), Fail> {
    let alloc = rt.alloc();
    let low = data::<Cds>(alloc, Rtype::CDS, b"\0\x0a\x05\x02key")?;
    let high = data::<Cds>(alloc, Rtype::CDS, b"\x01\0\x05\x02key")?;
    assert!(rt; orders::cds_orders(&low, &high) == (Ordering::Less, Ordering::Less));
    assert!(rt; orders::cds_orders(&high, &low) == (Ordering::Greater, Ordering::Greater));
    assert!(rt; orders::cds_orders(&low, &low) == (Ordering::Equal, Ordering::Equal));
    Ok(())
}

#[test]
fn pushed_ports_are_read(rt: HostRuntime) -> Result<(), Fail> {
    let alloc = rt.alloc();
    let port = Port::new(443);
    let (reply, found) = rebuilding::pushed_port(alloc, b"\0\x01\0", port, 65535)?;
    assert!(rt; reply == Some(Reply::Accepted) && found == Some(port));
    // the port that was there stays
    let (reply, found) = rebuilding::pushed_port(alloc, SERVICE, port, 65535)?;
    assert!(rt; reply == Some(Reply::DuplicateKey) && found == Some(Port::new(53)));
    Ok(())
}
