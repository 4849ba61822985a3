//! The greatest IPSECKEY data.

use crate::limits::filled;
use dns_text::{Entry, EntryScanner};
use key_rdata::{Ipseckey, IpseckeyGateway};
use key_registry::IpseckeyAlgorithm;
use std::alloc::Global;
use text_spec::ScanError;
use wire_base::{ComposeRecordData, NoMemory, Octets, ParseError, Parser};

/// The count of octets of the data whose text has so many letters of base64 between others.
fn scanned_len(
    alloc: Global,
    front: &[u8],
    letters: usize,
    behind: &[u8],
) -> Result<Option<u16>, ScanError> {
    let text = filled(alloc, front, b'A', letters, behind)?;
    let mut scanner = EntryScanner::new(Entry::from_text(text.as_slice())?);
    Ok(Ipseckey::scan(alloc, &mut scanner)?.rdlen(false))
}

#[test]
fn texts_of_more_than_65535_octets_are_refused(rt: HostRuntime) {
    let long = Err(ScanError::LongRecord);
    let dot: &[u8] = b"12 0 12 . ";
    assert!(rt; scanned_len(rt.alloc(), dot, 87376, b"") == Ok(Some(65535)));
    assert!(rt; scanned_len(rt.alloc(), dot, 87376, b"AA==") == long);
    let name: &[u8] = b"12 3 12 abc.def.ghi. ";
    assert!(rt; scanned_len(rt.alloc(), name, 87356, b"AAA=") == Ok(Some(65535)));
    assert!(rt; scanned_len(rt.alloc(), name, 87360, b"") == long);
}

/// The count of octets of data that is read from so many.
fn read_len(alloc: Global, count: usize) -> Result<Option<u16>, ParseError> {
    let octets = filled(alloc, b"\x0c\x00\x0c", 7, count, b"")?;
    let mut parser = Parser::from_ref(octets.as_slice());
    Ok(Ipseckey::parse(alloc, &mut parser)?.rdlen(false))
}

#[test]
fn data_of_more_than_65535_octets_is_refused(rt: HostRuntime) {
    assert!(rt; read_len(rt.alloc(), 65532) == Ok(Some(65535)));
    assert!(rt; read_len(rt.alloc(), 65533) == Err(ParseError::Form));
}

/// The count of octets of data with a key of so many, or none where it would be too long.
fn made_len(alloc: Global, count: usize) -> Result<Option<u16>, NoMemory> {
    let key = Octets::from_vec(filled(alloc, b"", 7, count, b"")?);
    let made = Ipseckey::try_new(12, IpseckeyAlgorithm::RSA, IpseckeyGateway::None, key);
    Ok(made.ok().and_then(|made| made.rdlen(true)))
}

#[test]
fn data_is_made_of_at_most_65535_octets(rt: HostRuntime) {
    assert!(rt; made_len(rt.alloc(), 65532) == Ok(Some(65535)));
    assert!(rt; made_len(rt.alloc(), 65533) == Ok(None));
}
