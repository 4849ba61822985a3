//! Data of records, behind which no octets are left.

use crate::services::answer_at;
use rdata_union::AllRecordData;
use std::test::Fail;
use wire_base::ParseError;
use wire_records::{A, Aaaa};

/// An A record of four octets, and one of five. An address has four (RFC 1035, section 3.4.1).
const ADDRESSES: &[u8] = b"\
    \x00\x00\x80\x00\x00\x00\x00\x02\x00\x00\x00\x00\
    \x00\x00\x01\x00\x01\x00\x00\x00\x00\x00\x04\xc0\x00\x02\x01\
    \x00\x00\x01\x00\x01\x00\x00\x00\x00\x00\x05\xc0\x00\x02\x01\x00";

#[test]
fn octets_behind_data_are_a_fault(rt: HostRuntime) -> Result<(), Fail> {
    let alloc = rt.alloc();
    let whole = answer_at(ADDRESSES, 0)?;
    assert!(rt; matches!(whole.data::<A>(alloc), Ok(Some(_))));
    assert!(rt; matches!(whole.data::<AllRecordData>(alloc), Ok(Some(_))));
    let longer = answer_at(ADDRESSES, 1)?;
    assert!(rt; matches!(longer.data::<A>(alloc), Err(ParseError::Form)));
    assert!(rt; matches!(longer.data::<AllRecordData>(alloc), Err(ParseError::Form)));
    assert!(rt; matches!(longer.data::<Aaaa>(alloc), Ok(None)));
    Ok(())
}
