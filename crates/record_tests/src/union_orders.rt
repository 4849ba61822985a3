//! Equality and orders.

use rdata_union::AllRecordData;
use std::alloc::Global;
use std::cmp::Ordering;
use wire_base::{CanonicalOrd, ParseError, ParseRecordData, Parser, Rtype};
use wire_records::UnknownRecordData;

/// The order, the canonical order and equality of data by its fields with octets under a type number.
fn compared<D: CanonicalOrd + From<UnknownRecordData> + Ord + ParseRecordData>(
    alloc: Global,
    typed: (u16, &[u8]),
    unknown: (u16, &[u8]),
) -> Result<Option<(Ordering, Ordering, bool)>, ParseError> {
    let rtype = Rtype::from_int(unknown.0);
    let held = UnknownRecordData::parse(alloc, rtype, &mut Parser::from_ref(unknown.1))?;
    let unknown = D::from(held);
    let mut parser = Parser::from_ref(typed.1);
    match D::parse_rdata(alloc, Rtype::from_int(typed.0), &mut parser)? {
        Some(typed) => Ok(Some((
            typed.cmp(&unknown),
            typed.canonical_cmp(&unknown),
            typed == unknown,
        ))),
        None => Ok(None),
    }
}

#[test]
fn fields_stand_before_octets_of_their_type(rt: HostRuntime) {
    let alloc = rt.alloc();
    let (less, equal) = (Ordering::Less, Ordering::Equal);
    let greater = Ordering::Greater;
    let address = b"\xc0\x00\x02\x01";
    assert!(rt;
        compared::<AllRecordData>(alloc, (1, address), (1, address))
            == Ok(Some((less, equal, false)))
    );
    assert!(rt;
        compared::<AllRecordData>(alloc, (1, address), (1, b"\xc0"))
            == Ok(Some((less, greater, false)))
    );
    assert!(rt;
        compared::<AllRecordData>(alloc, (59, b"\x00\x0a\x05\x02k"), (59, b"\x00\x0a\x06"))
            == Ok(Some((less, less, false)))
    );
    assert!(rt;
        compared::<AllRecordData>(alloc, (45, b"\x0a\x00\x00"), (44, b"\xff"))
            == Ok(Some((greater, greater, false)))
    );
}
