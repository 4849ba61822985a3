//! The order of record data of any type.

ghost use Rattle.std.specs.Prelude.{◌≡◌, ◌≢◌, length, false};
ghost use Rattle.record_spec.specs.UnionReading.{union_read};
ghost use Rattle.rdata_union.specs.Views.{data_of_all};
ghost use Rattle.rdata_union.specs.WholeData.{part_of, IsRead};
ghost use Rattle.svcb_c.specs.Records.{has_unread_names, data_order, order_due, order_status, IsOrder, order_number};
ghost use Rattle.svcb_c.specs.declared.status.TheConstants.{HW_OK, HW_E_MEMORY};

use crate::record_types::has_unread_names;
use crate::status::{HW_E_FORM, HW_E_MEMORY, HW_E_SHORT, HW_E_TYPE, HW_OK};
use crate::whole_data::read_data;
use rdata_union::AllRecordData;
use std::alloc::Global;
use std::cmp::Ordering;
use wire_base::{CanonicalOrd, ParseError, Rtype};

/// The number of an order.
fn order_number(order: Ordering) -> u32
    ensures { result ≡ order_number order }
{
    match order {
        Ordering::Less => 0,
        Ordering::Equal => 1,
        Ordering::Greater => 2,
    }
}

/// The number of the canonical order of data.
fn compare(found: &AllRecordData, other: &AllRecordData) -> u32
    ensures { result ≡ data_order (data_of_all found.now) (data_of_all other.now) }
{
    order_number(found.canonical_cmp(other))
}

/// The canonical order (RFC 4034, section 6.3) of record data of one type: 0 where the first stands before the second,
/// 1 where they are the same, 2 where it stands behind.
#[unsafe(no_mangle)]
#[tactic(auto, using(crate::proofs::Whole::whole_is_read))]
pub extern "C" fn hw_rr_canonical_cmp(
    alloc: Global,
    rtype: u16,
    first: &[u8],
    second: &[u8],
    order: &mut u32,
) -> u32
    ensures status { result ≢ HW_E_MEMORY
        → result ≡ order_status (order_due rtype first.now second.now) }
    ensures order { result ≡ HW_OK
        → IsOrder (order_due rtype first.now second.now) order.new }
    ensures kept { result ≢ HW_OK → order.new ≡ order.old }
    // Memory is taken only where the type is compared, and the first is data.
    ensures memory_type { result ≡ HW_E_MEMORY → has_unread_names rtype ≡ false }
    ensures memory_data { result ≡ HW_E_MEMORY
        → IsRead (union_read rtype (part_of first.now 0 (length first.now))) }
{
    if has_unread_names(rtype) {
        return HW_E_TYPE;
    }
    let found = match read_data(alloc, Rtype::from_int(rtype), first, 0, first.len()) {
        Ok(found) => found,
        Err(ParseError::ShortInput) => return HW_E_SHORT,
        Err(ParseError::Form) => return HW_E_FORM,
        Err(ParseError::NoMemory) => return HW_E_MEMORY,
    };
    let other = match read_data(alloc, Rtype::from_int(rtype), second, 0, second.len()) {
        Ok(other) => other,
        Err(ParseError::ShortInput) => return HW_E_SHORT,
        Err(ParseError::Form) => return HW_E_FORM,
        Err(ParseError::NoMemory) => return HW_E_MEMORY,
    };
    *order = compare(&found, &other);
    HW_OK
}
