//! The value of a parameter, item by item.

ghost use Rattle.std.specs.Prelude.{◌≡◌, ◌≢◌, ◌+◌, ◌∷◌, Ok, drop};
ghost use Rattle.svcb_spec.specs.Values as values;
ghost use Rattle.svcb_spec.specs.ReadingValues.{numbers, parts, protocols};
ghost use Rattle.svcb_c.specs.Items.{value_of_octets, value_status, part_status, address_status, protocol_status, IsFirstItem};
ghost use Rattle.svcb_c.specs.declared.status.TheConstants.{HW_OK};

use crate::messages::number;
use crate::records::HwItem;
use crate::status::{HW_E_ARGUMENT, HW_E_FORM, HW_E_PLACE, HW_E_SHORT, HW_END, HW_OK};

/// The port that the value of a `port` parameter is (RFC 9460, section 7.2). No memory is taken.
#[unsafe(no_mangle)]
#[tactic(auto, using(crate::proofs::ItemPlaces::port_rules))]
pub extern "C" fn hw_param_port(octets: &[u8], port: &mut u16) -> u32
    ensures status { result ≡ value_status (value_of_octets 3 octets.now) }
    ensures port { result ≡ HW_OK
        → value_of_octets 3 octets.now ≡ Ok (values.Port port.new) }
    ensures kept { result ≢ HW_OK → port.new ≡ port.old }
{
    if octets.len() < 2 {
        return HW_E_SHORT;
    }
    if octets.len() > 2 {
        return HW_E_FORM;
    }
    *port = number(octets, 0);
    HW_OK
}

/// The status of a call for the part of `len` octets at a place.
#[tactic(auto, using(std::proofs::lemmas::Bool::Decides::nat_tests))]
fn part_status(len: usize, octets: &[u8], pos: usize) -> u32
    ensures { result ≡ part_status len octets.now pos }
{
    if pos > octets.len() {
        return HW_E_PLACE;
    }
    if pos == octets.len() {
        return HW_END;
    }
    if octets.len() - pos < len {
        return HW_E_FORM;
    }
    HW_OK
}

/// The number at a place in the value of a `mandatory` or `tls-supported-groups` parameter. The first one stands at 0,
/// each other two octets behind the one before it. No memory is taken.
#[unsafe(no_mangle)]
#[tactic(auto, using(crate::proofs::ItemPlaces::item_rules))]
pub extern "C" fn hw_param_number_next(octets: &[u8], pos: usize, seen: &mut u16) -> u32
    ensures status { result ≡ part_status 2 octets.now pos }
    ensures number { result ≡ HW_OK
        → numbers (drop pos octets.now) ≡ seen.new ∷ numbers (drop (pos + 2) octets.now) }
    ensures kept { result ≢ HW_OK → seen.new ≡ seen.old }
{
    let status = part_status(2, octets, pos);
    if status == HW_OK {
        *seen = number(octets, pos);
    }
    status
}

/// The address of so many octets, 4 or 16, at a place in the value of an `ipv4hint` or `ipv6hint` parameter. The first
/// one stands at 0, each other behind the one before it. No memory is taken.
#[unsafe(no_mangle)]
#[tactic(auto, using(crate::proofs::ItemPlaces::item_rules))]
pub extern "C" fn hw_param_address_next(
    octets: &[u8],
    len: usize,
    pos: usize,
    item: &mut HwItem,
) -> u32
    ensures status { result ≡ address_status len octets.now pos }
    ensures item { result ≡ HW_OK → IsFirstItem (parts len) octets.now pos item.new }
    ensures kept { result ≢ HW_OK → item.new ≡ item.old }
{
    if len != 4 && len != 16 {
        return HW_E_ARGUMENT;
    }
    let status = part_status(len, octets, pos);
    if status == HW_OK {
        *item = HwItem { start: pos, len };
    }
    status
}

/// The protocol at a place in the value of an `alpn` parameter. The first one stands at 0, each other behind the octets
/// of the one before it. No memory is taken.
#[unsafe(no_mangle)]
#[tactic(auto, using(crate::proofs::ItemPlaces::item_rules))]
pub extern "C" fn hw_param_alpn_next(octets: &[u8], pos: usize, item: &mut HwItem) -> u32
    ensures status { result ≡ protocol_status octets.now pos }
    ensures item { result ≡ HW_OK → IsFirstItem protocols octets.now pos item.new }
    ensures kept { result ≢ HW_OK → item.new ≡ item.old }
{
    if pos > octets.len() {
        return HW_E_PLACE;
    }
    if pos == octets.len() {
        return HW_END;
    }
    let start = pos + 1;
    let len = usize::from(octets[pos]);
    if octets.len() - start < len {
        return HW_E_SHORT;
    }
    *item = HwItem { start, len };
    HW_OK
}
