//! Writing into buffers of the caller's.

ghost use Rattle.std.specs.Prelude.{◌≡◌, ◌≢◌, ◌+◌, ◌≤◌, ◌<◌, ◌++◌, ◌∷◌, length, take, drop};
ghost use Rattle.name_spec.specs.Names.{name_wire};
ghost use Rattle.svcb_c.specs.Buffers.{over, room_status};
ghost use Rattle.svcb_c.specs.declared.status.TheConstants.{HW_OK};

use crate::status::{HW_E_ROOM, HW_OK};
use wire_base::ParsedName;

/// Octets over those from a place on.
fn write_over(buffer: &mut [u8], at: usize, octets: &[u8])
    requires { at + length octets.now ≤ length buffer.old }
    ensures { buffer.new
        ≡ take at buffer.old ++ octets.now ++ drop (at + length octets.now) buffer.old }
{
    buffer[at..at + octets.len()].copy_from_slice(octets);
}

/// Octets behind those that are written, which end at a place.
#[tactic(auto, using(crate::proofs::Filling::put_rules))]
fn put(buffer: &mut [u8], at: usize, octets: &[u8])
    requires { at + length octets.now ≤ length buffer.old }
    ensures front { take (at + length octets.now) buffer.new ≡ take at buffer.old ++ octets.now }
    ensures back { drop (at + length octets.now) buffer.new
        ≡ drop (at + length octets.now) buffer.old }
{
    write_over(buffer, at, octets);
}

/// A label behind its length.
#[tactic(auto, using(crate::proofs::Filling::put_rules))]
fn put_label(buffer: &mut [u8], at: usize, label: &[u8])
    requires room { at + 1 + length label.now ≤ length buffer.old }
    requires few { length label.now < 256 }
    ensures front { take (at + 1 + length label.now) buffer.new
        ≡ take at buffer.old ++ (length label.now ∷ label.now) }
    ensures back { drop (at + 1 + length label.now) buffer.new
        ≡ drop (at + 1 + length label.now) buffer.old }
{
    put(buffer, at, &[label.len() as u8]);
    put(buffer, at + 1, label);
}

/// The uncompressed octets of a name at the front of a buffer.
#[tactic(auto, using(crate::proofs::Filling::put_rules))]
pub(crate) fn put_name(buffer: &mut [u8], name: &ParsedName<'_>)
    requires { length (name_wire name.now.labels) ≤ length buffer.old }
    ensures { buffer.new ≡ over (name_wire name.now.labels) buffer.old }
{
    // No label is longer than the name, which has at most 255 octets.
    let _len = name.compose_len();
    let mut at = 0;
    for label in name.labels() {
        put_label(buffer, at, label);
        at += 1 + label.len();
    }
    put(buffer, at, &[0]);
}

/// Octets at the front of a buffer.
#[tactic(auto, using(crate::proofs::Filling::put_rules))]
pub(crate) fn put_front(buffer: &mut [u8], octets: &[u8])
    requires { length octets.now ≤ length buffer.old }
    ensures { buffer.new ≡ over octets.now buffer.old }
{
    put(buffer, 0, octets);
}

/// Hands out octets: their count, and where there is room the octets.
pub(crate) fn hand_out(octets: &[u8], target: &mut [u8], written: &mut usize) -> u32
    ensures status { result ≡ room_status octets.now (length target.old) }
    ensures written { written.new ≡ length octets.now }
    ensures octets { result ≡ HW_OK → target.new ≡ over octets.now target.old }
    ensures kept { result ≢ HW_OK → target.new ≡ target.old }
{
    *written = octets.len();
    if target.len() < octets.len() {
        return HW_E_ROOM;
    }
    put_front(target, octets);
    HW_OK
}
