//! From a message to its records.

ghost use Rattle.std.specs.Prelude.{◌≡◌, ◌≢◌, ◌+◌, ◌≤◌, length};
ghost use Rattle.name_spec.specs.Octets.{number_at};
ghost use Rattle.svcb_c.specs.Messages.{records_start, begun_status, IsBegun, record_at, record_status, IsRecordSeen};
ghost use Rattle.svcb_c.specs.declared.status.TheConstants.{HW_OK};

use crate::buffers::put_name;
use crate::faults::read_status;
use crate::records::{HwMessage, HwRecord};
use crate::status::{HW_E_PLACE, HW_E_ROOM, HW_E_SHORT, HW_OK};
use dns_message::{Message, ParseEntry, ParsedRecord};
use wire_base::{Parser, ShortInput};

/// The number in the two octets from a place on.
pub(crate) fn number(message: &[u8], pos: usize) -> u16
    requires { pos + 2 ≤ length message.now }
    ensures { result ≡ number_at message.now pos }
{
    u16::from_be_bytes([message[pos], message[pos + 1]])
}

/// The header of a message, and the place where its records begin, which is behind its questions. No memory is taken.
#[unsafe(no_mangle)]
#[tactic(auto, using(std::proofs::lemmas::Bool::Decides::nat_tests))]
pub extern "C" fn hw_message_begin(message: &[u8], seen: &mut HwMessage) -> u32
    ensures status { result ≡ begun_status (records_start message.now) }
    ensures seen { result ≡ HW_OK → IsBegun (records_start message.now) message.now seen.new }
    ensures kept { result ≢ HW_OK → seen.new ≡ seen.old }
{
    let whole = match Message::from_octets(message) {
        Ok(whole) => whole,
        Err(ShortInput) => return HW_E_SHORT,
    };
    let records = match whole.questions().into_end() {
        Ok(records) => records,
        Err(error) => return read_status(error),
    };
    let header = whole.header();
    *seen = HwMessage {
        id: header.id,
        flags: number(message, 2),
        qdcount: header.qdcount,
        ancount: header.ancount,
        nscount: header.nscount,
        arcount: header.arcount,
        records_start: records.pos(),
    };
    HW_OK
}

/// The record at a place in a message: its owner uncompressed in the caller's buffer, its fixed fields, and where its
/// data and the next record stand. The first record of a message stands where `hw_message_begin` tells, and there are
/// as many as the header's counts tell. No memory is taken.
#[unsafe(no_mangle)]
#[tactic(auto, using(std::proofs::lemmas::Bool::Decides::nat_tests))]
pub extern "C" fn hw_message_next(
    message: &[u8],
    pos: usize,
    owner: &mut [u8],
    seen: &mut HwRecord,
) -> u32
    ensures status { result ≡ record_status message.now pos (length owner.old) }
    ensures seen { result ≡ HW_OK
        → IsRecordSeen (record_at message.now pos) seen.new owner.old owner.new }
    ensures kept_owner { result ≢ HW_OK → owner.new ≡ owner.old }
    ensures kept_seen { result ≢ HW_OK → seen.new ≡ seen.old }
{
    let mut parser = Parser::from_ref(message);
    if parser.seek(pos).is_err() {
        return HW_E_PLACE;
    }
    let found = match ParsedRecord::parse(&mut parser) {
        Ok(found) => found,
        Err(error) => return read_status(error),
    };
    let owner_len = usize::from(found.owner().compose_len());
    if owner.len() < owner_len {
        return HW_E_ROOM;
    }
    put_name(owner, found.owner());
    *seen = HwRecord {
        rtype: found.rtype().to_int(),
        class: found.class(),
        ttl: found.ttl(),
        owner_len,
        data_start: found.start(),
        data_len: found.rdlen(),
        next: parser.pos(),
    };
    HW_OK
}
