//! Record data of any type as text, and from text.

ghost use Rattle.std.specs.Prelude.{◌≡◌, ◌≢◌, ◌+◌, ◌≤◌, false, None, length, string_bytes, IfOk};
ghost use Rattle.text_spec.specs.Tokens.{text_fault};
ghost use Rattle.text_spec.specs.Scanning.{Answers};
ghost use Rattle.record_spec.specs.RecordData.{union_wire};
ghost use Rattle.record_spec.specs.UnionReading.{union_read};
ghost use Rattle.record_spec.specs.UnionTexts.{union_printed, union_scan};
ghost use Rattle.rdata_union.specs.Views.{data_of_all, data_of_zone};
ghost use Rattle.rdata_union.specs.WholeData.{part_of, IsRead};
ghost use Rattle.input_lines.specs.Tokens.{entry_scanned};
ghost use Rattle.svcb_c.specs.Buffers.{due_status, IsGiven, NeedsRoom};
ghost use Rattle.svcb_c.specs.Records.{has_unread_names, text_due, octets_due};
ghost use Rattle.svcb_c.specs.declared.status.TheConstants.{HW_OK, HW_E_ROOM, HW_E_MEMORY};

use crate::buffers::hand_out;
use crate::faults::scan_status;
use crate::record_types::has_unread_names;
use crate::status::{HW_E_FORM, HW_E_MEMORY, HW_E_PLACE, HW_E_SHORT, HW_E_TYPE, HW_OK};
use crate::svcb_reading::is_within;
use crate::whole_data::read_data;
use dns_text::{Entry, EntryScanner};
use rdata_union::{AllRecordData, ZoneRecordData};
use std::alloc::Global;
use text_spec::ScanError;
use wire_base::{ComposeRecordData, NoMemory, ParseError, Rtype};

/// The text of data.
fn printed(alloc: Global, found: &AllRecordData) -> Result<String, NoMemory>
    ensures { IfOk result (λ text. string_bytes text ≡ union_printed (data_of_all found.now)) }
{
    Ok(format!(in alloc; "{found}")?)
}

/// The text of the record data in the `len` octets from `start` on, under the number of a type. Names in it are
/// followed through the whole message, and stand in the text uncompressed.
#[unsafe(no_mangle)]
pub extern "C" fn hw_rr_text(
    alloc: Global,
    rtype: u16,
    message: &[u8],
    start: usize,
    len: usize,
    target: &mut [u8],
    written: &mut usize,
) -> u32
    ensures status { result ≢ HW_E_MEMORY
        → result ≡ due_status (text_due rtype message.now start len) (length target.old) }
    ensures text { result ≡ HW_OK
        → IsGiven (text_due rtype message.now start len) written.new target.old target.new }
    ensures room { result ≡ HW_E_ROOM
        → NeedsRoom (text_due rtype message.now start len) written.new }
    ensures kept { result ≢ HW_OK → target.new ≡ target.old }
    // Memory is taken only where there is data of a type that is read.
    ensures memory_place { result ≡ HW_E_MEMORY → start + len ≤ length message.now }
    ensures memory_type { result ≡ HW_E_MEMORY → has_unread_names rtype ≡ false }
    ensures memory_data { result ≡ HW_E_MEMORY
        → IsRead (union_read rtype (part_of message.now start len)) }
{
    if !is_within(message, start, len) {
        return HW_E_PLACE;
    }
    if has_unread_names(rtype) {
        return HW_E_TYPE;
    }
    let found = match read_data(alloc, Rtype::from_int(rtype), message, start, len) {
        Ok(found) => found,
        Err(ParseError::ShortInput) => return HW_E_SHORT,
        Err(ParseError::Form) => return HW_E_FORM,
        Err(ParseError::NoMemory) => return HW_E_MEMORY,
    };
    match printed(alloc, &found) {
        Ok(text) => hand_out(text.as_bytes(), target, written),
        Err(NoMemory) => HW_E_MEMORY,
    }
}

/// The data of a type that an entry spells.
fn scan_data(alloc: Global, rtype: Rtype, entry: Entry<'_>) -> Result<ZoneRecordData, ScanError>
    ensures { Answers data_of_zone result (entry_scanned (union_scan rtype) entry.entry.text.now) }
{
    let mut scanner = EntryScanner::new(entry);
    ZoneRecordData::scan(alloc, rtype, &mut scanner)
}

/// The octets of data.
fn composed(alloc: Global, found: &ZoneRecordData) -> Result<Vec<u8>, NoMemory>
    ensures { IfOk result (λ octets. octets.items ≡ union_wire (data_of_zone found.now)) }
{
    let mut octets = Vec::new(alloc);
    found.compose_rdata(&mut octets)?;
    Ok(octets)
}

/// The octets of the record data that the text of one entry spells, under the number of a type. A fault of the text has
/// a status of its own.
#[unsafe(no_mangle)]
pub extern "C" fn hw_rr_scan(
    alloc: Global,
    rtype: u16,
    text: &[u8],
    target: &mut [u8],
    written: &mut usize,
) -> u32
    ensures status { result ≢ HW_E_MEMORY
        → result ≡ due_status (octets_due rtype text.now) (length target.old) }
    ensures octets { result ≡ HW_OK
        → IsGiven (octets_due rtype text.now) written.new target.old target.new }
    ensures room { result ≡ HW_E_ROOM → NeedsRoom (octets_due rtype text.now) written.new }
    ensures kept { result ≢ HW_OK → target.new ≡ target.old }
    // Memory is taken only where the text has tokens.
    ensures memory { result ≡ HW_E_MEMORY → text_fault text.now ≡ None }
{
    let entry = match Entry::from_text(text) {
        Ok(entry) => entry,
        Err(fault) => return scan_status(fault),
    };
    let found = match scan_data(alloc, Rtype::from_int(rtype), entry) {
        Ok(found) => found,
        Err(ScanError::NoMemory) => return HW_E_MEMORY,
        Err(fault) => return scan_status(fault),
    };
    match composed(alloc, &found) {
        Ok(octets) => hand_out(octets.as_slice(), target, written),
        Err(NoMemory) => HW_E_MEMORY,
    }
}
