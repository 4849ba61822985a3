//! Lines that are records of a zone.
ghost use Rattle.std.specs.Prelude.{◌≡◌, IfOk};
ghost use Rattle.text_spec.specs.Scanning.{Answers, Scans};
ghost use Rattle.input_lines.specs.Tokens.{entry_scanned};
ghost use Rattle.commands.specs.ZoneLines.{data_token, zone_record, record_line};

use dns_text::{EntryScanner, Scanner};
use std::alloc::Global;
use text_spec::{ScanError, decode_base16};
use wire_base::{NoMemory, Octets, Rtype};
use wire_records::UnknownRecordData;
use zonemd_check::ZoneRecord;

/// The octets that the next token spells in base16; none where no token is left.
fn data_token<S: Scanner>(alloc: Global, scanner: &mut S) -> Result<Octets, ScanError>
    ensures { Scans (λ octets. octets) data_token
        (S.scan scanner.old) (S.scan scanner.new) result }
{
    if !scanner.continues() {
        return Ok(Octets::from_vec(Vec::new(alloc)));
    }
    let place = scanner.taken();
    let text = scanner.scan_octets(alloc)?;
    let outcome = decode_base16(alloc, text.as_slice());
    scanner.rewind_unless_ok(place, outcome)
}

/// The record that all tokens left spell.
fn zone_record<S: Scanner>(alloc: Global, scanner: &mut S) -> Result<ZoneRecord, ScanError>
    ensures { Answers (λ found. found) result
        (zone_record (S.scan scanner.old).tokens (S.scan scanner.old).taken).outcome }
{
    let owner = scanner.scan_name(alloc)?;
    let rtype = Rtype::from_int(scanner.scan_u16(alloc)?);
    let class = scanner.scan_u16(alloc)?;
    let ttl = scanner.scan_u32(alloc)?;
    let octets = data_token(alloc, scanner)?;
    scanner.check_end()?;
    match UnknownRecordData::new(rtype, octets) {
        Ok(record_data) => Ok(ZoneRecord::new(owner, class, ttl, record_data)),
        Err(_) => Err(ScanError::BadBase16),
    }
}

/// The record that a line spells. Any error but `NoMemory` says that it spells none.
fn scan_line(alloc: Global, line: &[u8]) -> Result<ZoneRecord, ScanError>
    ensures { Answers (λ found. found) result (entry_scanned zone_record line.now) }
{
    let mut scanner = EntryScanner::from_text(line)?;
    zone_record(alloc, &mut scanner)
}

/// The record of a line: owner, type, class, TTL, and data in base16, which may be left out. Fails only with
/// `NoMemory`.
pub fn record_in(alloc: Global, line: &[u8]) -> Result<Option<ZoneRecord>, NoMemory>
    ensures { IfOk result (λ found. found ≡ record_line line.now) }
{
    match scan_line(alloc, line) {
        Ok(found) => Ok(Some(found)),
        Err(ScanError::NoMemory) => Err(NoMemory),
        Err(_) => Ok(None),
    }
}
