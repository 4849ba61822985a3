//! What answers `zonemd`.
ghost use Rattle.std.specs.Prelude.{◌≡◌, ◌≤◌, ◌^◌, Some, true, length, drop, IfOk, slice_get, option_and_then};
ghost use Rattle.zonemd_check.specs.Ordering.{records_ascend};
ghost use Rattle.zonemd_check.specs.Verdicts.{zonemd_verdict};
ghost use Rattle.input_lines.specs.Lines.{lines};
ghost use Rattle.input_lines.specs.Report.{done_answer};
ghost use Rattle.input_lines.specs.ReportView.{answer_view};
ghost use Rattle.input_lines.specs.Spelling.{each_line, line_or_fault, SpellsAs};
ghost use Rattle.commands.specs.ZoneLines.{record_line};
ghost use Rattle.commands.specs.Zonemd.{zonemd_in, zonemd_read, zone_of, zone_text, due_of_zonemd};
ghost use Rattle.commands.specs.ZoneView.{zone_view};

use crate::zone_lines::record_in;
use digest_rdata::Zonemd;
use input_lines::faults::{InputFault, SpellError};
use input_lines::hexadecimal::octets_in;
use input_lines::lines::Lines;
use input_lines::report::{Answer, Outcome, refused_answer, text_answer};
use input_lines::tokens::name_line;
use std::alloc::Global;
use wire_base::{Name, NoMemory, ParseError, Parser};
use zonemd_check::{ZoneRecord, ZonemdVerdict, check_zonemd, records_ascend};

/// The number of the first line that is a record.
const FIRST_RECORD: u64 = 3;

/// A zone, and what its ZONEMD record says.
#[derive(Drop)]
pub struct Zone {
    pub apex: Name,
    pub zonemd: Zonemd,
    pub records: Vec<ZoneRecord>,
}

/// The ZONEMD data that all octets are. Fails only with `NoMemory`.
#[tactic(auto, using(crate::proofs::ZoneFields::zonemd_again))]
fn zonemd_read(alloc: Global, octets: &[u8]) -> Result<Option<Zonemd>, NoMemory>
    ensures { IfOk result (λ found. found ≡ zonemd_read octets.now) }
{
    match Zonemd::parse(alloc, &mut Parser::from_ref(octets)) {
        Ok(found) => Ok(Some(found)),
        Err(ParseError::NoMemory) => Err(NoMemory),
        Err(_) => Ok(None),
    }
}

/// The ZONEMD data that digits give. Fails only with `NoMemory`.
fn zonemd_in(alloc: Global, digits: &[u8]) -> Result<Option<Zonemd>, NoMemory>
    ensures { IfOk result (λ found. found ≡ zonemd_in digits.now) }
{
    match octets_in(alloc, digits)? {
        Some(octets) => zonemd_read(alloc, octets.as_slice()),
        None => Ok(None),
    }
}

/// Reads the next line, which is the second, as ZONEMD data in hexadecimal. `Fault` says that it is missing or bad.
fn zonemd_line(alloc: Global, input: &mut Lines<'_>) -> Result<Zonemd, SpellError>
    ensures value { SpellsAs (λ found. found) result
        (line_or_fault 2 (option_and_then zonemd_in (slice_get input.old 0))) }
    ensures rest { input.new ≡ drop 1 input.old }
{
    let line = input.next().ok_or(InputFault::BadLine(2))?;
    let found = zonemd_in(alloc, line)?;
    Ok(found.ok_or(InputFault::BadLine(2))?)
}

/// Reads the lines from the third on.
fn record_lines(alloc: Global, mut input: Lines<'_>) -> Result<Vec<ZoneRecord>, SpellError>
    requires { length input ≤ 2 ^ 63 }
    ensures { SpellsAs (λ records. records.items) result (each_line record_line 3 input.entry) }
{
    let mut records = Vec::new(alloc);
    let mut number = FIRST_RECORD;
    while let Some(line) = input.next() {
        match record_in(alloc, line)? {
            Some(found) => records.push(found)?,
            None => return Err(SpellError::Fault(InputFault::BadLine(number))),
        }
        number += 1;
    }
    Ok(records)
}

/// Reads an input of `zonemd`. `Fault` is the first fault of form in it.
fn read_zone(alloc: Global, input: &[u8]) -> Result<Zone, SpellError>
    ensures value { SpellsAs zone_view result (zone_of (lines input.now)) }
    ensures ascend { IfOk result (λ z. records_ascend z.records.items ≡ true) }
{
    let mut lines = Lines::new(input);
    let apex = name_line(alloc, &mut lines, 1)?;
    let zonemd = zonemd_line(alloc, &mut lines)?;
    let records = record_lines(alloc, lines)?;
    if !records_ascend(&records) {
        return Err(SpellError::Fault(InputFault::RecordsNotAscending));
    }
    Ok(Zone {
        apex,
        zonemd,
        records,
    })
}

/// The answer to a zone. Fails only with `NoMemory`.
fn zone_answer(alloc: Global, zone: &Zone) -> Result<Answer, NoMemory>
    requires { records_ascend zone.now.records.items ≡ true }
    ensures { IfOk result (λ answer. answer_view answer ≡ done_answer
        (zone_text (zonemd_verdict zone.now.apex zone.now.records.items zone.now.zonemd))) }
{
    match check_zonemd(alloc, &zone.apex, &zone.records, &zone.zonemd)? {
        ZonemdVerdict::Match => text_answer(alloc, Outcome::Done, "match\n"),
        ZonemdVerdict::Mismatch => text_answer(alloc, Outcome::Done, "mismatch\n"),
        ZonemdVerdict::Unsupported => text_answer(alloc, Outcome::Done, "unsupported\n"),
    }
}

/// The answer of `zonemd` to an input: whether a zone has the digest of its ZONEMD record. Line 1 is the apex, line 2
/// the record's data in hexadecimal, and each other line a record of the zone. Fails only with `NoMemory`.
pub fn zonemd_answer(alloc: Global, input: &[u8]) -> Result<Answer, NoMemory>
    ensures { IfOk result (λ answer. answer_view answer ≡ due_of_zonemd input.now) }
{
    match read_zone(alloc, input) {
        Ok(zone) => zone_answer(alloc, &zone),
        Err(SpellError::Fault(fault)) => refused_answer(alloc, fault),
        Err(SpellError::NoMemory) => Err(NoMemory),
    }
}
