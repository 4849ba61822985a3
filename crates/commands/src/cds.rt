//! What answers `cds`.
ghost use Rattle.std.specs.Prelude.{◌≡◌, ◌≤◌, ◌^◌, Some, length, IfOk};
ghost use Rattle.input_lines.specs.ReportView.{answer_view};
ghost use Rattle.input_lines.specs.Report.{done_answer};
ghost use Rattle.input_lines.specs.Spelling.{each_line, SpellsAs};
ghost use Rattle.input_lines.specs.Lines.{lines};
ghost use Rattle.commands.specs.Cds.{cds_in, key_in, key_line, cds_among, keys_among, asked_verdict, verdict_text, due_of_cds};

use crate::data_lines::fields_in;
use cds_check::{CdsVerdict, check_cds};
use digest_rdata::{Cdnskey, Cds};
use input_lines::faults::{InputFault, SpellError};
use input_lines::lines::Lines;
use input_lines::report::{Answer, Outcome, refused_answer};
use input_lines::tokens::name_line;
use std::alloc::Global;
use std::fmt;
use wire_base::NoMemory;

/// The number of the first line behind the owner's.
const FIRST_RECORD: u64 = 2;

/// How the line of a CDS begins.
const CDS_WORD: &[u8] = b"cds ";

/// How the line of a CDNSKEY begins.
const CDNSKEY_WORD: &[u8] = b"cdnskey ";

/// A line behind the owner's.
#[derive(Drop)]
pub enum KeyLine {
    /// `cds HEX`.
    Cds(Cds),
    /// `cdnskey HEX`.
    Cdnskey(Cdnskey),
}

/// The records of an owner, by their type.
#[derive(Drop)]
pub struct KeyRecords {
    pub cds: Vec<Cds>,
    pub keys: Vec<Cdnskey>,
}

/// The CDS that digits give. Fails only with `NoMemory`.
#[tactic(auto, using(crate::proofs::Fields::cds_again))]
fn cds_in(alloc: Global, digits: &[u8]) -> Result<Option<Cds>, NoMemory>
    ensures { IfOk result (λ found. found ≡ cds_in digits.now) }
{
    fields_in(alloc, digits)
}

/// The CDNSKEY that digits give. Fails only with `NoMemory`.
#[tactic(auto, using(crate::proofs::Fields::key_again))]
fn key_in(alloc: Global, digits: &[u8]) -> Result<Option<Cdnskey>, NoMemory>
    ensures { IfOk result (λ found. found ≡ key_in digits.now) }
{
    fields_in(alloc, digits)
}

/// Reads `cds HEX` or `cdnskey HEX`. Fails only with `NoMemory`.
fn key_line(alloc: Global, line: &[u8]) -> Result<Option<KeyLine>, NoMemory>
    ensures { IfOk result (λ found. found ≡ key_line line.now) }
{
    if let Some(digits) = line.strip_prefix(CDS_WORD) {
        return match cds_in(alloc, digits)? {
            Some(found) => Ok(Some(KeyLine::Cds(found))),
            None => Ok(None),
        };
    }
    let Some(digits) = line.strip_prefix(CDNSKEY_WORD) else {
        return Ok(None);
    };
    match key_in(alloc, digits)? {
        Some(found) => Ok(Some(KeyLine::Cdnskey(found))),
        None => Ok(None),
    }
}

/// Reads the lines from the second on.
fn key_lines(alloc: Global, mut input: Lines<'_>) -> Result<Vec<KeyLine>, SpellError>
    requires { length input ≤ 2 ^ 63 }
    ensures { SpellsAs (λ found. found.items) result (each_line key_line 2 input.entry) }
{
    let mut records = Vec::new(alloc);
    let mut number = FIRST_RECORD;
    while let Some(line) = input.next() {
        match key_line(alloc, line)? {
            Some(found) => records.push(found)?,
            None => return Err(SpellError::Fault(InputFault::BadLine(number))),
        }
        number += 1;
    }
    Ok(records)
}

/// Puts records apart by their type. Fails only with `NoMemory`.
fn by_type(alloc: Global, found: Vec<KeyLine>) -> Result<KeyRecords, NoMemory>
    ensures cds { IfOk result (λ records. records.cds.items ≡ cds_among found.items) }
    ensures keys { IfOk result (λ records. records.keys.items ≡ keys_among found.items) }
{
    let mut records = KeyRecords {
        cds: Vec::new(alloc),
        keys: Vec::new(alloc),
    };
    for line in found {
        match line {
            KeyLine::Cds(cds) => records.cds.push(cds)?,
            KeyLine::Cdnskey(key) => records.keys.push(key)?,
        }
    }
    Ok(records)
}

/// The verdict that an input asks for. `Fault` is the first fault of form in it.
fn asked_verdict(alloc: Global, input: &[u8]) -> Result<CdsVerdict, SpellError>
    ensures { SpellsAs (λ verdict. verdict) result (asked_verdict (lines input.now)) }
{
    let mut lines = Lines::new(input);
    let owner = name_line(alloc, &mut lines, 1)?;
    let found = key_lines(alloc, lines)?;
    let records = by_type(alloc, found)?;
    Ok(check_cds(alloc, &owner, &records.cds, &records.keys)?)
}

/// A verdict as a report says it, with places counted from 1.
#[derive(Clone, Copy)]
struct VerdictText(CdsVerdict);

impl fmt::Display for VerdictText {
    ghost output = { λ text. Some (verdict_text text.0) };

    fn fmt<W: fmt::Write>(&self, f: &mut fmt::Formatter<W>) -> fmt::Result {
        match self.0 {
            CdsVerdict::Agree => write!(f, "agree"),
            CdsVerdict::CdsAlone(i) => write!(f, "cds {} without cdnskey", i as u128 + 1),
            CdsVerdict::CdnskeyAlone(j) => write!(f, "cdnskey {} without cds", j as u128 + 1),
        }
    }
}

/// The answer where the input is well formed. Fails only with `NoMemory`.
fn verdict_answer(alloc: Global, verdict: CdsVerdict) -> Result<Answer, NoMemory>
    ensures { IfOk result (λ answer.
        answer_view answer ≡ done_answer (verdict_text verdict)) }
{
    let text = VerdictText(verdict);
    Ok(Answer {
        outcome: Outcome::Done,
        report: format!(in alloc; "{text}\n")?,
    })
}

/// The answer of `cds` to an input: whether the CDS and CDNSKEY records of an owner ask for the same keys. Line 1 is the
/// owner; each other line is `cds HEX` or `cdnskey HEX`. Fails only with `NoMemory`.
pub fn cds_answer(alloc: Global, input: &[u8]) -> Result<Answer, NoMemory>
    ensures { IfOk result (λ answer. answer_view answer ≡ due_of_cds input.now) }
{
    match asked_verdict(alloc, input) {
        Ok(verdict) => verdict_answer(alloc, verdict),
        Err(SpellError::Fault(fault)) => refused_answer(alloc, fault),
        Err(SpellError::NoMemory) => Err(NoMemory),
    }
}
