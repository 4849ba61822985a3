//! What answers `scan`.
ghost use Rattle.std.specs.Prelude.{◌≡◌, IfOk};
ghost use Rattle.text_spec.specs.Scanning.{Answers};
ghost use Rattle.record_spec.specs.UnionTexts.{union_scan};
ghost use Rattle.rdata_union.specs.Views.{data_of_zone};
ghost use Rattle.input_lines.specs.ReportView.{answer_view};
ghost use Rattle.input_lines.specs.Tokens.{entry_scanned};
ghost use Rattle.edit_program.specs.Scan.{due_of_scan};

use dns_text::EntryScanner;
use input_lines::report::{Answer, Outcome, octets_answer};
use rdata_union::ZoneRecordData;
use std::alloc::Global;
use text_spec::ScanError;
use wire_base::{ComposeRecordData, NoMemory, Rtype};

/// The data of a type that a text spells.
fn scan_data(alloc: Global, rtype: Rtype, text: &[u8]) -> Result<ZoneRecordData, ScanError>
    ensures { Answers data_of_zone result (entry_scanned (union_scan rtype) text.now) }
{
    let mut scanner = EntryScanner::from_text(text)?;
    ZoneRecordData::scan(alloc, rtype, &mut scanner)
}

/// The answer of `scan` to an input. Fails only with `NoMemory`.
pub fn scan_answer(alloc: Global, rtype: Rtype, input: &[u8]) -> Result<Answer, NoMemory>
    ensures { IfOk result (λ answer. answer_view answer ≡ due_of_scan rtype input.now) }
{
    match scan_data(alloc, rtype, input) {
        Ok(data) => {
            let mut octets = Vec::new(alloc);
            data.compose_rdata(&mut octets)?;
            octets_answer(alloc, &octets)
        }
        Err(ScanError::NoMemory) => Err(NoMemory),
        Err(fault) => Ok(Answer {
            outcome: Outcome::NotDone,
            report: format!(in alloc; "error: {fault}\n")?,
        }),
    }
}
