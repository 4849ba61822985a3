//! What answers `show`.
ghost use Rattle.std.specs.Prelude.{◌≡◌, IfOk};
ghost use Rattle.input_lines.specs.ReportView.{answer_view};
ghost use Rattle.edit_program.specs.Show.{data_in, data_shown, due_of_show};

use crate::edit_input::read_octets;
use input_lines::faults::SpellError;
use input_lines::report::{Answer, Outcome, refused_answer};
use rdata_union::AllRecordData;
use std::alloc::Global;
use wire_base::{NoMemory, ParseError, Parser, Rtype};

/// The answer to octets that are to be data of a type. Fails only with `NoMemory`.
fn octets_shown(alloc: Global, rtype: Rtype, octets: &[u8]) -> Result<Answer, NoMemory>
    ensures { IfOk result (λ answer. answer_view answer ≡ data_shown (data_in rtype octets.now)) }
{
    let mut parser = Parser::from_ref(octets);
    match AllRecordData::parse_whole(alloc, rtype, &mut parser) {
        Ok(data) => Ok(Answer {
            outcome: Outcome::Done,
            report: format!(in alloc; "{data}\n")?,
        }),
        Err(ParseError::NoMemory) => Err(NoMemory),
        Err(error) => Ok(Answer {
            outcome: Outcome::NotDone,
            report: format!(in alloc; "error: {error}\n")?,
        }),
    }
}

/// The answer of `show` to an input. Fails only with `NoMemory`.
pub fn show_answer(alloc: Global, rtype: Rtype, input: &[u8]) -> Result<Answer, NoMemory>
    ensures { IfOk result (λ answer. answer_view answer ≡ due_of_show rtype input.now) }
{
    match read_octets(alloc, input) {
        Ok(octets) => octets_shown(alloc, rtype, octets.as_slice()),
        Err(SpellError::Fault(fault)) => refused_answer(alloc, fault),
        Err(SpellError::NoMemory) => Err(NoMemory),
    }
}
