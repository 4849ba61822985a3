//! What answers `edit`.
ghost use Rattle.std.specs.Prelude.{◌≡◌, ◌+◌, ◌<◌, ◌≤◌, ◌^◌, length, map, Result, IfOk};
ghost use Rattle.svcb_spec.specs.Rebuilding as spec;
ghost use Rattle.svcb_spec.specs.Rebuilding.{rebuild};
ghost use Rattle.svcb_rdata.specs.RebuiltView.{IsRefusal};
ghost use Rattle.svcb_text.specs.AllValues.{value_of};
ghost use Rattle.edit_program.specs.Edit.{report_of, rebuild_report, due_of_edit};
ghost use Rattle.input_lines.specs.Report as report;
ghost use Rattle.input_lines.specs.ReportView.{answer_view};

use crate::edit_input::{EditInput, read_edit_input};
use crate::report::done_report;
use devices::MAX_INPUT;
use input_lines::faults::SpellError;
use input_lines::report::{Answer, Outcome, refused_answer};
use std::alloc::Global;
use svcb_rdata::{RebuildError, rebuild_svcb};
use wire_base::{NoMemory, ParseError};

/// The answer where nothing was rebuilt, for this reason. Fails only with `NoMemory`.
pub fn refusal_answer(alloc: Global, error: RebuildError) -> Result<Answer, NoMemory>
    ensures { (whole : spec.Rebuilt → report.Answer) (given : Result spec.Rebuilt spec.Refusal)
        → IsRefusal error given
        → IfOk result (λ answer. answer_view answer ≡ report_of whole given) }
{
    match error {
        RebuildError::NoMemory | RebuildError::Parse(ParseError::NoMemory) => Err(NoMemory),
        _ => Ok(Answer {
            outcome: Outcome::NotDone,
            report: format!(in alloc; "error: {error}\n")?,
        }),
    }
}

/// The answer to a well-formed input.
fn rebuilt_answer(alloc: Global, input: &EditInput) -> Result<Answer, NoMemory>
    requires within { input.now.bounds.start + input.now.bounds.len
        ≤ length input.now.message }
    requires limit { input.now.bounds.limit < 2 ^ 31 }
    ensures { IfOk result (λ answer.
        answer_view answer ≡ rebuild_report (rebuild input.now.message
        input.now.bounds.start input.now.bounds.len
        (map value_of input.now.pushes.items) input.now.bounds.limit)) }
{
    let bounds = input.bounds;
    let outcome = rebuild_svcb(
        alloc,
        input.message.as_slice(),
        bounds.start as usize,
        bounds.len as usize,
        &input.pushes,
        bounds.limit as usize,
    );
    match outcome {
        Ok(rebuilt) => Ok(Answer {
            outcome: Outcome::Done,
            report: done_report(alloc, &rebuilt)?,
        }),
        Err(error) => refusal_answer(alloc, error),
    }
}

/// The answer of `edit` to an input. Fails only with `NoMemory`.
pub fn edit_answer(alloc: Global, input: &[u8]) -> Result<Answer, NoMemory>
    requires { length input.now ≤ MAX_INPUT }
    ensures { IfOk result (λ answer. answer_view answer ≡ due_of_edit input.now) }
{
    match read_edit_input(alloc, input) {
        Ok(input) => rebuilt_answer(alloc, &input),
        Err(SpellError::Fault(fault)) => refused_answer(alloc, fault),
        Err(SpellError::NoMemory) => Err(NoMemory),
    }
}
