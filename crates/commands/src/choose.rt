//! What answers `choose`.
ghost use Rattle.std.specs.Prelude.{◌≡◌, ◌≤◌, ◌^◌, true, length, IfOk};
ghost use Rattle.svcb_choose.specs.Choosing.{choice, priorities_ascend};
ghost use Rattle.input_lines.specs.Lines.{lines};
ghost use Rattle.input_lines.specs.ReportView.{answer_view};
ghost use Rattle.input_lines.specs.Spelling.{each_line, SpellsAs};
ghost use Rattle.commands.specs.Choose.{asked, due_of_choose};
ghost use Rattle.commands.specs.ChooseReport.{choice_answer};
ghost use Rattle.commands.specs.DataLines.{svcb_line};
ghost use Rattle.commands.specs.QuestionView.{question_view};

use crate::choose_report::choice_report;
use crate::data_lines::svcb_in;
use crate::defaults::defaults_line;
use crate::keys::keys_line;
use input_lines::faults::{InputFault, SpellError};
use input_lines::lines::Lines;
use input_lines::report::{Answer, Outcome, refused_answer};
use input_lines::tokens::name_line;
use registry::SvcParamKey;
use std::alloc::Global;
use svcb_choose::{choose, priorities_ascend};
use svcb_rdata::Svcb;
use wire_base::{Name, NoMemory, Octets};

/// The number of the first line that is a record.
const FIRST_RECORD: u64 = 4;

/// What a client asks.
#[derive(Drop)]
pub struct Question {
    pub owner: Name,
    pub understood: Vec<SvcParamKey>,
    pub defaults: Vec<Octets>,
    pub records: Vec<Svcb>,
}

/// Reads the lines from the fourth on.
fn record_lines(alloc: Global, mut input: Lines<'_>) -> Result<Vec<Svcb>, SpellError>
    requires { length input ≤ 2 ^ 63 }
    ensures { SpellsAs (λ records. records.items) result (each_line svcb_line 4 input.entry) }
{
    let mut records = Vec::new(alloc);
    let mut number = FIRST_RECORD;
    while let Some(line) = input.next() {
        match svcb_in(alloc, line)? {
            Some(found) => records.push(found)?,
            None => return Err(SpellError::Fault(InputFault::BadLine(number))),
        }
        number += 1;
    }
    Ok(records)
}

/// Reads an input of `choose`. `Fault` is the first fault of form in it.
fn read_question(alloc: Global, input: &[u8]) -> Result<Question, SpellError>
    ensures value { SpellsAs question_view result (asked (lines input.now)) }
    ensures ascend { IfOk result (λ q. priorities_ascend q.records.items ≡ true) }
{
    let mut lines = Lines::new(input);
    let owner = name_line(alloc, &mut lines, 1)?;
    let understood = keys_line(alloc, &mut lines)?;
    let defaults = defaults_line(alloc, &mut lines)?;
    let records = record_lines(alloc, lines)?;
    if !priorities_ascend(&records) {
        return Err(SpellError::Fault(InputFault::PrioritiesNotAscending));
    }
    Ok(Question {
        owner,
        understood,
        defaults,
        records,
    })
}

/// The answer to a question. Fails only with `NoMemory`.
fn question_answer(alloc: Global, q: &Question) -> Result<Answer, NoMemory>
    requires { priorities_ascend q.now.records.items ≡ true }
    ensures { IfOk result (λ answer. answer_view answer
        ≡ choice_answer (choice q.now.owner q.now.records.items
        q.now.understood.items q.now.defaults.items)) }
{
    let chosen = choose(alloc, &q.owner, &q.records, &q.understood, &q.defaults)?;
    Ok(Answer {
        outcome: Outcome::Done,
        report: choice_report(alloc, &chosen)?,
    })
}

/// The answer of `choose` to an input: the endpoints that a client chooses. Line 1 is the owner, line 2 the keys that
/// the client understands, line 3 the protocols that the scheme has by itself, and each other line a record's data in
/// hexadecimal. Fails only with `NoMemory`.
pub fn choose_answer(alloc: Global, input: &[u8]) -> Result<Answer, NoMemory>
    ensures { IfOk result (λ answer. answer_view answer ≡ due_of_choose input.now) }
{
    match read_question(alloc, input) {
        Ok(question) => question_answer(alloc, &question),
        Err(SpellError::Fault(fault)) => refused_answer(alloc, fault),
        Err(SpellError::NoMemory) => Err(NoMemory),
    }
}
