//! What a command answers: a report, and the status that goes with it.
ghost use Rattle.std.specs.Prelude.{◌≡◌, ◌≢◌, ◌<◌, IfOk};
ghost use Rattle.hex.specs.Hex.{encode_lower};
ghost use Rattle.input_lines.specs.ExitCodes.{exit_code};
ghost use Rattle.input_lines.specs.Faults.{due_of_fault};
ghost use Rattle.input_lines.specs.Report.{done_answer, status_of};
ghost use Rattle.input_lines.specs.ReportView.{answer_view};
ghost use Rattle.input_lines.specs.declared.exit_status.ExitStatus.TheVariants as exit;

use crate::exit_status::ExitStatus;
use crate::faults::InputFault;
use std::alloc::Global;
use wire_base::NoMemory;
use wire_records::Base16;

/// How a command ended. Each outcome has a status of its own.
#[derive(Clone, Copy, Debug, PartialEq, Eq)]
pub enum Outcome {
    /// The command was done.
    Done,
    /// The input has a fault of form.
    BadInput,
    /// The input is well formed, and what it asks for can't be done.
    NotDone,
}

impl Outcome {
    /// The status that the program ends with.
    pub fn status(self) -> u8
        ensures value { result ≡ status_of self }
        ensures reported { (result < exit_code exit.ReadFault)
            × (result ≢ exit_code exit.UnknownCommand) }
    {
        match self {
            Outcome::Done => ExitStatus::Done.code(),
            Outcome::BadInput => ExitStatus::BadInput.code(),
            Outcome::NotDone => ExitStatus::NotDone.code(),
        }
    }
}

/// What the program writes, and how the command ended.
#[derive(Drop)]
pub struct Answer {
    pub outcome: Outcome,
    pub report: String,
}

/// An answer with a constant text. Fails only with `NoMemory`.
pub fn text_answer(alloc: Global, outcome: Outcome, text: &str) -> Result<Answer, NoMemory>
    ensures { IfOk result (λ answer. answer_view answer
        ≡ record { status = status_of outcome; report = text.now }) }
{
    Ok(Answer {
        outcome,
        report: String::from_str(alloc, text)?,
    })
}

/// The answer to an input with a fault of form. Fails only with `NoMemory`.
pub fn refused_answer(alloc: Global, fault: InputFault) -> Result<Answer, NoMemory>
    ensures { IfOk result (λ answer. answer_view answer ≡ due_of_fault fault) }
{
    Ok(Answer {
        outcome: Outcome::BadInput,
        report: format!(in alloc; "refused: {fault}\n")?,
    })
}

/// The answer where a command was done: octets in hexadecimal. Fails only with `NoMemory`.
pub fn octets_answer(alloc: Global, octets: &[u8]) -> Result<Answer, NoMemory>
    ensures { IfOk result (λ answer. answer_view answer ≡ done_answer (encode_lower octets.now)) }
{
    let digits = Base16 {
        octets,
        is_upper: false,
    };
    Ok(Answer {
        outcome: Outcome::Done,
        report: format!(in alloc; "{digits}\n")?,
    })
}
