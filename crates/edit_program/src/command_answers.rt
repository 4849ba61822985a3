//! What each command answers.
ghost use Rattle.std.specs.Prelude.{◌≡◌, IfOk};
ghost use Rattle.edit_program.specs.Commands.{answer_to};
ghost use Rattle.input_lines.specs.ReportView.{answer_view};

use crate::edit::edit_answer;
use crate::generate::gen_answer;
use crate::scan::scan_answer;
use crate::show::show_answer;
use crate::words::Command;
use commands::{cds_answer, choose_answer, zonemd_answer};
use devices::MAX_INPUT;
use input_lines::report::{Answer, Outcome, text_answer};
use std::alloc::Global;
use wire_base::NoMemory;

/// The answer of a command to its input. A command that reads none is given an empty one. Fails only with `NoMemory`.
#[tactic(auto, unfolding(crate::specs::Commands::answer_of))]
pub fn command_answer(alloc: Global, command: Command, input: &[u8]) -> Result<Answer, NoMemory>
    ensures { IfOk result (λ answer. answer_view answer ≡ answer_to command input.now) }
{
    if input.len() > MAX_INPUT {
        return text_answer(alloc, Outcome::BadInput, "refused: input too long\n");
    }
    match command {
        Command::Edit => edit_answer(alloc, input),
        Command::Show(rtype) => show_answer(alloc, rtype, input),
        Command::Scan(rtype) => scan_answer(alloc, rtype, input),
        Command::Gen(count) => gen_answer(alloc, count),
        Command::Choose => choose_answer(alloc, input),
        Command::Cds => cds_answer(alloc, input),
        Command::Zonemd => zonemd_answer(alloc, input),
    }
}
