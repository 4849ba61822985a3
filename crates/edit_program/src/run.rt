//! The program, over any source and any sink.
ghost use Rattle.std.specs.Prelude.{◌≡◌, ◌≢◌, ◌+◌, ◌<◌, ◌≤◌, ◌⊎◌, length, is_some, Some, None, IfOk, IfErr, IfSome, IsSome, IsTrue, MatchResult};
ghost use Rattle.std.specs.Bool.{OnFalse};
ghost use Rattle.std.specs.Io.KnownBytes.{IsAtEnd};
ghost use Rattle.devices.specs.Faults.{Rose};
ghost use Rattle.devices.specs.Takes.{TakesAtMost, TakesFront};
ghost use Rattle.edit_program.specs.Commands.{due, is_reading, reads_input};
ghost use Rattle.edit_program.specs.Devices.{Draws, Reports};
ghost use Rattle.input_lines.specs.ExitCodes.{exit_code};
ghost use Rattle.input_lines.specs.ReportView.{answer_view};
ghost use Rattle.edit_program.specs.Run.{Ends, Whole, TellsCommand, IsWriteFault, IsNoWriteFault, IsNoReadFault};
ghost use Rattle.edit_program.specs.Words.{command_of};
ghost use Rattle.input_lines.specs.declared.exit_status.ExitStatus.TheVariants as exit;

use crate::command_answers::command_answer;
use crate::run_error::RunError;
use crate::words::{Command, command_in};
use devices::{MAX_INPUT, Sink, Source, read_input, write_all};
use input_lines::exit_status::ExitStatus;
use input_lines::report::Answer;
use std::alloc::Global;

/// The report on words that are no command, a constant, so that no memory is taken for it.
const NO_COMMAND: &str = "refused: unknown command\n";

/// Reads the input of a command that reads one, and gives the command's answer.
fn answer<S: Source>(alloc: Global, command: Command, source: &mut S) -> Result<Answer, RunError>
    ensures answer { IfOk result (λ answer. IfSome (due (Some command) (S.left source.old))
        (λ known. answer_view answer ≡ known)) }
    ensures cause { IfErr result IsNoWriteFault }
    ensures unread { OnFalse (is_reading command) (IfErr result IsNoReadFault) }
    ensures source { Draws (is_reading command) S.left S.faults S.empty_reads
        source.old source.new result }
{
    if !command.reads_input() {
        return Ok(command_answer(alloc, command, &[])?);
    }
    let input = read_input(alloc, source)?;
    Ok(command_answer(alloc, command, &input)?)
}

/// Writes a report, and gives its status.
fn report<K: Sink>(sink: &mut K, status: u8, text: &str) -> Result<u8, RunError>
    requires { status < exit_code exit.ReadFault }
    ensures status { MatchResult result (λ given. given ≡ status) IsWriteFault }
    ensures sink { Reports K.held K.faults K.empty_writes sink.old sink.new
        (Some (record { status = status; report = text.now })) result }
{
    write_all(sink, text.as_bytes())?;
    Ok(status)
}

/// Runs the command that the words name.
fn perform<S: Source, K: Sink>(
    alloc: Global,
    words: &[String],
    source: &mut S,
    sink: &mut K,
) -> Result<u8, RunError>
    ensures status { TellsCommand (command_of words.now) result }
    ensures unread { OnFalse (reads_input (command_of words.now)) (IfErr result IsNoReadFault) }
    ensures source { Draws (reads_input (command_of words.now))
        S.left S.faults S.empty_reads source.old source.new result }
    ensures sink { Reports K.held K.faults K.empty_writes sink.old sink.new
        (due (command_of words.now) (S.left source.old)) result }
{
    let Some(command) = command_in(words) else {
        return report(sink, ExitStatus::UnknownCommand.code(), NO_COMMAND);
    };
    let answer = answer(alloc, command, source)?;
    report(sink, answer.outcome.status(), answer.report.as_str())
}

/// Runs the program, and gives the status that it ends with. The words are those after the program's name.
///
/// 0: the command was done. 1: the words are no command, and nothing is read. 2: the input has a fault of form. 3: the
/// input is well formed, and what it asks for can't be done. 4: a read failed, and nothing is written. 5: a write
/// failed, and a prefix of the report is written. 6: allocation failed, and nothing is written.
///
/// The whole report is made before the first write. Allocation may fail wherever memory is taken, but never for
/// words that are no command, nor where a device failed.
pub fn run<S: Source, K: Sink>(alloc: Global, words: &[String], source: &mut S, sink: &mut K) -> u8
    // The answer that is due is written, unless a fault or a failed allocation comes.
    ensures ends { Ends result
        (due (command_of words.now) (S.left source.old))
        (K.held sink.old) (K.held sink.new) }

    // Words that are no command are refused, and no others are. No memory is taken then.
    ensures unknown { command_of words.now ≡ None
        → (result ≡ exit_code exit.UnknownCommand) ⊎ (result ≡ exit_code exit.WriteFault) }
    ensures known { IsSome (command_of words.now) → result ≢ exit_code exit.UnknownCommand }

    // Only a command that reads does so. It takes all that an input may have, and whatever the status
    // at most one octet beyond it.
    ensures unread { OnFalse (reads_input (command_of words.now)) (source.new ≡ source.old) }
    ensures end { IsTrue (reads_input (command_of words.now)) → result < exit_code exit.ReadFault →
        IfSome (S.left source.old)
        (λ bytes. length bytes ≤ MAX_INPUT → IsAtEnd (S.left source.new)) }
    ensures most { TakesAtMost (S.left source.old) (S.left source.new) (MAX_INPUT + 1) }
    ensures front { TakesFront (S.left source.old) (S.left source.new) }

    // A device that tells its octets goes on to tell them.
    ensures source_keeps_telling { is_some (S.left source.new) ≡ is_some (S.left source.old) }
    ensures sink_keeps_telling { is_some (K.held sink.new) ≡ is_some (K.held sink.old) }

    // Where neither device fails, the answer that is due is given, or allocation failed.
    ensures complete { ¬ (Rose (S.faults source.old) (S.faults source.new))
        → ¬ (Rose (K.faults sink.old) (K.faults sink.new))
        → IfSome (due (command_of words.now) (S.left source.old)) (λ answer.
        (result ≡ exit_code exit.NoMemory) ⊎ ((result ≡ answer.status)
        × Whole answer (K.held sink.old) (K.held sink.new))) }

    // A fault is answered only where the device's count of faults rose, and a read fault only where
    // the command reads; each other status leaves that count.
    ensures read_fault { result ≡ exit_code exit.ReadFault
        → Rose (S.faults source.old) (S.faults source.new) }
    ensures no_read { OnFalse (reads_input (command_of words.now))
        (result ≢ exit_code exit.ReadFault) }
    ensures write_fault { result ≡ exit_code exit.WriteFault
        → Rose (K.faults sink.old) (K.faults sink.new) }
    ensures reads { result ≢ exit_code exit.ReadFault
        → S.faults source.new ≡ S.faults source.old }
    ensures writes { result ≢ exit_code exit.WriteFault
        → K.faults sink.new ≡ K.faults sink.old }

    // A read that gives no octet is the last, and so is a write that fails. Each other write takes
    // an octet.
    ensures last_read { S.empty_reads source.new ≤ S.empty_reads source.old + 1 }
    ensures last_write { K.empty_writes sink.new ≤ K.empty_writes sink.old + 1 }
    ensures each_write { result ≢ exit_code exit.WriteFault
        → K.empty_writes sink.new ≡ K.empty_writes sink.old }
{
    match perform(alloc, words, source, sink) {
        Ok(status) => status,
        Err(error) => error.status(),
    }
}
