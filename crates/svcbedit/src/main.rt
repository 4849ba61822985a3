//! Edits the parameters of SVCB record data, from the standard input to the standard output. What a run does is
//! [`edit_program::run`]'s.
#![tactic(auto)]

ghost use Rattle.std.specs.Prelude.{◌≡◌};
ghost use Rattle.edit_program.specs.RunErrors.{status_without_words};

use devices::{StdSink, StdSource};
use edit_program::run::run;
use input_lines::exit_status::ExitStatus;
use std::process::ExitCode;
use std::{env, io};

/// The words after the program's name.
fn given_words(rt: &HostRuntime) -> io::Result<Vec<String>> {
    Ok(env::args(rt)?.skip(1).collect(rt.alloc())?)
}

/// The status where the system refuses the words: that of a failed allocation, and else one that no run gives.
fn status_without_words(kind: io::ErrorKind) -> u8
    ensures { result ≡ status_without_words kind }
{
    match kind {
        io::ErrorKind::OutOfMemory => ExitStatus::NoMemory.code(),
        _ => ExitStatus::NoWords.code(),
    }
}

fn main(rt: HostRuntime) -> ExitCode {
    let status = match given_words(&rt) {
        Ok(words) => {
            let mut source = StdSource::new(rt.stdin());
            let mut sink = StdSink::new(rt.stdout());
            run(rt.alloc(), &words, &mut source, &mut sink)
        }
        Err(error) => status_without_words(error.kind()),
    };
    ExitCode::from(status)
}
