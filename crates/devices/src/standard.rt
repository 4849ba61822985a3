//! The standard input and output. What they give and take is known to no contract.
ghost use Rattle.std.specs.Prelude.{◌≡◌, ℕ, ◌<◌, List, Option, None, IfOk, length};
ghost use Rattle.std.specs.Io.{WritesAtMost};

use crate::device::{Failed, Sink, Source};
use std::io::{Read, Stdin, Stdout, Write};
use std::marker::Model;

/// The standard input, with a count of its faults.
#[derive(Debug, Drop)]
pub struct StdSource {
    input: Stdin,
    faults: u64,
}

impl Model for StdSource {
    ghost Value = { ℕ };

    ghost view = { λ s. s.faults };
}

impl StdSource {
    /// A source of what comes through `input`.
    pub fn new(input: Stdin) -> StdSource
        ensures { result ≡ 0 }
    {
        StdSource { input, faults: 0 }
    }
}

impl Source for StdSource {
    ghost left = { λ _. None };

    ghost faults = { λ faults. faults };

    fn read(&mut self, buf: &mut [u8]) -> Result<usize, Failed> {
        match self.input.read(buf) {
            Ok(count) => Ok(count),
            Err(_) => {
                self.faults = self.faults.saturating_add(1);
                Err(Failed)
            }
        }
    }
}

/// The standard output, with a count of its faults.
#[derive(Debug, Drop)]
pub struct StdSink {
    output: Stdout,
    faults: u64,
}

impl Model for StdSink {
    ghost Value = { ℕ };

    ghost view = { λ s. s.faults };
}

impl StdSink {
    /// A sink of what goes through `output`.
    pub fn new(output: Stdout) -> StdSink
        ensures { result ≡ 0 }
    {
        StdSink { output, faults: 0 }
    }
}

/// Writes octets from the front of `bytes` and flushes. Fails where either does, and where nothing
/// was taken of a piece that isn't empty.
fn put(output: &mut Stdout, bytes: &[u8]) -> Result<usize, Failed>
    ensures bound { WritesAtMost result bytes.now }
    ensures progress { IfOk result (λ count. 0 < length bytes.now → 0 < count) }
{
    let Ok(count) = output.write(bytes) else {
        return Err(Failed);
    };
    if output.flush().is_err() || (count == 0 && !bytes.is_empty()) {
        return Err(Failed);
    }
    Ok(count)
}

impl Sink for StdSink {
    ghost held = { λ _. None };

    ghost faults = { λ faults. faults };

    fn write(&mut self, bytes: &[u8]) -> Result<usize, Failed> {
        let outcome = put(&mut self.output, bytes);
        if outcome.is_err() {
            self.faults = self.faults.saturating_add(1);
        }
        outcome
    }
}
