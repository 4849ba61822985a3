//! Reads a whole input, and writes a whole report.
ghost use Rattle.std.specs.Prelude.{◌≡◌, ℕ, ◌+◌, ◌<◌, ◌≤◌, take, IfOk, IfErr, OnOk, is_some, vec_len};
ghost use Rattle.std.specs.Io.KnownBytes.{Appends, Consumes, IsAtEnd};
ghost use Rattle.devices.specs.Faults.{HasCause};
ghost use Rattle.devices.specs.Reading.{HasReadCause};
ghost use Rattle.devices.specs.Takes.{TakesInput};
ghost use Rattle.devices.specs.declared.transfer.ReadError.TheVariants as errors;

use crate::device::{Failed, Sink, Source};
use std::alloc::{AllocError, Global};
use thiserror::Error;

/// The most octets that an input may have: 16 MiB, a limit of this project's own.
pub const MAX_INPUT: usize = 16_777_216;

const _: () = prove!(MAX_INPUT == 16_777_216);

/// The most octets that a read is asked for: 64 KiB, a size of this project's own.
const PIECE: usize = 65_536;

/// Why an input is not read.
#[derive(Clone, Copy, Debug, PartialEq, Eq, Error)]
pub enum ReadError {
    /// The source failed.
    #[error("device failed")]
    Failed,
    /// Allocation failed.
    #[error("want of memory")]
    NoMemory,
}

impl From<Failed> for ReadError {
    ghost from_gives = { λ _ error. error ≡ errors.Failed };

    fn from(_failed: Failed) -> ReadError {
        ReadError::Failed
    }
}

impl From<AllocError> for ReadError {
    ghost from_gives = { λ _ error. error ≡ errors.NoMemory };

    fn from(_refused: AllocError) -> ReadError {
        ReadError::NoMemory
    }
}

/// Takes the octets that `source` has left. It stops at their end, or as soon as more than `MAX_INPUT` of them were
/// taken, which is an input too long.
///
/// `Failed`: a read failed. `NoMemory`: allocation for the octets failed. A prefix of what was left may have been taken
/// then. No read follows one that gave no octet, at the end of the input or by failing.
pub fn read_input<S: Source>(alloc: Global, source: &mut S) -> Result<Vec<u8>, ReadError>
    ensures taken { IfOk result (λ input.
        Consumes (S.left source.old) (S.left source.new) input.items) }
    ensures end { IfOk result (λ input. vec_len input ≤ MAX_INPUT → IsAtEnd (S.left source.new)) }

    // No read asks for more than one octet beyond `MAX_INPUT`, and each but the last gives one.
    ensures bound { IfOk result (λ input. vec_len input ≤ MAX_INPUT + 1) }
    ensures calls { IfOk result (λ input.
        S.calls source.new ≤ S.calls source.old + vec_len input + 1) }

    // A read that gives no octet is the last: none follows the end of the input, nor a read that fails.
    ensures last { S.empty_reads source.new ≤ S.empty_reads source.old + 1 }
    ensures too_long { IfOk result (λ input.
        MAX_INPUT < vec_len input → S.empty_reads source.new ≡ S.empty_reads source.old) }
    ensures no_memory { IfErr result (λ error.
        error ≡ errors.NoMemory → S.empty_reads source.new ≡ S.empty_reads source.old) }

    ensures takes { TakesInput (S.left source.old) (S.left source.new) (MAX_INPUT + 1) }
    ensures cause { HasReadCause (S.faults source.old) (S.faults source.new) result }
{
    let mut input = Vec::new(alloc);
    let mut piece = [0; PIECE];
    while input.len() <= MAX_INPUT {
        let room = PIECE.min(MAX_INPUT + 1 - input.len());
        let count = source.read(&mut piece[..room])?;
        if count == 0 {
            break;
        }
        input.extend_from_slice(&piece[..count])?;
    }
    Ok(input)
}

/// Writes `bytes`. It fails where a write does, and then the sink holds a prefix of them behind what it held, and no
/// further write is made.
#[tactic(auto, using(crate::proofs::Pieces::appends_next))]
pub fn write_all<K: Sink>(sink: &mut K, bytes: &[u8]) -> Result<(), Failed>
    ensures whole { OnOk result (Appends (K.held sink.old) (K.held sink.new) bytes.now) }
    ensures part { (count : ℕ)
        × Appends (K.held sink.old) (K.held sink.new) (take count bytes.now) }
    ensures keeps_telling { is_some (K.held sink.new) ≡ is_some (K.held sink.old) }
    // Each write takes an octet, but for one that fails, which is the last.
    ensures each { OnOk result (K.empty_writes sink.new ≡ K.empty_writes sink.old) }
    ensures last { K.empty_writes sink.new ≤ K.empty_writes sink.old + 1 }
    ensures cause { HasCause (K.faults sink.old) (K.faults sink.new) result }
{
    let mut written = 0;
    while written < bytes.len() {
        written += sink.write(&bytes[written..])?;
    }
    Ok(())
}
