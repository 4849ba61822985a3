//! Lines that are the text of a zone file's entry with one token.
ghost use Rattle.std.specs.Prelude.{◌≡◌, drop, slice_get, option_and_then, IsErrOf, IsSome, IsSomeAnd};
ghost use Rattle.input_lines.specs.Spelling.{line_or_fault, SpellsAs};
ghost use Rattle.input_lines.specs.Tokens.{entry_tokens, lone_token, lone_name, ReadsAs};

use crate::faults::{InputFault, SpellError};
use crate::lines::Lines;
use dns_text::{EntryScanner, Scanner, name_from_text};
use std::alloc::Global;
use text_spec::ScanError;
use wire_base::{Name, Octets};

/// The octets of the token of a line that is an entry with exactly one. Any error but `NoMemory` says that it isn't.
/// `NoMemory` comes only where the line is an entry.
pub fn lone_token(alloc: Global, line: &[u8]) -> Result<Octets, ScanError>
    ensures value { ReadsAs (λ octets. octets) result (lone_token line.now) }
    ensures memory { IsErrOf result ScanError.NoMemory → IsSome (entry_tokens line.now) }
{
    let mut scanner = EntryScanner::from_text(line)?;
    let octets = scanner.scan_octets(alloc)?;
    scanner.check_end()?;
    Ok(octets)
}

/// Reads the next line, which has this number, as a name. `Fault` says that it is missing or bad, and comes surely where
/// it is missing or no entry.
pub fn name_line(alloc: Global, input: &mut Lines<'_>, number: u64) -> Result<Name, SpellError>
    ensures value { SpellsAs (λ name. name) result
        (line_or_fault number (option_and_then lone_name (slice_get input.old 0))) }
    ensures rest { input.new ≡ drop 1 input.old }
    ensures memory { IsErrOf result SpellError.NoMemory
        → IsSomeAnd (slice_get input.old 0) (λ line. IsSome (entry_tokens line)) }
{
    let line = input.next().ok_or(InputFault::BadLine(number))?;
    match name_from_text(alloc, line) {
        Ok(name) => Ok(name),
        Err(ScanError::NoMemory) => Err(SpellError::NoMemory),
        Err(_) => Err(SpellError::Fault(InputFault::BadLine(number))),
    }
}
