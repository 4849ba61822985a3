//! The line of the keys that a client understands.
ghost use Rattle.std.specs.Prelude.{◌≡◌, codes, drop, IfOk, slice_get, option_and_then};
ghost use Rattle.std.specs.Option.{option_map};
ghost use Rattle.std.specs.Str.{bytes_eq};
ghost use Rattle.input_lines.specs.Lines.{pieces};
ghost use Rattle.input_lines.specs.Spelling.{line_or_fault, SpellsAs};
ghost use Rattle.commands.specs.Choose.{keys_of, key_list, none_or};

use input_lines::faults::{InputFault, SpellError};
use input_lines::lines::{Lines, Pieces};
use input_lines::tokens::lone_token;
use registry::{IanaNumber, SvcParamKey};
use std::alloc::Global;
use text_spec::ScanError;
use wire_base::NoMemory;

/// How a line says that there are none.
const NONE: &[u8] = b"-";

/// Whether a line says that there are none.
pub fn says_none(line: &[u8]) -> bool
    ensures { result ≡ bytes_eq line.now (codes "-") }
{
    line == NONE
}

/// The keys that texts between commas spell, where each spells one. Fails only with `NoMemory`.
fn keys_of(alloc: Global, token: &[u8]) -> Result<Option<Vec<SvcParamKey>>, NoMemory>
    ensures { IfOk result (λ keys. option_map (λ found. found.items) keys
        ≡ keys_of (pieces 44 token.now)) }
{
    let mut keys = Vec::new(alloc);
    let mut texts = Pieces::new(token, b',');
    while let Some(text) = texts.next() {
        match SvcParamKey::from_bytes(text) {
            Some(key) => keys.push(key)?,
            None => return Ok(None),
        }
    }
    Ok(Some(keys))
}

/// The keys of a line: none where it is `-`. Fails only with `NoMemory`.
fn keys_in(alloc: Global, line: &[u8]) -> Result<Option<Vec<SvcParamKey>>, NoMemory>
    ensures { IfOk result (λ keys. option_map (λ found. found.items) keys
        ≡ none_or key_list line.now) }
{
    if says_none(line) {
        return Ok(Some(Vec::new(alloc)));
    }
    match lone_token(alloc, line) {
        Ok(token) => keys_of(alloc, token.as_slice()),
        Err(ScanError::NoMemory) => Err(NoMemory),
        Err(_) => Ok(None),
    }
}

/// Reads the next line, which is the second, as keys. `Fault` says that it is missing or bad.
pub fn keys_line(alloc: Global, input: &mut Lines<'_>) -> Result<Vec<SvcParamKey>, SpellError>
    ensures value { SpellsAs (λ found. found.items) result
        (line_or_fault 2 (option_and_then (none_or key_list) (slice_get input.old 0))) }
    ensures rest { input.new ≡ drop 1 input.old }
{
    let line = input.next().ok_or(InputFault::BadLine(2))?;
    let keys = keys_in(alloc, line)?;
    Ok(keys.ok_or(InputFault::BadLine(2))?)
}
