//! The line of the protocols that a scheme has by itself.
ghost use Rattle.std.specs.Prelude.{◌≡◌, drop, IfOk, slice_get, option_and_then};
ghost use Rattle.std.specs.Option.{option_map};
ghost use Rattle.svcb_choose.specs.Usability.{alpn_protocols};
ghost use Rattle.input_lines.specs.Spelling.{line_or_fault, SpellsAs};
ghost use Rattle.input_lines.specs.Tokens.{ReadsAs};
ghost use Rattle.commands.specs.Choose.{alpn_line, protocol_list, none_or};

use crate::keys::says_none;
use input_lines::faults::{InputFault, SpellError};
use input_lines::lines::Lines;
use input_lines::tokens::lone_token;
use registry::SvcParamKey;
use std::alloc::Global;
use svcb_list::Alpn;
use svcb_text::ScanSvcParamValue;
use text_spec::ScanError;
use wire_base::{NoMemory, Octets};

/// Copies of the protocols of a value. Fails only with `NoMemory`.
fn copies(alloc: Global, alpn: &Alpn) -> Result<Vec<Octets>, NoMemory>
    ensures { IfOk result (λ found. found.items ≡ alpn_protocols alpn.now) }
{
    let mut protocols = Vec::new(alloc);
    for protocol in alpn.iter() {
        protocols.push(Octets::from_slice(alloc, protocol)?)?;
    }
    Ok(protocols)
}

/// The value of `alpn` that the token of a line spells, where there is one. Any error but `NoMemory` says that there is
/// none.
fn alpn_in(alloc: Global, line: &[u8]) -> Result<Option<Alpn>, ScanError>
    ensures { ReadsAs (λ found. found) result (option_map Some (alpn_line line.now)) }
{
    let token = lone_token(alloc, line)?;
    Alpn::value_from_scan_octets(alloc, SvcParamKey::ALPN, token.as_slice())
}

/// The protocols of a line: none where it is `-`. Fails only with `NoMemory`.
fn protocols_in(alloc: Global, line: &[u8]) -> Result<Option<Vec<Octets>>, NoMemory>
    ensures { IfOk result (λ protocols. option_map (λ found. found.items) protocols
        ≡ none_or protocol_list line.now) }
{
    if says_none(line) {
        return Ok(Some(Vec::new(alloc)));
    }
    match alpn_in(alloc, line) {
        Ok(Some(alpn)) => Ok(Some(copies(alloc, &alpn)?)),
        Ok(None) => Ok(None),
        Err(ScanError::NoMemory) => Err(NoMemory),
        Err(_) => Ok(None),
    }
}

/// Reads the next line, which is the third, as protocols. `Fault` says that it is missing or bad.
pub fn defaults_line(alloc: Global, input: &mut Lines<'_>) -> Result<Vec<Octets>, SpellError>
    ensures value { SpellsAs (λ found. found.items) result
        (line_or_fault 3 (option_and_then (none_or protocol_list) (slice_get input.old 0))) }
    ensures rest { input.new ≡ drop 1 input.old }
{
    let line = input.next().ok_or(InputFault::BadLine(3))?;
    let protocols = protocols_in(alloc, line)?;
    Ok(protocols.ok_or(InputFault::BadLine(3))?)
}
