//! The lines of an input of `edit` that push what the text of a parameter spells.
ghost use Rattle.std.specs.Prelude.{◌≡◌, IfOk};
ghost use Rattle.std.specs.Option.{option_map};
ghost use Rattle.svcb_text.specs.AllValues.{value_of};
ghost use Rattle.input_lines.specs.Tokens.{ReadsAs};
ghost use Rattle.edit_program.specs.TokenPushes.{token_push};

use input_lines::tokens::lone_token;
use std::alloc::Global;
use svcb_rdata::AllValues;
use svcb_text::scan_param;
use text_spec::ScanError;
use wire_base::NoMemory;

/// The value that the token of a line spells.
fn token_value(alloc: Global, line: &[u8]) -> Result<AllValues, ScanError>
    ensures { ReadsAs value_of result (token_push line.now) }
{
    let octets = lone_token(alloc, line)?;
    scan_param(alloc, octets.as_slice())
}

/// Reads the text of a parameter, as `port=53`, in an entry of one token. Fails only with `NoMemory`.
pub fn token_param(alloc: Global, line: &[u8]) -> Result<Option<AllValues>, NoMemory>
    ensures { IfOk result (λ push. option_map value_of push ≡ token_push line.now) }
{
    match token_value(alloc, line) {
        Ok(value) => Ok(Some(value)),
        Err(ScanError::NoMemory) => Err(NoMemory),
        Err(_) => Ok(None),
    }
}
