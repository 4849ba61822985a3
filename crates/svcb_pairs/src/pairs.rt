//! Reading service parameters from octets.

ghost use Rattle.std.specs.Prelude.{◌≡◌, ◌<◌, Some, MatchResult, OnOk};
ghost use Rattle.std.specs.Result.{result_err};
ghost use Rattle.svcb_spec.specs.Params.{is_above};
ghost use Rattle.wire_base.specs.Faults.{IsFaultOf};
ghost use Rattle.svcb_pairs.specs.Parameters.{pairs_left, read_pairs, IsParameters};

use wire_base::{ParseError, Parser};

/// Passes over the next parameter, and gives its key. Refused by the first fault.
#[tactic(auto, using(svcb_spec::proofs::PairLaws::pair_rules))]
fn pass_param(parser: &mut Parser<'_>, last: Option<u16>) -> Result<u16, ParseError>
    requires { parser.old.pos < parser.old.end }
    ensures fault { MatchResult result
        (λ key. result_err (pairs_left parser.old last)
        ≡ result_err (pairs_left parser.new (Some key)))
        (λ error. IsFaultOf error (pairs_left parser.old last)) }
    ensures advances { OnOk result (parser.old.pos < parser.new.pos) }
    ensures ok { OnOk result (parser.new ≡ record parser.old { pos = parser.new.pos }) }
{
    let key = parser.parse_u16()?;
    // keys ascend strictly (RFC 9460, section 2.2), which is tested before the length is read
    if last >= Some(key) {
        return Err(ParseError::Form);
    }
    let len = parser.parse_u16()?;
    parser.advance(usize::from(len))?;
    Ok(key)
}

/// Tests whether octets are parameters. Refused by the first fault, and never with `NoMemory`.
pub fn check_params(octets: &[u8]) -> Result<(), ParseError>
    ensures { MatchResult result
        (λ _. IsParameters octets.now)
        (λ error. IsFaultOf error (read_pairs octets.now)) }
{
    let mut parser = Parser::from_ref(octets);
    let mut last = None;
    while parser.remaining() > 0 {
        last = Some(pass_param(&mut parser, last)?);
    }
    Ok(())
}
