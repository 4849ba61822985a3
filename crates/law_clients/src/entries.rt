//! Texts that have tokens.

ghost use Rattle.std.specs.Prelude.{◌≡◌, List};
ghost use Rattle.text_spec.specs.declared.lexeme.Symbol.{Symbol};
ghost use Rattle.text_spec.specs.Pieces.{HasTokens};

use hollywhist::base::scan::{Entry, EntryScanner};

/// A scanner of the tokens of a text that has some, of which none is taken.
pub(crate) fn scanner_of(text: &[u8]) -> EntryScanner<'_>
    requires { (tokens : List (List Symbol)) × HasTokens text.now tokens }
    ensures tokens { HasTokens text.now result.tokens }
    ensures taken { result.taken ≡ 0 }
{
    match Entry::from_text(text) {
        Ok(entry) => EntryScanner::new(entry),
        Err(_) => unreachable!(),
    }
}
