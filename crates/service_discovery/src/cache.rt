//! Records that are kept as text.

ghost use Rattle.std.specs.Prelude.{◌≡◌, List, IfOk, IfErr};
ghost use Rattle.text_spec.specs.declared.lexeme.Symbol.{Symbol};
ghost use Rattle.text_spec.specs.Pieces.{HasTokens};

use hollywhist::base::scan::{Entry, EntryScanner, ScanError};
use hollywhist::laws::data_texts::data_text_read_back;
use hollywhist::laws::svcb_data::made_of_octets;
use hollywhist::rdata::svcb::Https;
use std::alloc::Global;

/// A record as a cache gives it back that keeps the text of its zone file entry: the same record, or allocation fails.
/// The contract rests on two laws, which the body calls: they do nothing when it runs.
#[tactic(auto, using(text_spec::specs::ScanningLaws::answered, text_spec::specs::ScanningLaws::no_other_error))]
pub fn there_and_back(alloc: Global, record: &Https) -> Result<Https, ScanError>
    ensures same { IfOk result (λ back. back ≡ record.now) }
    ensures only { IfErr result (λ fault. fault ≡ ScanError.NoMemory) }
{
    made_of_octets(record);
    data_text_read_back();
    let text = format!(in alloc; "{record}")?;
    Https::scan(alloc, &mut scanner_of(text.as_bytes()))
}

/// A scanner of the tokens of a text that has some, so that it isn't refused.
fn scanner_of(text: &[u8]) -> EntryScanner<'_>
    requires { (tokens : List (List Symbol)) × HasTokens text.now tokens }
    ensures tokens { HasTokens text.now result.tokens }
    ensures taken { result.taken ≡ 0 }
{
    match Entry::from_text(text) {
        Ok(entry) => EntryScanner::new(entry),
        Err(_) => unreachable!(),
    }
}
