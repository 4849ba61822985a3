//! Names in text (RFC 1035, section 5.1).

ghost use Rattle.std.specs.Prelude.{◌≡◌, ◌<◌, ◌≤◌, ◌++◌, ◌∷◌, length, drop, None, OnOk, IfErr, IsErrOf};
ghost use Rattle.text_spec.specs.NameTexts.{is_bare_octet, is_lone};
ghost use Rattle.text_spec.specs.Scanning.{Answers, octets_of};
ghost use Rattle.dns_text.specs.Labels.{label_len, wire_of};
ghost use Rattle.text_spec.specs.Rows.{by_name};
ghost use Rattle.text_spec.specs.Tokens.{text_fault};
ghost use Rattle.dns_text.specs.NameInText.{name_in_text};

use crate::entry_scanner::EntryScanner;
use crate::scanner::Scanner;
use std::alloc::Global;
use text_spec::{ScanError, Symbol};
use wire_base::{Name, Octets};

/// The most octets of a label (RFC 1035, section 2.3.4).
const MAX_LABEL_LEN: usize = 63;

/// The most octets of a name's labels with their lengths, without the root (RFC 1035, section 2.3.4). A name text has
/// no more symbols than that: each stands for an octet of a label or, as a dot, for a label's length.
const MAX_LABEL_OCTETS: usize = 254;

/// The name that a text spells: the text of an entry with one token, as [`Entry`](crate::Entry) has it. A final dot may
/// be left out (RFC 1035, section 5.1, where every name is taken as absolute).
///
/// A fault of the text comes first, as [`Entry::from_text`](crate::Entry::from_text) tells it. Then `EndOfEntry`: it has
/// no token. `BadName`: the first token is no name text, as [`Scanner::scan_name`] reads it. `TrailingTokens`: another
/// token stands behind it. `NoMemory`: an allocation failed, which the text of an entry alone asks for.
pub fn name_from_text(alloc: Global, text: &[u8]) -> Result<Name, ScanError>
    ensures answer { Answers (λ name. name) result (name_in_text text.now) }
    ensures memory { IsErrOf result ScanError.NoMemory → text_fault text.now ≡ None }
{
    let mut scanner = EntryScanner::from_text(text)?;
    let name = scanner.scan_name(alloc)?;
    scanner.check_end()?;
    Ok(name)
}

/// The name that a token spells.
///
/// `BadName`: the token is no name text. `NoMemory`: an allocation failed.
pub(crate) fn read_name(alloc: Global, token: &[Symbol]) -> Result<Name, ScanError>
    ensures { Answers (λ name. name) result (by_name token.now) }
{
    if is_lone(b'.', token) {
        return Ok(Name::root(alloc)?);
    }
    if token.is_empty() || is_lone(b'@', token) {
        return Err(ScanError::BadName);
    }
    if token.len() > MAX_LABEL_OCTETS {
        return Err(ScanError::BadName);
    }
    let octets = write_labels(alloc, token)?;
    match Name::from_octets(octets) {
        Ok(name) => Ok(name),
        Err(_) => unreachable!(),
    }
}

/// Whether a symbol is this octet, not escaped.
fn is_bare_octet(octet: u8, symbol: Symbol) -> bool
    ensures { result ≡ is_bare_octet octet symbol }
{
    !symbol.escaped && symbol.octet == octet
}

/// Whether a token is this one octet, not escaped.
fn is_lone(octet: u8, token: &[Symbol]) -> bool
    ensures { result ≡ is_lone octet token.now }
{
    match token {
        [symbol] => is_bare_octet(octet, *symbol),
        _ => false,
    }
}

/// How many symbols stand before the first dot that isn't escaped.
#[tactic(auto, using(crate::proofs::NameTexts::symbol_rules))]
fn label_len(symbols: &[Symbol]) -> usize
    ensures len { result ≡ label_len symbols.now }
    ensures within { result ≤ length symbols.now }
{
    for (i, symbol) in symbols.iter().enumerate() {
        if is_bare_octet(b'.', *symbol) {
            return i;
        }
    }
    symbols.len()
}

/// The octets of the name whose labels symbols spell: each label behind its length, then 0.
fn write_labels(alloc: Global, token: &[Symbol]) -> Result<Octets, ScanError>
    requires { length token.now ≤ 254 }
    ensures { Answers (λ octets. octets) result (wire_of token.now) }
{
    let mut octets = Vec::with_capacity(alloc, token.len() + 2)?;
    let mut symbols = token;
    while !symbols.is_empty() {
        let len = label_len(symbols);
        if len == 0 || len > MAX_LABEL_LEN || octets.len() + len + 1 > MAX_LABEL_OCTETS {
            return Err(ScanError::BadName);
        }
        push_label(&mut octets, &symbols[..len])?;
        symbols = skip_symbols(symbols, len + 1);
    }
    octets.push(0)?;
    Ok(Octets::from_vec(octets))
}

/// The symbols behind the first so many; none where there are fewer.
fn skip_symbols(symbols: &[Symbol], count: usize) -> &[Symbol]
    ensures { result.now ≡ drop count symbols.now }
{
    symbols.get(count..).unwrap_or(&[])
}

/// Appends a label behind its length.
fn push_label(octets: &mut Vec<u8>, label: &[Symbol]) -> Result<(), ScanError>
    requires { length label.now < 64 }
    ensures ok { OnOk result (octets.new.items
        ≡ octets.old.items ++ length label.now ∷ octets_of label.now) }
    ensures err { IfErr result (λ error. error ≡ ScanError.NoMemory) }
{
    octets.push(label.len() as u8)?;
    for symbol in label {
        octets.push(symbol.octet)?;
    }
    Ok(())
}
