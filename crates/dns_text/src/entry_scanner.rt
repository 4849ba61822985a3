//! The scanner of one entry.

ghost use Rattle.std.specs.Prelude.{◌≡◌, ◌≢◌, ◌≤◌, ◌<◌, ◌+◌, ◌==◌, ◌&&◌, [], Ok, Some, None, length, drop, IfOk, IfErr, OnOk, OnErr, MatchResult};
ghost use Rattle.text_spec.specs.Pieces.{token_groups};
ghost use Rattle.text_spec.specs.Tokens.{text_fault, tokens_in};
ghost use Rattle.text_spec.specs.Scanning.{Answers, next_token, any_octets};
ghost use Rattle.dns_text.specs.Reading.{IsBehindNext};

use crate::entry::Entry;
use crate::lexemes::Lexemes;
use crate::scanner::Scanner;
use std::alloc::Global;
use std::marker::Model;
use text_spec::{ScanError, Symbol};
use wire_base::Octets;

// The escaped symbol `#`, which is a marker where it is a token of its own.
fn is_marker(symbol: Symbol) -> bool
    ensures { result ≡ (symbol.escaped && (symbol.octet == 35)) }
{
    symbol.escaped && symbol.octet == b'#'
}

/// Takes the tokens of an entry from its text, which it reads as it goes.
#[derive(Debug, Drop)]
pub struct EntryScanner<'t> {
    entry: Entry<'t>,
    // From the next token on, if there is one.
    lexemes: Lexemes<'t>,
    has_next: bool,
    taken: usize,
}

impl<'t> Model for EntryScanner<'t> {
    ghost use Rattle.std.specs.Prelude.{◌≡◌, ◌≤◌, ◌<◌, ◌^◌, length, drop, None, [], MatchBool};
    ghost use Rattle.text_spec.specs.Pieces.{token_groups};
    ghost use Rattle.text_spec.specs.Tokens.{tokens_in};
    ghost use Rattle.text_spec.specs.Scanning.{Scan};
    ghost use Rattle.dns_text.specs.Reading.{BeginsToken};

    ghost Value = { Scan };

    ghost view = { λ scanner. record {
      tokens = tokens_in scanner.entry.text.now;
      taken = scanner.taken;
    } };

    ghost invariant = { λ scanner. record {
      left : token_groups None scanner.lexemes
          ≡ drop scanner.taken (tokens_in scanner.entry.text.now);
      next : MatchBool scanner.has_next (BeginsToken scanner.lexemes) (scanner.lexemes ≡ []);
      within : scanner.taken ≤ length (tokens_in scanner.entry.text.now);
      short : length (tokens_in scanner.entry.text.now) < 2 ^ 64;
    } };
}

impl<'t> EntryScanner<'t> {
    /// A scanner of an entry's tokens, of which none is taken. It allocates nothing.
    pub fn new(entry: Entry<'t>) -> EntryScanner<'t>
        ensures { result ≡ record { tokens = tokens_in entry.entry.text.now; taken = 0 } }
    {
        let mut lexemes = Lexemes::new(entry);
        let has_next = lexemes.find_token();
        EntryScanner {
            entry,
            lexemes,
            has_next,
            taken: 0,
        }
    }

    /// A scanner of the tokens of a text that is one entry, of which none is taken. It allocates nothing.
    ///
    /// A refusal is the first fault of the text, as [`Entry::from_text`] tells it, and never `NoMemory`.
    pub fn from_text(text: &'t [u8]) -> Result<EntryScanner<'t>, ScanError>
        ensures answer { MatchResult result
            (λ scanner. scanner ≡ record { tokens = tokens_in text.now; taken = 0 })
            (λ fault. text_fault text.now ≡ Some fault) }
        ensures sound { OnOk result (text_fault text.now ≡ None) }
        ensures memory { IfErr result (λ fault. fault ≢ ScanError.NoMemory) }
    {
        Ok(EntryScanner::new(Entry::from_text(text)?))
    }

    // The lexemes from the next token on.
    fn next_token(&self) -> Result<Lexemes<'t>, ScanError>
        ensures left { IfOk result (λ lexemes.
            token_groups (Some []) lexemes ≡ drop self.now.taken self.now.tokens) }
        ensures more { OnOk result (self.now.taken < length self.now.tokens) }
        ensures end { OnErr result (length self.now.tokens ≤ self.now.taken) }
        ensures err { IfErr result (λ fault. fault ≡ ScanError.EndOfEntry) }
    {
        if !self.has_next {
            return Err(ScanError::EndOfEntry);
        }
        Ok(self.lexemes.copy())
    }

    // The next token's symbols, and the lexemes behind it.
    fn peek(&self, alloc: Global) -> Result<(Vec<Symbol>, Lexemes<'t>), ScanError>
        ensures answer { Answers (λ found. found.0.items) result
            (next_token Ok self.now.tokens self.now.taken) }
        ensures behind { IfOk result (λ found.
            IsBehindNext self.now (token_groups None found.1)) }
    {
        let mut lexemes = self.next_token()?;
        let mut symbols = Vec::new(alloc);
        while let Some(symbol) = lexemes.next_symbol() {
            symbols.push(symbol)?;
        }
        Ok((symbols, lexemes))
    }

    // The next token's octets, and the lexemes behind it.
    fn peek_octets(&self, alloc: Global) -> Result<(Octets, Lexemes<'t>), ScanError>
        ensures answer { Answers (λ found. found.0) result
            (next_token any_octets self.now.tokens self.now.taken) }
        ensures behind { IfOk result (λ found.
            IsBehindNext self.now (token_groups None found.1)) }
    {
        let mut lexemes = self.next_token()?;
        let mut octets = Vec::new(alloc);
        lexemes.append_token(&mut octets)?;
        Ok((Octets::from_vec(octets), lexemes))
    }

    // Takes the next token, behind which these lexemes are left.
    fn take(&mut self, behind: Lexemes<'t>)
        requires { IsBehindNext self.old (token_groups None behind) }
        ensures { self.new ≡ record self.old { taken = self.old.taken + 1 } }
    {
        let mut lexemes = behind;
        self.has_next = lexemes.find_token();
        self.lexemes = lexemes;
        self.taken += 1;
    }
}

impl<'t> Scanner for EntryScanner<'t> {
    ghost scan = { λ scanner. scanner };

    fn continues(&self) -> bool {
        self.next_token().is_ok()
    }

    fn taken(&self) -> usize {
        self.taken
    }

    // Reads the entry again from its start.
    fn go_back(&mut self, taken: usize) {
        let mut lexemes = Lexemes::new(self.entry);
        for _ in 0..taken {
            lexemes.pass_token();
        }
        self.has_next = lexemes.find_token();
        self.lexemes = lexemes;
        self.taken = taken;
    }

    fn scan_symbols(&mut self, alloc: Global) -> Result<Vec<Symbol>, ScanError> {
        let (symbols, behind) = self.peek(alloc)?;
        self.take(behind);
        Ok(symbols)
    }

    // No symbols are collected.
    fn scan_octets(&mut self, alloc: Global) -> Result<Octets, ScanError> {
        let (octets, behind) = self.peek_octets(alloc)?;
        self.take(behind);
        Ok(octets)
    }

    // All tokens go into one buffer.
    fn scan_rest(&mut self, alloc: Global) -> Result<Octets, ScanError> {
        let mut lexemes = self.lexemes.copy();
        let mut octets = Vec::new(alloc);
        let mut taken = self.taken;
        while lexemes.find_token() {
            lexemes.append_token(&mut octets)?;
            taken += 1;
        }
        self.lexemes = lexemes;
        self.has_next = false;
        self.taken = taken;
        Ok(Octets::from_vec(octets))
    }

    fn scan_opt_unknown_marker(&mut self) -> bool {
        let Ok(mut lexemes) = self.next_token() else {
            return false;
        };
        let Some(symbol) = lexemes.next_symbol() else {
            return false;
        };
        if !is_marker(symbol) {
            return false;
        }
        if lexemes.next_symbol().is_some() {
            return false;
        }
        self.take(lexemes);
        true
    }
}
