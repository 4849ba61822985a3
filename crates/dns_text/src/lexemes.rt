//! The lexemes of an entry, which its tokens are made of.

ghost use Rattle.std.specs.Prelude.{◌≡◌, ◌≤◌, ◌<◌, [], ◌∷◌, length, drop, None, IsSome, MatchOption, MatchBool, OnOk, IfErr};
ghost use Rattle.text_spec.specs.Pieces.{token_groups};
ghost use Rattle.text_spec.specs.Tokens.{tokens_in};
ghost use Rattle.dns_text.specs.Reading.{AppendsToken, BeginsToken, GoesOn, GoesOnWith};

use crate::entry::Entry;
use crate::lexer::Lexer;
use std::marker::Model;
use text_spec::{Lexeme, ScanError, Symbol};

/// The lexemes of an entry that are left.
#[derive(Debug, Drop)]
pub(crate) struct Lexemes<'t> {
    lexer: Lexer<'t>,
}

impl<'t> Model for Lexemes<'t> {
    ghost use Rattle.std.specs.Prelude.{◌≡◌, List, None};
    ghost use Rattle.text_spec.specs.declared.lexeme.Lexeme.{Lexeme};
    ghost use Rattle.text_spec.specs.Lexing.{lexemes_at};
    ghost use Rattle.text_spec.specs.Tokens.{fault_of, found_in};

    ghost Value = { List Lexeme };

    ghost view = { λ lexemes. found_in
        (lexemes_at lexemes.lexer.state 0 lexemes.lexer.rest.now) };

    ghost invariant = { λ lexemes.
        fault_of (lexemes_at lexemes.lexer.state 0 lexemes.lexer.rest.now) ≡ None };
}

impl<'t> Lexemes<'t> {
    pub(crate) fn new(entry: Entry<'t>) -> Lexemes<'t>
        ensures { token_groups None result ≡ tokens_in entry.entry.text.now }
    {
        Lexemes {
            lexer: Lexer::new(entry.text),
        }
    }

    pub(crate) fn copy(&self) -> Lexemes<'t>
        ensures { result ≡ self.now }
    {
        Lexemes { lexer: self.lexer }
    }

    #[inline(always)]
    fn next(&mut self) -> Option<Lexeme>
        ensures { MatchOption result ((self.old ≡ []) × (self.new ≡ []))
            (λ lexeme. self.old ≡ lexeme ∷ self.new) }
    {
        match self.lexer.next() {
            Ok(lexeme) => lexeme,
            Err(_) => unreachable!(),
        }
    }

    /// Goes on to the next token, and says whether there is one.
    pub(crate) fn find_token(&mut self) -> bool
        ensures tokens { token_groups None self.new ≡ token_groups None self.old }
        ensures found { MatchBool result (BeginsToken self.new) (self.new ≡ []) }
        ensures no_longer { length self.new ≤ length self.old }
    {
        loop {
            let mut ahead = self.copy();
            match ahead.next() {
                None => return false,
                Some(Lexeme::Gap) => *self = ahead,
                Some(_) => return true,
            }
        }
    }

    /// Takes the octets in front that stand for themselves, of a token that is read.
    fn take_bare(&mut self) -> &'t [u8]
        ensures symbols { GoesOnWith result.now self.old self.new }
        ensures no_longer { length self.new ≤ length self.old }
    {
        self.lexer.take_bare()
    }

    /// The next symbol of a token, or none where it ends.
    #[inline(always)]
    pub(crate) fn next_symbol(&mut self) -> Option<Symbol>
        ensures symbol { GoesOn result self.old self.new }
        ensures shorter { IsSome result → length self.new < length self.old }
    {
        loop {
            match self.next() {
                Some(Lexeme::Octet(symbol)) => return Some(symbol),
                Some(Lexeme::Quote) => {}
                Some(Lexeme::Gap) | None => return None,
            }
        }
    }

    /// Appends the octets of the token that is read, and passes over it.
    pub(crate) fn append_token(&mut self, target: &mut Vec<u8>) -> Result<(), ScanError>
        ensures ok { OnOk result
            (AppendsToken self.old self.new target.old.items target.new.items) }
        ensures err { IfErr result (λ fault. fault ≡ ScanError.NoMemory) }
    {
        loop {
            target.extend_from_slice(self.take_bare())?;
            let Some(symbol) = self.next_symbol() else {
                return Ok(());
            };
            target.push(symbol.octet)?;
        }
    }

    /// Passes over the next token.
    pub(crate) fn pass_token(&mut self)
        ensures { token_groups None self.new ≡ drop 1 (token_groups None self.old) }
    {
        if self.find_token() {
            while self.next_symbol().is_some() {}
        }
    }
}
