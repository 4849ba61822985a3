//! Reading the text of one entry from left to right.

ghost use Rattle.std.specs.Prelude.{◌≡◌, ◌==◌, ◌&&◌, ◌||◌, not, false, ◌+◌, ◌^◌, ◌≤◌, ◌<◌, [], length, take, drop, IsSome, IfSome, IfOk, MatchResult};
ghost use Rattle.text_spec.specs.Pieces.{is_bare, is_blank, is_control};
ghost use Rattle.text_spec.specs.Lexing.{escape_of, line_len, step_of, with_depth, in_quotes, symbol_step, quoted_step, ended_step, open_step, step, lexemes_at, end_at};
ghost use Rattle.text_spec.specs.Tokens.{start};
ghost use Rattle.std.specs.List.{prefix_len};
ghost use Rattle.dns_text.specs.Reading.{StaysWithin, Takes, with_bare};

use crate::plain_octets::{bare_len, is_bare, quotable_len};
use text_spec::{Lexeme, LexerState, LexerStep, ScanError, Symbol};

const START: LexerState = LexerState {
    depth: 0,
    quoted: false,
    ended: false,
};

// The octet that an escape stands for, and how many octets it has behind the backslash.
fn escape(rest: &[u8]) -> Option<(u8, usize)>
    ensures value { result ≡ escape_of rest.now }
    ensures within { IfSome result (λ escape. escape.1 ≤ length rest.now) }
{
    match rest {
        [a, b, c, ..] if a.is_ascii_digit() => {
            if !b.is_ascii_digit() || !c.is_ascii_digit() {
                return None;
            }
            let number = u16::from(*a - b'0') * 100
                + u16::from(*b - b'0') * 10
                + u16::from(*c - b'0');
            let octet = u8::try_from(number).ok()?;
            Some((octet, 3))
        }
        [a, ..] if !a.is_ascii_digit() && *a >= 32 && *a <= 126 => Some((*a, 1)),
        _ => None,
    }
}

// How many octets stand before the line's end.
fn line_length(rest: &[u8]) -> usize
    ensures length { result ≡ line_len rest.now }
    ensures within { result ≤ length rest.now }
{
    rest.iter().take_while(|octet| **octet != b'\n').count()
}

fn is_blank(octet: u8) -> bool
    ensures { result ≡ is_blank octet }
{
    octet == b' ' || octet == b'\t' || octet == b'\r'
}

fn is_control(octet: u8) -> bool
    ensures { result ≡ is_control octet }
{
    octet < 32 || octet == 127
}

// An octet that stands for itself.
#[inline(always)]
fn bare(octet: u8) -> Lexeme
    ensures { result ≡ Lexeme.Octet (record { octet = octet; escaped = false }) }
{
    Lexeme::Octet(Symbol {
        octet,
        escaped: false,
    })
}

fn gap(state: LexerState, len: usize) -> Result<LexerStep, ScanError>
    ensures { result ≡ step_of Lexeme.Gap state len }
{
    Ok(LexerStep {
        lexeme: Lexeme::Gap,
        state,
        len,
    })
}

// A line's end in the entry, which ends it outside brackets.
fn line_end(state: LexerState) -> Result<LexerStep, ScanError>
    ensures { result ≡ step_of Lexeme.Gap (record state { ended = state.depth == 0 }) 0 }
{
    let ended = state.depth == 0;
    gap(LexerState { ended, ..state }, 0)
}

fn bracket(state: LexerState, depth: usize) -> Result<LexerStep, ScanError>
    ensures { result ≡ step_of Lexeme.Gap (with_depth state depth) 0 }
{
    gap(LexerState { depth, ..state }, 0)
}

fn quote(state: LexerState, quoted: bool) -> Result<LexerStep, ScanError>
    ensures { result ≡ step_of Lexeme.Quote (in_quotes state quoted) 0 }
{
    Ok(LexerStep {
        lexeme: Lexeme::Quote,
        state: LexerState { quoted, ..state },
        len: 0,
    })
}

fn read_symbol(state: LexerState, first: u8, rest: &[u8]) -> Result<LexerStep, ScanError>
    ensures value { result ≡ symbol_step state first rest.now }
    ensures within { StaysWithin state rest.now result }
{
    let (octet, escaped, len) = if first == b'\\' {
        let (octet, len) = escape(rest).ok_or(ScanError::BadEscape)?;
        (octet, true, len)
    } else {
        (first, false, 0)
    };
    Ok(LexerStep {
        lexeme: Lexeme::Octet(Symbol { octet, escaped }),
        state,
        len,
    })
}

// Within quotes, a line's end is no octet of a string, and a tab is.
fn quoted_step(state: LexerState, first: u8, rest: &[u8]) -> Result<LexerStep, ScanError>
    ensures value { result ≡ quoted_step state first rest.now }
    ensures within { StaysWithin state rest.now result }
{
    match first {
        b'"' => quote(state, false),
        b'\t' => read_symbol(state, first, rest),
        _ if is_control(first) => Err(ScanError::BadSymbol),
        _ => read_symbol(state, first, rest),
    }
}

// Behind the line's end that ends the entry.
fn ended_step(state: LexerState, first: u8, rest: &[u8]) -> Result<LexerStep, ScanError>
    ensures value { result ≡ ended_step state first rest.now }
    ensures within { StaysWithin state rest.now result }
{
    if is_blank(first) || first == b'\n' {
        gap(state, 0)
    } else if first == b';' {
        gap(state, line_length(rest))
    } else {
        Err(ScanError::TrailingTokens)
    }
}

// In the entry, outside quotes.
fn open_step(state: LexerState, first: u8, rest: &[u8]) -> Result<LexerStep, ScanError>
    requires { state.depth + 1 < 2 ^ 64 }
    ensures value { result ≡ open_step state first rest.now }
    ensures within { StaysWithin state rest.now result }
{
    let depth = state.depth;
    match first {
        b'\n' => line_end(state),
        b';' => gap(state, line_length(rest)),
        b'(' => bracket(state, depth + 1),
        b')' if depth == 0 => Err(ScanError::BadBracket),
        b')' => bracket(state, depth - 1),
        b'"' => quote(state, true),
        _ if is_blank(first) => gap(state, 0),
        _ if is_control(first) => Err(ScanError::BadSymbol),
        _ => read_symbol(state, first, rest),
    }
}

// Whether an octet stands for itself here, as it does in quotes and outside.
#[inline(always)]
fn is_bare_at(state: LexerState, octet: u8) -> bool
    ensures { result ≡ ((state.quoted || not state.ended) && is_bare octet) }
{
    (state.quoted || !state.ended) && is_bare(octet)
}

// How many octets in front are read as themselves here.
fn bare_len_at(state: LexerState, text: &[u8]) -> usize
    ensures read { lexemes_at state 0 text.now
        ≡ with_bare (take result text.now) (lexemes_at state 0 (drop result text.now)) }
    ensures within { result ≤ length text.now }
{
    if state.quoted {
        quotable_len(text)
    } else if state.ended {
        0
    } else {
        bare_len(text)
    }
}

// Not inlined, so that the short way of `Lexer::next` stays small.
#[inline(never)]
#[tactic(auto, unfolding(text_spec::specs::Lexing::step))]
fn step(state: LexerState, first: u8, rest: &[u8]) -> Result<LexerStep, ScanError>
    requires { state.depth + 1 < 2 ^ 64 }
    ensures value { result ≡ step state first rest.now }
    ensures within { StaysWithin state rest.now result }
{
    if state.quoted {
        quoted_step(state, first, rest)
    } else if state.ended {
        ended_step(state, first, rest)
    } else {
        open_step(state, first, rest)
    }
}

fn end_at(state: LexerState) -> Result<(), ScanError>
    ensures { MatchResult result (λ _. end_at state ≡ Ok []) (λ fault. end_at state ≡ Err fault) }
{
    if state.quoted {
        Err(ScanError::OpenQuote)
    } else if state.depth != 0 {
        Err(ScanError::BadBracket)
    } else {
        Ok(())
    }
}

// A state in a text, from which the lexemes that are left are taken one by one.
#[derive(Clone, Copy, Debug)]
pub(crate) struct Lexer<'t> {
    pub(crate) rest: &'t [u8],
    pub(crate) state: LexerState,
    ghost room: { state.depth + length rest.now < 2 ^ 64 },
}

impl<'t> Lexer<'t> {
    pub(crate) fn new(text: &'t [u8]) -> Lexer<'t>
        ensures rest { result.rest.now ≡ text.now }
        ensures state { result.state ≡ start }
    {
        Lexer {
            rest: text,
            state: START,
        }
    }

    // Takes the octets in front that stand for themselves.
    pub(crate) fn take_bare(&mut self) -> &'t [u8]
        ensures taken { lexemes_at self.old.state 0 self.old.rest.now
            ≡ with_bare result.now (lexemes_at self.new.state 0 self.new.rest.now) }
        ensures no_longer { length self.new.rest.now ≤ length self.old.rest.now }
    {
        let (bare, rest) = self.rest.split_at(bare_len_at(self.state, self.rest));
        self.rest = rest;
        bare
    }

    // The next lexeme, or none at the text's end. Octets that stand for themselves, which most do, are read without a
    // step.
    #[inline(always)]
    pub(crate) fn next(&mut self) -> Result<Option<Lexeme>, ScanError>
        ensures taken { Takes result (lexemes_at self.old.state 0 self.old.rest.now)
            (lexemes_at self.new.state 0 self.new.rest.now) }
        ensures shorter { IfOk result (λ lexeme. IsSome lexeme →
            length self.new.rest.now < length self.old.rest.now) }
    {
        let Some((first, rest)) = self.rest.split_first() else {
            end_at(self.state)?;
            return Ok(None);
        };
        if is_bare_at(self.state, *first) {
            self.rest = rest;
            return Ok(Some(bare(*first)));
        }
        let read = step(self.state, *first, rest)?;
        self.rest = &rest[read.len..];
        self.state = read.state;
        Ok(Some(read.lexeme))
    }
}
