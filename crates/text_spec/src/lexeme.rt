//! What a text is made of.

/// An octet of a token, and whether it was written behind a backslash.
#[derive(Clone, Copy, Debug, PartialEq, Eq)]
pub struct Symbol {
    /// The octet that the symbol stands for.
    pub octet: u8,
    /// Whether a backslash stands before it.
    pub escaped: bool,
}

/// What a text is made of, seen from its tokens.
#[derive(Clone, Copy, Debug, PartialEq, Eq)]
pub enum Lexeme {
    /// A symbol of a token.
    Octet(Symbol),
    /// A quote, which is part of a token and gives no symbol.
    Quote,
    /// A blank, a line's end, a comment or a bracket.
    Gap,
}

/// What the lexer keeps of the text that it has read.
#[derive(Clone, Copy, Debug, PartialEq, Eq)]
pub struct LexerState {
    /// How many brackets are open.
    pub depth: usize,
    /// Whether a quote is open.
    pub quoted: bool,
    /// Whether the line's end that ends the entry was passed.
    pub ended: bool,
}

/// One step of the lexer: what stands at the beginning of the text that is left.
#[derive(Clone, Copy, Debug, PartialEq, Eq)]
pub struct LexerStep {
    /// The lexeme that stands there.
    pub lexeme: Lexeme,
    /// The state behind the lexeme.
    pub state: LexerState,
    /// How many octets the lexeme has behind its first.
    pub len: usize,
}
