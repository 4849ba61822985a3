//! The kinds of layouts.

/// How a document is laid out.
#[derive(Clone, Copy, Debug, PartialEq, Eq)]
pub enum DisplayKind {
    /// On one line, with a space between two tokens.
    Simple,
    /// On one line, with a tab between two tokens.
    Tabbed,
    /// Blocks stand in brackets, and a comment ends its line.
    Multiline,
}
