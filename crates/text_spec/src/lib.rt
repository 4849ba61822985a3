//! What the text of one entry of a zone file means, and how documents are laid out: definitions, and the laws that hold
//! of them.
//!
//! The definitions stand in `specs/`. They speak of whole numbers and lists of octets; a text is its octets.
#![tactic(auto)]

mod display_kind;
mod encodings;
mod errors;
pub mod laws;
mod lexeme;

pub use display_kind::DisplayKind;
pub use encodings::{decode_base16, decode_base64};
pub use errors::ScanError;
pub use lexeme::{Lexeme, LexerState, LexerStep, Symbol};
