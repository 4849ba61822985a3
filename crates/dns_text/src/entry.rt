//! The text of one entry.

ghost use Rattle.std.specs.Prelude.{◌≡◌, ◌<◌, ◌^◌, length, MatchResult, None, Some, OnOk, IsOk, IfErr, IsErrOf};
ghost use Rattle.text_spec.specs.Pieces.{HasTokens, HasFault};
ghost use Rattle.text_spec.specs.Tokens.{text_fault, tokens_in};

use crate::lexer::Lexer;
use text_spec::ScanError;

/// The text of one entry, which is read without a fault (RFC 1035, section 5.1, without owner, class and TTL).
///
/// The text is octets, in this grammar:
///
/// - Space, tab and carriage return separate tokens, and so does a line's end (LF) within brackets.
/// - `(` and `)` separate tokens too. Brackets may be nested, and a line's end within them doesn't end the entry.
/// - `;` begins a comment, which goes on to the line's end or the text's and doesn't take the line's end.
/// - A token is a row of symbols and of strings in double quotes, with nothing between them. Quotes give no symbols, so
///   `""` is a token of no octets.
/// - A symbol is an octet that stands for itself, which all others do, those from 0x80 on too; in quotes, spaces, tabs,
///   brackets and `;` as well.
/// - A backslash and three decimal digits of at most 255 are the octet of that number. A backslash and another octet
///   from space to `~`, no digit, are that octet. Both are escaped symbols, in quotes as outside.
/// - Behind the line's end outside brackets, which ends the entry, stand blanks, line ends and comments alone.
#[derive(Clone, Copy, Debug)]
pub struct Entry<'t> {
    /// The octets of the text.
    pub text: &'t [u8],
    ghost checked: { text_fault text.now ≡ None },
    ghost short: { length text.now < 2 ^ 64 },
}

impl<'t> Entry<'t> {
    /// Reads a text once from left to right, and tests that it has no fault. It allocates nothing.
    ///
    /// A refusal is the first fault of the text, in the order in which it is read:
    ///
    /// - `BadSymbol`: a control octet (0x00 to 0x1F, 0x7F) that is no tab, carriage return or line's end; in quotes,
    ///   any that is no tab.
    /// - `BadEscape`: a backslash with no escape behind it: at the text's end, before an octet outside space to `~`,
    ///   before fewer than three digits, and before three of more than 255.
    /// - `OpenQuote`: the text ends in quotes.
    /// - `BadBracket`: a `)` outside brackets, or the text ends within brackets.
    /// - `TrailingTokens`: behind the line's end that ends the entry stands something else than blanks, line ends and
    ///   comments.
    pub fn from_text(text: &'t [u8]) -> Result<Entry<'t>, ScanError>
        ensures answer { MatchResult result (λ entry. entry.text.now ≡ text.now)
            (λ fault. text_fault text.now ≡ Some fault) }

        // What is read has these tokens, and a text that has tokens is read and has no others.
        ensures tokens { OnOk result (HasTokens text.now (tokens_in text.now)) }
        ensures only { (tokens : _) → HasTokens text.now tokens
            → IsOk result × (tokens_in text.now ≡ tokens) }

        // A refused text has the fault, and a text that has a fault is refused with it.
        ensures fault { IfErr result (λ fault. HasFault 0 text.now fault) }
        ensures refused { (fault : _) → HasFault 0 text.now fault → IsErrOf result fault }
    {
        let mut lexer = Lexer::new(text);
        loop {
            lexer.take_bare();
            if lexer.next()?.is_none() {
                return Ok(Entry { text });
            }
        }
    }
}
