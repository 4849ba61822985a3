//! The trait of what is laid out as a document.

ghost use Rattle.std.specs.Prelude.{◌≡◌, List, IfOk};
ghost use Rattle.text_spec.specs.declared.lexeme.Symbol.{Symbol};
ghost use Rattle.text_spec.specs.Pieces.{HasTokens};
ghost use Rattle.text_spec.specs.Layouts.{Item, laid_out_text, IsDocument, AreTokenTexts};
ghost use Rattle.dns_text.specs.Writing.{Shows};

use crate::formatter::Formatter;
use std::alloc::Global;
use text_spec::DisplayKind;
use wire_base::{Name, NoMemory, Octets};

/// A value with a text in zone files, laid out item by item.
///
/// A type of another crate is such a value too: it says by `document` which items a value has, lays them out in
/// `fmt_zone`, and proves that they are a document: each block that is begun is ended, and no comment has a line feed.
pub trait ZonefileFmt {
    /// The items of a value.
    ghost document: { Self → List Item };

    /// Lays out the value.
    ///
    /// `NoMemory`: an allocation failed; a prefix of the items may have been laid out.
    fn fmt_zone(&self, f: &mut Formatter) -> Result<(), NoMemory>
        ensures { Shows f.old (document self.now) f.new result };

    /// The items are a document.
    ghost is_document: { (value : Self) → IsDocument (document value) };
}

/// The text of a value in a layout of that kind.
///
/// `NoMemory`: an allocation failed.
pub fn display_zonefile<T: ZonefileFmt>(
    alloc: Global,
    value: &T,
    kind: DisplayKind,
) -> Result<Octets, NoMemory>
    ensures text { IfOk result (λ text. text ≡ laid_out_text kind (T.document value.now)) }

    // Where each token's text is wholly that of one token, the text has exactly the document's tokens.
    ensures splits { IfOk result (λ text. (tokens : List (List Symbol))
        → AreTokenTexts (T.document value.now) tokens → HasTokens text tokens) }
{
    let mut f = Formatter::new(alloc, kind);
    value.fmt_zone(&mut f)?;
    Ok(f.finish())
}

/// A token: the name with its final dot.
impl ZonefileFmt for Name {
    ghost use Rattle.std.specs.Prelude.{[], ◌∷◌};
    ghost use Rattle.name_spec.specs.Printed.{printed_name_with_dot};
    ghost use Rattle.text_spec.specs.Layouts.{Token};
    ghost use Rattle.text_spec.specs.LayoutLaws.{document-tokens};

    ghost document = { λ name. Token (printed_name_with_dot name) ∷ [] };

    ghost is_document = { λ name. document-tokens (printed_name_with_dot name ∷ []) };

    fn fmt_zone(&self, f: &mut Formatter) -> Result<(), NoMemory> {
        f.write_name(self)
    }
}
