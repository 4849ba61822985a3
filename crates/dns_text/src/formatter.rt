//! Laying out a document, item by item.

ghost use Rattle.std.specs.Prelude.{◌≡◌, ◌<◌, ◌++◌, [], ◌∷◌, OnOk, OnErr, IfOk, IfSome, option_map};
ghost use Rattle.std.specs.String.{string_bytes};
ghost use Rattle.std.specs.Fmt.{decimal};
ghost use Rattle.name_spec.specs.Printed.{printed_name_with_dot};
ghost use Rattle.wire_base.specs.Moving.{AppendsOctets};
ghost use Rattle.registry.specs.Tables.{mnemonic_of};
ghost use Rattle.text_spec.specs.Encodings.{base16_text, base64_text};
ghost use Rattle.text_spec.specs.Layouts.{Token, Comment, BlockBegin, BlockEnd, empty_layout, separator, IsOneLine};
ghost use Rattle.text_spec.specs.Documents.{number_items, number_comment};
ghost use Rattle.dns_text.specs.Writing.{Writes, Shows, with_bracket};

use crate::zonefile::ZonefileFmt;
use base64::engine::general_purpose::STANDARD;
use registry::IanaNumber;
use std::alloc::Global;
use std::fmt::Display;
use std::marker::Model;
use text_spec::DisplayKind;
use wire_base::{Name, NoMemory, Octets};

/// The text of a document that is laid out item by item: tokens, blocks and comments, in one of the kinds of
/// [`DisplayKind`].
///
/// Contracts see the kind, the text so far, the count of open blocks, and whether the last thing written is a comment.
#[derive(Debug, Drop)]
pub struct Formatter {
    kind: DisplayKind,
    text: Vec<u8>,
    blocks: usize,
    after_comment: bool,
}

impl Model for Formatter {
    ghost use Rattle.text_spec.specs.Layouts.{Sheet};

    ghost Value = { Sheet };

    ghost view = { λ f. record {
      kind = f.kind;
      layout = record { text = f.text.items; blocks = f.blocks; after_comment = f.after_comment };
    } };
}

// Appends two pieces, or nothing.
fn append(text: &mut Vec<u8>, first: &[u8], second: &[u8]) -> Result<(), NoMemory>
    ensures { AppendsOctets text.old.items text.new.items (first.now ++ second.now) result }
{
    let len = first.len().checked_add(second.len()).ok_or(NoMemory)?;
    text.reserve(len)?;
    text.extend_from_slice(first)?;
    text.extend_from_slice(second)?;
    Ok(())
}

// The text of a comment that names a number.
fn number_comment(
    alloc: Global,
    name: &str,
    mnemonic: Option<&'static str>,
) -> Result<String, NoMemory>
    ensures { IfOk result (λ text. string_bytes text
        ≡ number_comment name.now (option_map (λ m. m.now) mnemonic.entry)) }
{
    match mnemonic {
        Some(mnemonic) => Ok(format!(in alloc; "{name}: {mnemonic}")?),
        None => Ok(format!(in alloc; "{name}")?),
    }
}

impl Formatter {
    /// The empty layout of that kind.
    pub fn new(alloc: Global, kind: DisplayKind) -> Formatter
        ensures { result ≡ record { kind = kind; layout = empty_layout } }
    {
        Formatter {
            kind,
            text: Vec::new(alloc),
            blocks: 0,
            after_comment: false,
        }
    }

    /// The text.
    pub fn finish(self) -> Octets
        ensures { result ≡ self.layout.text }
    {
        let Formatter { text, .. } = self;
        Octets::from_vec(text)
    }

    // What stands before the next token.
    fn separator(&self) -> &'static [u8]
        ensures { result.now ≡ separator self.now.kind self.now.layout }
    {
        if self.text.is_empty() {
            return b"";
        }
        match self.kind {
            DisplayKind::Simple => b" ",
            DisplayKind::Tabbed => b"\t",
            DisplayKind::Multiline if self.after_comment => b"",
            DisplayKind::Multiline => b" ",
        }
    }

    /// Writes a token, behind a separator where something stands before it. A token without octets writes nothing.
    ///
    /// `NoMemory`: an allocation failed; the layout is unchanged.
    pub fn write_token(&mut self, token: &[u8]) -> Result<(), NoMemory>
        ensures { Writes self.old (Token token.now ∷ []) self.new result }
    {
        if token.is_empty() {
            return Ok(());
        }
        let separator = self.separator();
        append(&mut self.text, separator, token)?;
        self.after_comment = false;
        Ok(())
    }

    // Writes a block's bracket, which Multiline alone has, and sets the count of open blocks.
    fn write_bracket(&mut self, bracket: &[u8], blocks: usize) -> Result<(), NoMemory>
        ensures ok { OnOk result (self.new ≡ with_bracket self.old bracket.now blocks) }
        ensures err { OnErr result (self.new ≡ self.old) }
    {
        if self.kind == DisplayKind::Multiline {
            let separator = self.separator();
            append(&mut self.text, separator, bracket)?;
            self.after_comment = false;
        }
        self.blocks = blocks;
        Ok(())
    }

    /// Begins a block, which stands in brackets in Multiline.
    ///
    /// `NoMemory`: an allocation failed; the layout is unchanged.
    pub fn begin_block(&mut self) -> Result<(), NoMemory>
        ensures { Writes self.old (BlockBegin ∷ []) self.new result }
    {
        let blocks = self.blocks.checked_add(1).ok_or(NoMemory)?;
        self.write_bracket(b"(", blocks)
    }

    /// Ends the block that was begun last.
    ///
    /// `NoMemory`: an allocation failed; the layout is unchanged.
    pub fn end_block(&mut self) -> Result<(), NoMemory>
        requires { 0 < self.old.layout.blocks }
        ensures { Writes self.old (BlockEnd ∷ []) self.new result }
    {
        let blocks = self.blocks - 1;
        self.write_bracket(b")", blocks)
    }

    /// Writes a comment, which Multiline alone shows, and within blocks alone: `; `, the text, a line feed and a tab.
    ///
    /// `NoMemory`: an allocation failed; the layout is unchanged.
    pub fn write_comment(&mut self, text: &str) -> Result<(), NoMemory>
        requires { IsOneLine text.now }
        ensures { Writes self.old (Comment text.now ∷ []) self.new result }
    {
        if self.kind != DisplayKind::Multiline || self.blocks == 0 {
            return Ok(());
        }
        // at most three octets stand before the text, and two behind it
        let before: &[u8] = if self.after_comment { b"; " } else { b" ; " };
        let len = text.len().checked_add(5).ok_or(NoMemory)?;
        self.text.reserve(len)?;
        self.text.extend_from_slice(before)?;
        self.text.extend_from_slice(text.as_bytes())?;
        self.text.extend_from_slice(b"\n\t")?;
        self.after_comment = true;
        Ok(())
    }

    /// Writes what a value prints as a token. Where the type doesn't state what it prints, the token's text is not
    /// known.
    ///
    /// `NoMemory`: an allocation failed, or the value's own `fmt` did; the layout is unchanged.
    pub fn write_display<T: Display>(&mut self, value: &T) -> Result<(), NoMemory>
        ensures token { IfSome (T.output value.now)
            (λ text. Writes self.old (Token text ∷ []) self.new result) }
        ensures err { OnErr result (self.new ≡ self.old) }
    {
        let text = format!(in *self.text.allocator(); "{value}")?;
        self.write_token(text.as_bytes())
    }

    /// Writes a number in decimal digits as a token.
    ///
    /// `NoMemory`: an allocation failed; the layout is unchanged.
    pub fn write_decimal(&mut self, value: u32) -> Result<(), NoMemory>
        ensures { Writes self.old (Token (decimal value) ∷ []) self.new result }
    {
        self.write_display(&value)
    }

    /// Writes a name with its final dot as a token.
    ///
    /// `NoMemory`: an allocation failed; the layout is unchanged.
    pub fn write_name(&mut self, name: &Name) -> Result<(), NoMemory>
        ensures { Writes self.old (Token (printed_name_with_dot name.now) ∷ []) self.new result }
    {
        self.write_display(&name.fmt_with_dot())
    }

    /// Writes the text of a registry's number as a token, and a comment of its name and mnemonic where comments name
    /// it.
    ///
    /// `NoMemory`: an allocation failed; the layout is unchanged.
    pub fn write_number<T: IanaNumber>(&mut self, value: T) -> Result<(), NoMemory>
        ensures { Writes self.old
            (number_items (T.prints (T.number value)) T.COMMENT
            (mnemonic_of T.rows (T.number value)))
            self.new result }
    {
        let name = T::comment_name();
        if name.is_empty() {
            return self.write_display(&value);
        }
        let alloc = *self.text.allocator();
        let text = format!(in alloc; "{value}")?;
        let comment = number_comment(alloc, name, value.to_mnemonic_str())?;
        self.write_commented(text.as_bytes(), comment.as_str())
    }

    // Writes a token and a comment, or neither.
    fn write_commented(&mut self, token: &[u8], comment: &str) -> Result<(), NoMemory>
        requires { IsOneLine comment.now }
        ensures { Writes self.old (Token token.now ∷ Comment comment.now ∷ []) self.new result }
    {
        let len = self.text.len();
        let after_comment = self.after_comment;
        self.write_token(token)?;
        let written = self.write_comment(comment);
        if written.is_err() {
            self.text.truncate(len);
            self.after_comment = after_comment;
        }
        written
    }

    /// Writes octets in base64, with padding, as a token (RFC 4648, section 4).
    ///
    /// `NoMemory`: an allocation failed; the layout is unchanged.
    pub fn write_base64(&mut self, octets: &[u8]) -> Result<(), NoMemory>
        ensures { Writes self.old (Token (base64_text octets.now) ∷ []) self.new result }
    {
        let text = STANDARD.encode(*self.text.allocator(), octets)?;
        self.write_token(text.as_bytes())
    }

    /// Writes octets in base16, in upper case, as a token (RFC 4648, section 8).
    ///
    /// `NoMemory`: an allocation failed; the layout is unchanged.
    pub fn write_base16(&mut self, octets: &[u8]) -> Result<(), NoMemory>
        ensures { Writes self.old (Token (base16_text octets.now) ∷ []) self.new result }
    {
        let text = hex::encode_upper(*self.text.allocator(), octets)?;
        self.write_token(text.as_bytes())
    }

    /// Lays out a value's document.
    ///
    /// `NoMemory`: its `fmt_zone` failed so; a prefix of its items may have been laid out.
    pub fn write_show<T: ZonefileFmt>(&mut self, value: &T) -> Result<(), NoMemory>
        ensures { Shows self.old (T.document value.now) self.new result }
    {
        value.fmt_zone(self)
    }
}
