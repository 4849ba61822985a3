//! The text of an item of a list: where it ends, and its escapes.

ghost use Rattle.std.specs.Prelude.{◌≡◌, ◌≢◌, ◌≤◌, ◌∷◌, Err, length, IfOk, IfErr, option_map};
ghost use Rattle.svcb_spec.specs.ListTexts.{comma_pieces, plain_item, onto_item, read_item, is_escaped_in_item};
ghost use Rattle.text_spec.specs.Scanning.{Answers};
ghost use Rattle.svcb_text.specs.Items.{items_left, let_through, seen_read};

use std::alloc::Global;
use text_spec::ScanError;
use wire_base::Octets;

/// What stands before the first comma, and what stands behind it, where there is one.
pub(crate) fn split_at_comma(text: &[u8]) -> (&[u8], Option<&[u8]>)
    ensures { comma_pieces text.now
        ≡ result.0.now ∷ items_left (option_map (λ rest. rest.now) result.1) }
{
    for (i, c) in text.iter().enumerate() {
        if *c == b',' {
            return (&text[..i], Some(&text[i + 1..]));
        }
    }
    (text, None)
}

/// Tests an item in which nothing may be escaped.
///
/// `BadListEscape`: it has a backslash. `EmptyItem`: it has no octets.
pub(crate) fn check_plain(item: &[u8]) -> Result<(), ScanError>
    ensures { let_through item.now result ≡ plain_item item.now }
{
    if item.contains(&b'\\') {
        return Err(ScanError::BadListEscape);
    }
    if item.is_empty() {
        return Err(ScanError::EmptyItem);
    }
    Ok(())
}

/// The item that a text begins with, without its escapes, and what stands behind the comma that ends it, where there is
/// one.
///
/// `BadListEscape`: the item has a backslash that is followed by neither a comma nor a backslash. `NoMemory`:
/// allocation failed.
pub(crate) fn read_item(alloc: Global, text: &[u8]) -> Result<(Octets, Option<&[u8]>), ScanError>
    ensures { Answers seen_read result (read_item text.now) }
{
    let mut item = Vec::new(alloc);
    let mut left = text;
    while let Some((c, others)) = left.split_first() {
        if *c == b',' {
            return Ok((Octets::from_vec(item), Some(others)));
        }
        let (octet, behind) = take_octet(*c, others)?;
        item.push(octet)?;
        left = behind;
    }
    Ok((Octets::from_vec(item), None))
}

/// The octet that an item's text begins with, which may be escaped, and the text behind it.
///
/// `BadListEscape`: it is a backslash that is followed by neither a comma nor a backslash.
fn take_octet(c: u8, others: &[u8]) -> Result<(u8, &[u8]), ScanError>
    requires { c ≢ 44 }
    ensures reads { IfOk result (λ front. read_item (c ∷ others.now)
        ≡ onto_item front.0 (read_item front.1.now)) }
    ensures shorter { IfOk result (λ front. length front.1.now ≤ length others.now) }
    ensures refused { IfErr result (λ fault. (fault ≡ ScanError.BadListEscape)
        × (read_item (c ∷ others.now) ≡ Err fault)) }
{
    if c != b'\\' {
        return Ok((c, others));
    }
    match others.split_first() {
        Some((next, behind)) if is_escaped_in_item(*next) => Ok((*next, behind)),
        _ => Err(ScanError::BadListEscape),
    }
}

/// Whether an octet stands behind a backslash in an item: a comma or a backslash.
fn is_escaped_in_item(c: u8) -> bool
    ensures { result ≡ is_escaped_in_item c }
{
    c == b',' || c == b'\\'
}
