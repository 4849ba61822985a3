//! Octets as text.

ghost use Rattle.std.specs.Prelude.{◌≡◌, Some, false, flat_map, IsAscii};
ghost use Rattle.std.specs.Fmt.{WritesOnOk};
ghost use Rattle.std.specs.List.{prefix_len};
ghost use Rattle.name_spec.specs.Printed.{is_visible, printed_octet, printed_octets, printed_label};
ghost use Rattle.wire_base.specs.PrintedIn.{is_bare, specials};

use std::{fmt, str};

/// Octets as text, which is their `Display` (RFC 1035, section 5.1): an octet of printable ASCII as itself, but space,
/// `"`, `\`, `;`, `(` and `)` behind a backslash; each other octet as a backslash and three decimal digits.
#[derive(Clone, Copy, Debug)]
pub struct PrintedOctets<'a> {
    /// The octets.
    pub octets: &'a [u8],
}

impl<'a> PrintedOctets<'a> {
    /// The text of these octets, borrowed.
    pub fn new(slice: &'a [u8]) -> PrintedOctets<'a>
        ensures { result.octets.now ≡ slice.now }
    {
        PrintedOctets { octets: slice }
    }
}

impl fmt::Display for PrintedOctets<'_> {
    ghost output = { λ printed. Some (printed_octets printed.octets.now) };

    fn fmt<W: fmt::Write>(&self, f: &mut fmt::Formatter<W>) -> fmt::Result {
        write_octets(f, self.octets, false)
    }
}

/// A label of a name as text. A dot stands behind a backslash too.
#[derive(Clone, Copy)]
pub(crate) struct PrintedLabel<'a>(pub(crate) &'a [u8]);

impl fmt::Display for PrintedLabel<'_> {
    ghost output = { λ label. Some (printed_label label.0.now) };

    fn fmt<W: fmt::Write>(&self, f: &mut fmt::Formatter<W>) -> fmt::Result {
        write_octets(f, self.0, true)
    }
}

/// Writes octets. Those in a row that stand for themselves are written at once.
fn write_octets<W: fmt::Write>(
    f: &mut fmt::Formatter<W>,
    octets: &[u8],
    in_name: bool,
) -> fmt::Result
    ensures { WritesOnOk W.Write.write_str_gives f.old result
        (flat_map (printed_octet (specials in_name)) octets.now) f.new }
{
    let mut rest = octets;
    loop {
        let (bare, behind) = rest.split_at(bare_len(rest, in_name));
        write_ascii(f, bare)?;
        let Some((first, behind)) = behind.split_first() else {
            return Ok(());
        };
        write_escape(f, *first, in_name)?;
        rest = behind;
    }
}

/// How many octets stand for themselves before one that doesn't.
fn bare_len(octets: &[u8], in_name: bool) -> usize
    ensures { result ≡ prefix_len (is_bare in_name) octets.now }
{
    octets
        .iter()
        .take_while(|octet| is_bare(**octet, in_name))
        .count()
}

/// Writes an octet that doesn't stand for itself.
fn write_escape<W: fmt::Write>(f: &mut fmt::Formatter<W>, octet: u8, in_name: bool) -> fmt::Result
    requires { is_bare in_name octet ≡ false }
    ensures { WritesOnOk W.Write.write_str_gives f.old result
        (printed_octet (specials in_name) octet) f.new }
{
    if is_special(octet, in_name) {
        return write_ascii(f, &[b'\\', octet]);
    }
    let hundreds = b'0' + octet / 100;
    let tens = b'0' + octet / 10 % 10;
    let ones = b'0' + octet % 10;
    write_ascii(f, &[b'\\', hundreds, tens, ones])
}

fn write_ascii<W: fmt::Write>(f: &mut fmt::Formatter<W>, octets: &[u8]) -> fmt::Result
    requires { IsAscii octets.now }
    ensures { WritesOnOk W.Write.write_str_gives f.old result octets.now f.new }
{
    let Ok(text) = str::from_utf8(octets) else {
        unreachable!();
    };
    f.write_str(text)
}

/// Whether an octet stands for itself.
fn is_bare(octet: u8, in_name: bool) -> bool
    ensures { result ≡ is_bare in_name octet }
{
    is_visible(octet) && !is_special(octet, in_name)
}

/// Whether an octet stands behind a backslash.
fn is_special(octet: u8, in_name: bool) -> bool
    ensures { result ≡ specials in_name octet }
{
    match octet {
        b' ' | b'"' | b'\\' | b';' | b'(' | b')' => true,
        b'.' => in_name,
        _ => false,
    }
}

/// Whether an octet is printable ASCII other than space.
fn is_visible(octet: u8) -> bool
    ensures { result ≡ is_visible octet }
{
    matches!(octet, 0x21..=0x7E)
}
