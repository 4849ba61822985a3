//! The parts of a name in a message: labels and pointers up to the root (RFC 1035, section 4.1.4).

ghost use Rattle.std.specs.Prelude.{◌≤◌, length, MatchResult};
ghost use Rattle.name_spec.specs.Names.{name_at};
ghost use Rattle.wire_base.specs.Faults.{IsFaultOf};
ghost use Rattle.wire_base.specs.NameParts.{IsPartAt, SpansName};

use crate::errors::ParseError;

/// The most octets that the labels of a name have with their length octets, so that the root makes it 255.
const MAX_LABEL_OCTETS: usize = 254;

/// The most pointers that are followed in a name.
const MAX_POINTERS: usize = 255;

/// How a name goes on at a place.
#[derive(Clone, Copy)]
pub(crate) enum Part {
    /// It is complete.
    Root,
    /// A label of so many octets.
    Label(usize),
    /// It goes on at that place.
    Pointer(usize),
}

/// A name's own octets and its length.
#[derive(Clone, Copy)]
pub(crate) struct Span {
    /// The place behind the name's own octets.
    pub(crate) next: usize,
    /// The count of its octets uncompressed.
    pub(crate) len: u16,
    /// Whether a pointer was followed.
    pub(crate) is_compressed: bool,
}

/// The part at a place, behind labels of so many octets with their lengths, and so many pointers.
#[tactic(auto, using(name_spec::proofs::NameLaws::name_rules, name_spec::proofs::NameLaws::pointed_rules))]
pub(crate) fn part_at(
    message: &[u8],
    end: usize,
    pos: usize,
    octets: usize,
    pointers: usize,
) -> Result<Part, ParseError>
    requires in_message { end ≤ length message.now }
    requires octets_fit { octets ≤ 254 }
    requires pointers_fit { pointers ≤ 255 }
    ensures { IsPartAt message.now end pos octets pointers result }
{
    if pos >= end {
        return Err(ParseError::ShortInput);
    }
    let first = message[pos];
    match first {
        0 => Ok(Part::Root),
        1..=63 => {
            let len = usize::from(first);
            if len >= end - pos {
                Err(ParseError::ShortInput)
            } else if octets + len + 1 > MAX_LABEL_OCTETS {
                Err(ParseError::Form)
            } else {
                Ok(Part::Label(len))
            }
        }
        64..=191 => Err(ParseError::Form),
        192..=255 => {
            if end - pos < 2 {
                return Err(ParseError::ShortInput);
            }
            let target = usize::from(first % 64) * 256 + usize::from(message[pos + 1]);
            if target >= pos || pointers >= MAX_POINTERS {
                Err(ParseError::Form)
            } else {
                Ok(Part::Pointer(target))
            }
        }
    }
}

/// Reads the name at a place.
pub(crate) fn span_at(message: &[u8], end: usize, start: usize) -> Result<Span, ParseError>
    requires in_message { end ≤ length message.now }
    ensures { MatchResult result (SpansName message.now end start)
        (λ error. IsFaultOf error (name_at message.now end start 0 0)) }
{
    let mut pos = start;
    let mut octets = 0;
    let mut pointers = 0;
    let mut next = None;
    loop {
        match part_at(message, end, pos, octets, pointers)? {
            Part::Root => {
                return Ok(Span {
                    next: next.unwrap_or(pos + 1),
                    len: (octets + 1) as u16,
                    is_compressed: next.is_some(),
                });
            }
            Part::Label(len) => {
                pos += 1 + len;
                octets += len + 1;
            }
            Part::Pointer(target) => {
                next = next.or(Some(pos + 2));
                pos = target;
                pointers += 1;
            }
        }
    }
}
