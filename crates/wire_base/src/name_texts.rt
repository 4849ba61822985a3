//! Names as text.

ghost use Rattle.std.specs.Prelude.{◌≡◌, Some};
ghost use Rattle.std.specs.Fmt.{WritesOnOk};
ghost use Rattle.name_spec.specs.Printed.{printed_name, printed_name_with_dot};

use crate::label_iter::LabelIter;
use crate::name::ParsedName;
use crate::owned_name::Name;
use crate::printed::PrintedLabel;
use std::fmt;

/// Writes labels as the text of a name without its final dot.
fn write_labels<W: fmt::Write>(f: &mut fmt::Formatter<W>, mut labels: LabelIter<'_>) -> fmt::Result
    ensures writes { WritesOnOk W.Write.write_str_gives f.old result
        (printed_name labels.entry) f.new }
{
    let Some(first) = labels.next() else {
        return f.write_str(".");
    };
    write!(f, "{}", PrintedLabel(first))?;
    for label in labels {
        write!(f, ".{}", PrintedLabel(label))?;
    }
    Ok(())
}

/// The labels with a dot between two of them, each octet as [`PrintedOctets`](crate::PrintedOctets) has it, and a dot
/// within a label behind a backslash too (RFC 1035, section 5.1). There is no final dot; the root is a dot.
impl fmt::Display for Name {
    ghost output = { λ name. Some (printed_name name) };

    fn fmt<W: fmt::Write>(&self, f: &mut fmt::Formatter<W>) -> fmt::Result {
        write_labels(f, self.labels())
    }
}

/// The text of the name, its pointers followed, as `Name` has it.
impl fmt::Display for ParsedName<'_> {
    ghost output = { λ name. Some (printed_name name.labels) };

    fn fmt<W: fmt::Write>(&self, f: &mut fmt::Formatter<W>) -> fmt::Result {
        write_labels(f, self.labels())
    }
}

/// A name as absolute text, which is its `Display`: as the name's own, with the final dot. The root is a dot.
#[derive(Clone, Copy, Debug)]
pub struct DottedName<'a> {
    /// The name.
    pub name: &'a Name,
}

impl fmt::Display for DottedName<'_> {
    ghost output = { λ dotted. Some (printed_name_with_dot dotted.name.now) };

    fn fmt<W: fmt::Write>(&self, f: &mut fmt::Formatter<W>) -> fmt::Result {
        let name = self.name;
        if name.is_root() {
            write!(f, "{name}")
        } else {
            write!(f, "{name}.")
        }
    }
}

impl Name {
    /// The name as text with its final dot.
    pub fn fmt_with_dot(&self) -> DottedName<'_>
        ensures { result.name.now ≡ self.now }
    {
        DottedName { name: self }
    }
}
