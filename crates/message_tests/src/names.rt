//! Names as lists of their labels.

use wire_base::ParsedName;

/// The labels of a name.
pub type Labels = &'static [&'static [u8]];

/// Whether a name has these labels, in this case.
pub fn is_name(name: &ParsedName<'_>, wanted: Labels) -> bool {
    let mut labels = name.labels();
    for label in wanted {
        if labels.next() != Some(*label) {
            return false;
        }
    }
    labels.next().is_none()
}
