//! What the code knows of a type of record.

use record_spec::Encoding;
use wire_base::Rtype;

/// The form of the data of a type of record: numbers in fixed fields, and a last field that takes the rest.
#[derive(Clone, Copy, Debug)]
pub struct RecordForm {
    /// The type of the record.
    pub rtype: Rtype,
    /// The count of octets of the fixed fields.
    pub fixed_len: u16,
    /// The fewest octets of the last field that reading takes.
    pub least: u16,
    /// How the last field is written as text.
    pub encoding: Encoding,
    /// Whether `Display` writes the last field in brackets, and its base16 in upper case.
    pub in_brackets: bool,
}
