//! Laws of the data of records of any type, each proved for all arguments. The functions do nothing when they run.

ghost use Rattle.record_laws.specs.UnionLaws.{UnionTextReadBack};

use crate::records::{fields_text_read_back, ipseckey_text_read_back, types_are_rows};

/// The printed text of data of any type is scanned under the number of its type as that data: the fields of the eleven
/// types, and octets under any number.
pub fn union_text_read_back()
    ensures { UnionTextReadBack }
{
    fields_text_read_back();
    types_are_rows();
    ipseckey_text_read_back();
}
