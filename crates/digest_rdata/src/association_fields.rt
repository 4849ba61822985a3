//! What tells the types of record data apart.

ghost use Rattle.std.specs.Prelude.{◌≡◌, ◌≤◌, ◌==◌, ℕ, List, ◌++◌, Some, length};
ghost use Rattle.std.specs.Ordering.{nat_cmp};
ghost use Rattle.std.specs.Cmp.Lexicographic.{pointwise, slice_cmp};
ghost use Rattle.std.specs.Hash.{HashWrites};
ghost use Rattle.text_spec.specs.Layouts.{IsDocument};
ghost use Rattle.text_spec.specs.Scanning.{ScansPart};
ghost use Rattle.dns_text.specs.Writing.{Shows};
ghost use Rattle.record_spec.specs.Rows.{Row, Data, AreNumbers, fixed_len};
ghost use Rattle.record_spec.specs.Wire.{numbers_in, numbers_wire};
ghost use Rattle.record_spec.specs.Texts.{numbers_printed};
ghost use Rattle.record_spec.specs.Documents.{numbers_items, data_document};
ghost use Rattle.record_spec.specs.Comparing.{numbers_hash_input};
ghost use Rattle.record_laws.specs.RecordLaws.{IsLawfulRow};
ghost use Rattle.digest_rdata.specs.Forms.{IsFormOf};
ghost use Rattle.digest_rdata.specs.ScanningParts.{scan_numbers};

use crate::field_octets::FieldOctets;
use crate::record_form::RecordForm;
use crate::sealed::Sealed;
use dns_text::{Formatter, Scanner};
use std::alloc::Global;
use std::fmt;
use std::hash::Hash;
use text_spec::ScanError;
use wire_base::NoMemory;

/// The fixed fields of a type of record, over which [`AssociationData`](crate::AssociationData) is the type of its
/// data.
///
/// A type of fields says by `definition` which record it belongs to, and by `numbers` which numbers its fields are. It
/// owes that these are read, composed, scanned, printed, laid out and compared as the definition says.
///
/// The trait is sealed: the six types of fields of this crate implement it, and no other type can. It is public so that
/// a function can be generic over them.
pub trait AssociationFields: Sealed + Copy + Ord + Hash + fmt::Debug + fmt::Display {
    /// The definition of the record.
    ghost definition: { Row };

    /// The numbers of the fields, in wire order.
    ghost numbers: { Self → List ℕ };

    /// What `Debug` calls the data of the record.
    const NAME: &'static str;

    /// The form of the record's data.
    fn form() -> RecordForm
        ensures { IsFormOf definition result };

    /// The fields that octets begin with.
    fn read(octets: &[u8]) -> Self
        requires { fixed_len definition.fields ≤ length octets.now }
        ensures { numbers result ≡ numbers_in definition.fields octets.now };

    /// The octets of the fields, in wire order. Each number fits its field.
    fn octets(&self) -> FieldOctets
        ensures wire { result ≡ numbers_wire definition.fields (numbers self.now) }
        ensures len { length result ≡ fixed_len definition.fields }
        ensures fit { AreNumbers definition.fields (numbers self.now) };

    /// Scans the fields, a number text each.
    ///
    /// - `EndOfEntry`: no token is left for a field. The scanner stands at the end of the entry.
    /// - `BadNumber`: a token is no number text that fits its field. The scanner stands before that token.
    /// - `NoMemory`: allocation failed. Tokens may have been taken.
    fn scan<S: Scanner>(alloc: Global, scanner: &mut S) -> Result<Self, ScanError>
        ensures { ScansPart numbers (scan_numbers definition)
            (S.scan scanner.old) (S.scan scanner.new) result };

    /// Lays out the fields.
    ///
    /// Fails only with `NoMemory`: allocation failed; a prefix of the items may be laid out.
    fn lay_out(&self, f: &mut Formatter) -> Result<(), NoMemory>
        ensures { Shows f.old (numbers_items definition.fields (numbers self.now)) f.new result };

    /// The fields are printed as their numbers, each with a space behind it.
    ghost prints: { (fields : Self)
        → Self.output fields ≡ Some (numbers_printed (numbers fields)) };

    /// The data of the record is laid out as a document.
    ghost is_document: { (found : Data) → IsDocument (data_document definition found) };

    /// The record's texts are such as the laws of `record_laws` speak of.
    ghost is_lawful: { IsLawfulRow definition };

    /// Fields are equal where their numbers are.
    ghost equal: { (a b : Self) → Self.eq a b ≡ pointwise ◌==◌ (numbers a) (numbers b) };

    /// Fields are ordered as their numbers, the first of which decides.
    ghost ordered: { (a b : Self) → Self.cmp a b ≡ slice_cmp nat_cmp (numbers a) (numbers b) };

    /// Fields are fed to a hasher as their numbers.
    ghost feeds: { (fields : Self) (more : HashWrites)
        → Self.hash_input fields ++ more ≡ numbers_hash_input definition.fields (numbers fields) more };
}
