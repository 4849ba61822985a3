//! Record data of OPENPGPKEY.

ghost use Rattle.std.specs.Prelude.{◌≡◌, ◌≤◌, [], Some, refl, length};
ghost use Rattle.record_spec.specs.Rows.{openpgpkey};
ghost use Rattle.record_spec.specs.Texts.{numbers_printed};
ghost use Rattle.record_spec.specs.DocumentLaws.{document-openpgpkey};
ghost use Rattle.record_laws.proofs.Types.{types_are};
ghost use Rattle.digest_rdata.specs.Making.{MakesData};

use crate::association_data::AssociationData;
use crate::association_fields::AssociationFields;
use crate::field_octets::FieldOctets;
use crate::record_form::RecordForm;
use crate::sealed::Sealed;
use dns_text::{Formatter, Scanner};
use record_spec::Encoding;
use std::alloc::Global;
use std::fmt;
use text_spec::ScanError;
use wire_base::{LongRecordData, NoMemory, Octets, Rtype};

/// The data of an OPENPGPKEY record (RFC 7929, section 2.1): an OpenPGP key.
pub type Openpgpkey = AssociationData<OpenpgpkeyFields>;

/// The fixed fields of [`Openpgpkey`], which has none.
#[derive(Clone, Copy, Debug, PartialEq, Eq, PartialOrd, Ord, Hash)]
pub struct OpenpgpkeyFields;

impl Openpgpkey {
    /// The data of its fields, which has at most 65,535 octets. No memory is taken.
    pub fn new(key: Octets) -> Openpgpkey
        requires { length key ≤ 65535 }
        ensures { result ≡ record {
          fields = record {};
          last = key;
        } }
    {
        AssociationData::from_checked_parts(OpenpgpkeyFields, key)
    }

    /// The data of its fields. No memory is taken.
    ///
    /// `LongRecordData`: it would have more than 65,535 octets. The key is then dropped.
    pub fn try_new(key: Octets) -> Result<Openpgpkey, LongRecordData>
        ensures { MakesData (record {
          fields = record {};
          last = key;
        }) (length key) result }
    {
        Openpgpkey::check_last(&key)?;
        Ok(Openpgpkey::new(key))
    }

    /// The key.
    pub fn key(&self) -> &Octets
        ensures { result.now ≡ self.now.last }
    {
        self.last()
    }
}

impl Sealed for OpenpgpkeyFields {}

impl AssociationFields for OpenpgpkeyFields {
    ghost definition = { openpgpkey };

    ghost numbers = { λ fields. [] };

    const NAME: &'static str = "Openpgpkey";

    fn form() -> RecordForm {
        RecordForm {
            rtype: Rtype::OPENPGPKEY,
            fixed_len: 0,
            least: 0,
            encoding: Encoding::Base64,
            in_brackets: true,
        }
    }

    fn read(_octets: &[u8]) -> OpenpgpkeyFields {
        OpenpgpkeyFields
    }

    fn octets(&self) -> FieldOctets {
        FieldOctets::first_of([0; 6], 0)
    }

    fn scan<S: Scanner>(_alloc: Global, _scanner: &mut S) -> Result<OpenpgpkeyFields, ScanError> {
        Ok(OpenpgpkeyFields)
    }

    fn lay_out(&self, _f: &mut Formatter) -> Result<(), NoMemory> {
        Ok(())
    }

    ghost prints = { λ fields. refl };

    ghost is_document = { document-openpgpkey };

    ghost is_lawful = { types_are.openpgpkey_is };

    ghost equal = { λ a b. refl };

    ghost ordered = { λ a b. refl };

    ghost feeds = { λ fields more. refl };
}

/// Nothing.
impl fmt::Display for OpenpgpkeyFields {
    ghost output = { λ fields. Some (numbers_printed []) };

    fn fmt<W: fmt::Write>(&self, _f: &mut fmt::Formatter<W>) -> fmt::Result {
        Ok(())
    }
}
