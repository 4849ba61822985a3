//! Record data of CDNSKEY.

ghost use Rattle.std.specs.Prelude.{◌≡◌, ◌+◌, ◌≤◌, ◌==◌, [], ◌∷◌, Some, refl, length};
ghost use Rattle.std.specs.Ordering.{nat_cmp};
ghost use Rattle.record_spec.specs.Rows.{cdnskey};
ghost use Rattle.record_spec.specs.Texts.{numbers_printed};
ghost use Rattle.record_spec.specs.DocumentLaws.{document-cdnskey};
ghost use Rattle.record_laws.proofs.Types.{types_are};
ghost use Rattle.digest_rdata.specs.ComparingLaws.{equal_three, then_three};
ghost use Rattle.digest_rdata.specs.Making.{MakesData};

use crate::association_data::AssociationData;
use crate::association_fields::AssociationFields;
use crate::field_octets::FieldOctets;
use crate::octets::{split_u8, split_u16};
use crate::record_form::RecordForm;
use crate::sealed::Sealed;
use dns_text::{Formatter, Scanner};
use key_registry::SecurityAlgorithm;
use record_spec::Encoding;
use std::alloc::Global;
use std::fmt;
use text_spec::ScanError;
use wire_base::{LongRecordData, NoMemory, Octets, Rtype};

/// The data of a CDNSKEY record (RFC 7344, section 3.2): a key for the parent zone.
pub type Cdnskey = AssociationData<CdnskeyFields>;

/// The fixed fields of [`Cdnskey`].
#[derive(Clone, Copy, Debug, PartialEq, Eq, PartialOrd, Ord, Hash)]
pub struct CdnskeyFields {
    /// The flags (RFC 4034, section 2.1.1).
    pub flags: u16,
    /// The protocol, which is 3 (RFC 4034, section 2.1.2); other numbers are kept.
    pub protocol: u8,
    /// The algorithm of the key.
    pub algorithm: SecurityAlgorithm,
}

impl Cdnskey {
    /// The data of its fields. No memory is taken.
    ///
    /// `LongRecordData`: it would have more than 65,535 octets. The public key is then dropped.
    pub fn new(
        flags: u16,
        protocol: u8,
        algorithm: SecurityAlgorithm,
        public_key: Octets,
    ) -> Result<Cdnskey, LongRecordData>
        ensures { MakesData (record {
          fields = record { flags = flags; protocol = protocol; algorithm = algorithm };
          last = public_key;
        }) (4 + length public_key) result }
    {
        AssociationData::from_parts(
            CdnskeyFields {
                flags,
                protocol,
                algorithm,
            },
            public_key,
        )
    }

    /// The flags (RFC 4034, section 2.1.1).
    pub fn flags(&self) -> u16
        ensures { result ≡ self.now.fields.flags }
    {
        self.fields().flags
    }

    /// The protocol, which is 3 (RFC 4034, section 2.1.2); other numbers are kept.
    pub fn protocol(&self) -> u8
        ensures { result ≡ self.now.fields.protocol }
    {
        self.fields().protocol
    }

    /// The algorithm of the key.
    pub fn algorithm(&self) -> SecurityAlgorithm
        ensures { result ≡ self.now.fields.algorithm }
    {
        self.fields().algorithm
    }

    /// The public key.
    pub fn public_key(&self) -> &Octets
        ensures { result.now ≡ self.now.last }
    {
        self.last()
    }
}

impl Sealed for CdnskeyFields {}

impl AssociationFields for CdnskeyFields {
    ghost definition = { cdnskey };

    ghost numbers = { λ fields. fields.flags ∷ fields.protocol ∷ fields.algorithm ∷ [] };

    const NAME: &'static str = "Cdnskey";

    fn form() -> RecordForm {
        RecordForm {
            rtype: Rtype::CDNSKEY,
            fixed_len: 4,
            least: 0,
            encoding: Encoding::Base64,
            in_brackets: false,
        }
    }

    fn read(octets: &[u8]) -> CdnskeyFields {
        let (flags, octets) = split_u16(octets);
        let (protocol, octets) = split_u8(octets);
        let (algorithm, _) = split_u8(octets);
        CdnskeyFields {
            flags,
            protocol,
            algorithm: SecurityAlgorithm::from(algorithm),
        }
    }

    fn octets(&self) -> FieldOctets {
        let algorithm = u8::from(self.algorithm);
        FieldOctets::from_u16(self.flags, self.protocol, algorithm)
    }

    fn scan<S: Scanner>(alloc: Global, scanner: &mut S) -> Result<CdnskeyFields, ScanError> {
        Ok(CdnskeyFields {
            flags: scanner.scan_u16(alloc)?,
            protocol: scanner.scan_u8(alloc)?,
            algorithm: scanner.scan_number(alloc)?,
        })
    }

    fn lay_out(&self, f: &mut Formatter) -> Result<(), NoMemory> {
        f.write_decimal(u32::from(self.flags))?;
        f.write_decimal(u32::from(self.protocol))?;
        f.write_number(self.algorithm)
    }

    ghost prints = { λ fields. refl };

    ghost is_document = { document-cdnskey };

    ghost is_lawful = { types_are.cdnskey_is };

    ghost equal = { λ a b. equal_three
        (a.flags == b.flags) (a.protocol == b.protocol) (a.algorithm == b.algorithm) };

    ghost ordered = { λ a b. then_three
        (nat_cmp a.flags b.flags) (nat_cmp a.protocol b.protocol)
        (nat_cmp a.algorithm b.algorithm) };

    ghost feeds = { λ fields more. refl };
}

/// The numbers, each with a space behind it.
impl fmt::Display for CdnskeyFields {
    ghost output = { λ fields. Some (numbers_printed
        (fields.flags ∷ fields.protocol ∷ fields.algorithm ∷ [])) };

    fn fmt<W: fmt::Write>(&self, f: &mut fmt::Formatter<W>) -> fmt::Result {
        write!(f, "{} {} {} ", self.flags, self.protocol, self.algorithm)
    }
}
