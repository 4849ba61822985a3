//! Record data of SSHFP.

ghost use Rattle.std.specs.Prelude.{◌≡◌, ◌+◌, ◌≤◌, ◌==◌, [], ◌∷◌, Some, refl, length};
ghost use Rattle.std.specs.Ordering.{nat_cmp};
ghost use Rattle.record_spec.specs.Rows.{sshfp};
ghost use Rattle.record_spec.specs.Texts.{numbers_printed};
ghost use Rattle.record_spec.specs.DocumentLaws.{document-sshfp};
ghost use Rattle.record_laws.proofs.Types.{types_are};
ghost use Rattle.digest_rdata.specs.ComparingLaws.{equal_two, then_two};
ghost use Rattle.digest_rdata.specs.Making.{MakesData};

use crate::association_data::AssociationData;
use crate::association_fields::AssociationFields;
use crate::field_octets::FieldOctets;
use crate::octets::split_u8;
use crate::record_form::RecordForm;
use crate::sealed::Sealed;
use dns_text::{Formatter, Scanner};
use key_registry::{SshfpAlgorithm, SshfpType};
use record_spec::Encoding;
use std::alloc::Global;
use std::fmt;
use text_spec::ScanError;
use wire_base::{LongRecordData, NoMemory, Octets, Rtype};

/// The data of an SSHFP record (RFC 4255, section 3.1): the fingerprint of a key of a host.
pub type Sshfp = AssociationData<SshfpFields>;

/// The fixed fields of [`Sshfp`].
#[derive(Clone, Copy, Debug, PartialEq, Eq, PartialOrd, Ord, Hash)]
pub struct SshfpFields {
    /// The algorithm of the key.
    pub algorithm: SshfpAlgorithm,
    /// The algorithm of the fingerprint.
    pub fingerprint_type: SshfpType,
}

impl Sshfp {
    /// The data of its fields, which has at most 65,535 octets. No memory is taken.
    pub fn new(algorithm: SshfpAlgorithm, fingerprint_type: SshfpType, fingerprint: Octets) -> Sshfp
        requires { 2 + length fingerprint ≤ 65535 }
        ensures { result ≡ record {
          fields = record { algorithm = algorithm; fingerprint_type = fingerprint_type };
          last = fingerprint;
        } }
    {
        AssociationData::from_checked_parts(
            SshfpFields {
                algorithm,
                fingerprint_type,
            },
            fingerprint,
        )
    }

    /// The data of its fields. No memory is taken.
    ///
    /// `LongRecordData`: it would have more than 65,535 octets. The fingerprint is then dropped.
    pub fn try_new(
        algorithm: SshfpAlgorithm,
        fingerprint_type: SshfpType,
        fingerprint: Octets,
    ) -> Result<Sshfp, LongRecordData>
        ensures { MakesData (record {
          fields = record { algorithm = algorithm; fingerprint_type = fingerprint_type };
          last = fingerprint;
        }) (2 + length fingerprint) result }
    {
        Sshfp::check_last(&fingerprint)?;
        Ok(Sshfp::new(algorithm, fingerprint_type, fingerprint))
    }

    /// The algorithm of the key.
    pub fn algorithm(&self) -> SshfpAlgorithm
        ensures { result ≡ self.now.fields.algorithm }
    {
        self.fields().algorithm
    }

    /// The algorithm of the fingerprint.
    pub fn fingerprint_type(&self) -> SshfpType
        ensures { result ≡ self.now.fields.fingerprint_type }
    {
        self.fields().fingerprint_type
    }

    /// The fingerprint.
    pub fn fingerprint(&self) -> &Octets
        ensures { result.now ≡ self.now.last }
    {
        self.last()
    }
}

impl Sealed for SshfpFields {}

impl AssociationFields for SshfpFields {
    ghost definition = { sshfp };

    ghost numbers = { λ fields. fields.algorithm ∷ fields.fingerprint_type ∷ [] };

    const NAME: &'static str = "Sshfp";

    fn form() -> RecordForm {
        RecordForm {
            rtype: Rtype::SSHFP,
            fixed_len: 2,
            least: 0,
            encoding: Encoding::Base16,
            in_brackets: true,
        }
    }

    fn read(octets: &[u8]) -> SshfpFields {
        let (algorithm, octets) = split_u8(octets);
        let (fingerprint_type, _) = split_u8(octets);
        SshfpFields {
            algorithm: SshfpAlgorithm::from(algorithm),
            fingerprint_type: SshfpType::from(fingerprint_type),
        }
    }

    fn octets(&self) -> FieldOctets {
        let algorithm = u8::from(self.algorithm);
        let fingerprint_type = u8::from(self.fingerprint_type);
        FieldOctets::first_of([algorithm, fingerprint_type, 0, 0, 0, 0], 2)
    }

    fn scan<S: Scanner>(alloc: Global, scanner: &mut S) -> Result<SshfpFields, ScanError> {
        Ok(SshfpFields {
            algorithm: scanner.scan_number(alloc)?,
            fingerprint_type: scanner.scan_number(alloc)?,
        })
    }

    fn lay_out(&self, f: &mut Formatter) -> Result<(), NoMemory> {
        f.write_decimal(u32::from(u8::from(self.algorithm)))?;
        f.write_decimal(u32::from(u8::from(self.fingerprint_type)))
    }

    ghost prints = { λ fields. refl };

    ghost is_document = { document-sshfp };

    ghost is_lawful = { types_are.sshfp_is };

    ghost equal = { λ a b. equal_two
        (a.algorithm == b.algorithm) (a.fingerprint_type == b.fingerprint_type) };

    ghost ordered = { λ a b. then_two
        (nat_cmp a.algorithm b.algorithm) (nat_cmp a.fingerprint_type b.fingerprint_type) };

    ghost feeds = { λ fields more. refl };
}

/// The numbers, each with a space behind it.
impl fmt::Display for SshfpFields {
    ghost output = { λ fields. Some (numbers_printed
        (fields.algorithm ∷ fields.fingerprint_type ∷ [])) };

    fn fmt<W: fmt::Write>(&self, f: &mut fmt::Formatter<W>) -> fmt::Result {
        write!(f, "{} {} ", self.algorithm, self.fingerprint_type)
    }
}
