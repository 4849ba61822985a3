//! Record data of CDS.

ghost use Rattle.std.specs.Prelude.{◌≡◌, ◌+◌, ◌≤◌, ◌==◌, [], ◌∷◌, Some, refl, length};
ghost use Rattle.std.specs.Ordering.{nat_cmp};
ghost use Rattle.record_spec.specs.Rows.{cds};
ghost use Rattle.record_spec.specs.Texts.{numbers_printed};
ghost use Rattle.record_spec.specs.DocumentLaws.{document-cds};
ghost use Rattle.record_laws.proofs.Types.{types_are};
ghost use Rattle.digest_rdata.specs.ComparingLaws.{equal_three, then_three};
ghost use Rattle.digest_rdata.specs.Making.{MakesData};

use crate::association_data::AssociationData;
use crate::association_fields::AssociationFields;
use crate::field_octets::FieldOctets;
use crate::octets::{split_u8, split_u16};
use crate::record_form::RecordForm;
use crate::sealed::Sealed;
use dns_text::{Formatter, Scanner};
use key_registry::{DigestAlgorithm, SecurityAlgorithm};
use record_spec::Encoding;
use std::alloc::Global;
use std::fmt;
use text_spec::ScanError;
use wire_base::{LongRecordData, NoMemory, Octets, Rtype};

/// The data of a CDS record (RFC 7344, section 3.1): the digest of a key that a zone asks its parent zone to publish as
/// DS record.
///
/// To scan it from the text of a zone file entry, as `60485 5 1 2BB183AF5F22588179A53B0A98631FAD1A292118`:
///
/// ```
/// use digest_rdata::Cds;
/// use dns_text::{Entry, EntryScanner, Scanner};
/// use std::alloc::Global;
/// use text_spec::ScanError;
///
/// fn scanned(alloc: Global, text: &[u8]) -> Result<Cds, ScanError> {
///     let mut scanner = EntryScanner::new(Entry::from_text(text)?);
///     let data = Cds::scan(alloc, &mut scanner)?;
///     scanner.check_end()?;
///     Ok(data)
/// }
/// ```
pub type Cds = AssociationData<CdsFields>;

/// The fixed fields of [`Cds`].
#[derive(Clone, Copy, Debug, PartialEq, Eq, PartialOrd, Ord, Hash)]
pub struct CdsFields {
    /// The key tag of the key (RFC 4034, section 5.1.1).
    pub key_tag: u16,
    /// The algorithm of the key.
    pub algorithm: SecurityAlgorithm,
    /// The algorithm of the digest.
    pub digest_type: DigestAlgorithm,
}

impl Cds {
    /// The data of its fields. No memory is taken.
    ///
    /// `LongRecordData`: it would have more than 65,535 octets. The digest is then dropped.
    pub fn new(
        key_tag: u16,
        algorithm: SecurityAlgorithm,
        digest_type: DigestAlgorithm,
        digest: Octets,
    ) -> Result<Cds, LongRecordData>
        ensures { MakesData (record {
          fields = record { key_tag = key_tag; algorithm = algorithm; digest_type = digest_type };
          last = digest;
        }) (4 + length digest) result }
    {
        AssociationData::from_parts(
            CdsFields {
                key_tag,
                algorithm,
                digest_type,
            },
            digest,
        )
    }

    /// The key tag of the key (RFC 4034, section 5.1.1).
    pub fn key_tag(&self) -> u16
        ensures { result ≡ self.now.fields.key_tag }
    {
        self.fields().key_tag
    }

    /// The algorithm of the key.
    pub fn algorithm(&self) -> SecurityAlgorithm
        ensures { result ≡ self.now.fields.algorithm }
    {
        self.fields().algorithm
    }

    /// The algorithm of the digest.
    pub fn digest_type(&self) -> DigestAlgorithm
        ensures { result ≡ self.now.fields.digest_type }
    {
        self.fields().digest_type
    }

    /// The digest.
    pub fn digest(&self) -> &Octets
        ensures { result.now ≡ self.now.last }
    {
        self.last()
    }

    /// The digest, which is not copied.
    pub fn into_digest(self) -> Octets
        ensures { result ≡ self.last }
    {
        self.into_last()
    }
}

impl Sealed for CdsFields {}

impl AssociationFields for CdsFields {
    ghost definition = { cds };

    ghost numbers = { λ fields. fields.key_tag ∷ fields.algorithm ∷ fields.digest_type ∷ [] };

    const NAME: &'static str = "Cds";

    fn form() -> RecordForm {
        RecordForm {
            rtype: Rtype::CDS,
            fixed_len: 4,
            least: 0,
            encoding: Encoding::Base16,
            in_brackets: false,
        }
    }

    fn read(octets: &[u8]) -> CdsFields {
        let (key_tag, octets) = split_u16(octets);
        let (algorithm, octets) = split_u8(octets);
        let (digest_type, _) = split_u8(octets);
        CdsFields {
            key_tag,
            algorithm: SecurityAlgorithm::from(algorithm),
            digest_type: DigestAlgorithm::from(digest_type),
        }
    }

    fn octets(&self) -> FieldOctets {
        let algorithm = u8::from(self.algorithm);
        let digest_type = u8::from(self.digest_type);
        FieldOctets::from_u16(self.key_tag, algorithm, digest_type)
    }

    fn scan<S: Scanner>(alloc: Global, scanner: &mut S) -> Result<CdsFields, ScanError> {
        Ok(CdsFields {
            key_tag: scanner.scan_u16(alloc)?,
            algorithm: scanner.scan_number(alloc)?,
            digest_type: scanner.scan_number(alloc)?,
        })
    }

    fn lay_out(&self, f: &mut Formatter) -> Result<(), NoMemory> {
        f.write_decimal(u32::from(self.key_tag))?;
        f.write_comment("key tag")?;
        f.write_number(self.algorithm)?;
        f.write_number(self.digest_type)
    }

    ghost prints = { λ fields. refl };

    ghost is_document = { document-cds };

    ghost is_lawful = { types_are.cds_is };

    ghost equal = { λ a b. equal_three
        (a.key_tag == b.key_tag) (a.algorithm == b.algorithm) (a.digest_type == b.digest_type) };

    ghost ordered = { λ a b. then_three
        (nat_cmp a.key_tag b.key_tag) (nat_cmp a.algorithm b.algorithm)
        (nat_cmp a.digest_type b.digest_type) };

    ghost feeds = { λ fields more. refl };
}

/// The numbers, each with a space behind it.
impl fmt::Display for CdsFields {
    ghost output = { λ fields. Some (numbers_printed
        (fields.key_tag ∷ fields.algorithm ∷ fields.digest_type ∷ [])) };

    fn fmt<W: fmt::Write>(&self, f: &mut fmt::Formatter<W>) -> fmt::Result {
        write!(
            f,
            "{} {} {} ",
            self.key_tag, self.algorithm, self.digest_type
        )
    }
}
