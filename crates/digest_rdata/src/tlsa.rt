//! Record data of TLSA.

ghost use Rattle.std.specs.Prelude.{◌≡◌, ◌+◌, ◌≤◌, ◌==◌, [], ◌∷◌, Some, refl, length};
ghost use Rattle.std.specs.Ordering.{nat_cmp};
ghost use Rattle.record_spec.specs.Rows.{tlsa};
ghost use Rattle.record_spec.specs.Texts.{numbers_printed};
ghost use Rattle.record_spec.specs.DocumentLaws.{document-tlsa};
ghost use Rattle.record_laws.proofs.Types.{types_are};
ghost use Rattle.digest_rdata.specs.ComparingLaws.{equal_three, then_three};
ghost use Rattle.digest_rdata.specs.Making.{MakesData};

use crate::association_data::AssociationData;
use crate::association_fields::AssociationFields;
use crate::field_octets::FieldOctets;
use crate::octets::split_u8;
use crate::record_form::RecordForm;
use crate::sealed::Sealed;
use dns_text::{Formatter, Scanner};
use key_registry::{TlsaCertificateUsage, TlsaMatchingType, TlsaSelector};
use record_spec::Encoding;
use std::alloc::Global;
use std::fmt;
use text_spec::ScanError;
use wire_base::{LongRecordData, NoMemory, Octets, Rtype};

/// The data of a TLSA record (RFC 6698, section 2.1): a certificate of a TLS service, or its digest.
///
/// For `3 1 1` and the SHA-256 digest of a public key:
///
/// ```
/// use digest_rdata::Tlsa;
/// use key_registry::{TlsaCertificateUsage, TlsaMatchingType, TlsaSelector};
/// use wire_base::{LongRecordData, Octets};
///
/// fn pinned(digest: Octets) -> Result<Tlsa, LongRecordData> {
///     let usage = TlsaCertificateUsage::DANE_EE;
///     Tlsa::try_new(usage, TlsaSelector::SPKI, TlsaMatchingType::SHA2_256, digest)
/// }
/// ```
pub type Tlsa = AssociationData<TlsaFields>;

/// The fixed fields of [`Tlsa`].
#[derive(Clone, Copy, Debug, PartialEq, Eq, PartialOrd, Ord, Hash)]
pub struct TlsaFields {
    /// How the certificate is used.
    pub usage: TlsaCertificateUsage,
    /// Which part of the certificate is meant.
    pub selector: TlsaSelector,
    /// How that part is held.
    pub matching_type: TlsaMatchingType,
}

impl Tlsa {
    /// The data of its fields, which has at most 65,535 octets. No memory is taken.
    pub fn new(
        usage: TlsaCertificateUsage,
        selector: TlsaSelector,
        matching_type: TlsaMatchingType,
        association: Octets,
    ) -> Tlsa
        requires { 3 + length association ≤ 65535 }
        ensures { result ≡ record {
          fields = record { usage = usage; selector = selector; matching_type = matching_type };
          last = association;
        } }
    {
        AssociationData::from_checked_parts(
            TlsaFields {
                usage,
                selector,
                matching_type,
            },
            association,
        )
    }

    /// The data of its fields. No memory is taken.
    ///
    /// `LongRecordData`: it would have more than 65,535 octets. The certificate association data is then dropped.
    pub fn try_new(
        usage: TlsaCertificateUsage,
        selector: TlsaSelector,
        matching_type: TlsaMatchingType,
        association: Octets,
    ) -> Result<Tlsa, LongRecordData>
        ensures { MakesData (record {
          fields = record { usage = usage; selector = selector; matching_type = matching_type };
          last = association;
        }) (3 + length association) result }
    {
        Tlsa::check_last(&association)?;
        Ok(Tlsa::new(usage, selector, matching_type, association))
    }

    /// How the certificate is used.
    pub fn usage(&self) -> TlsaCertificateUsage
        ensures { result ≡ self.now.fields.usage }
    {
        self.fields().usage
    }

    /// Which part of the certificate is meant.
    pub fn selector(&self) -> TlsaSelector
        ensures { result ≡ self.now.fields.selector }
    {
        self.fields().selector
    }

    /// How that part is held.
    pub fn matching_type(&self) -> TlsaMatchingType
        ensures { result ≡ self.now.fields.matching_type }
    {
        self.fields().matching_type
    }

    /// The certificate association data.
    pub fn association(&self) -> &Octets
        ensures { result.now ≡ self.now.last }
    {
        self.last()
    }
}

impl Sealed for TlsaFields {}

impl AssociationFields for TlsaFields {
    ghost definition = { tlsa };

    ghost numbers = { λ fields. fields.usage ∷ fields.selector ∷ fields.matching_type ∷ [] };

    const NAME: &'static str = "Tlsa";

    fn form() -> RecordForm {
        RecordForm {
            rtype: Rtype::TLSA,
            fixed_len: 3,
            least: 0,
            encoding: Encoding::Base16,
            in_brackets: true,
        }
    }

    fn read(octets: &[u8]) -> TlsaFields {
        let (usage, octets) = split_u8(octets);
        let (selector, octets) = split_u8(octets);
        let (matching_type, _) = split_u8(octets);
        TlsaFields {
            usage: TlsaCertificateUsage::from(usage),
            selector: TlsaSelector::from(selector),
            matching_type: TlsaMatchingType::from(matching_type),
        }
    }

    fn octets(&self) -> FieldOctets {
        let usage = u8::from(self.usage);
        let selector = u8::from(self.selector);
        let matching_type = u8::from(self.matching_type);
        FieldOctets::first_of([usage, selector, matching_type, 0, 0, 0], 3)
    }

    fn scan<S: Scanner>(alloc: Global, scanner: &mut S) -> Result<TlsaFields, ScanError> {
        Ok(TlsaFields {
            usage: scanner.scan_number(alloc)?,
            selector: scanner.scan_number(alloc)?,
            matching_type: scanner.scan_number(alloc)?,
        })
    }

    fn lay_out(&self, f: &mut Formatter) -> Result<(), NoMemory> {
        f.write_decimal(u32::from(u8::from(self.usage)))?;
        f.write_number(self.selector)?;
        f.write_number(self.matching_type)
    }

    ghost prints = { λ fields. refl };

    ghost is_document = { document-tlsa };

    ghost is_lawful = { types_are.tlsa_is };

    ghost equal = { λ a b. equal_three
        (a.usage == b.usage) (a.selector == b.selector) (a.matching_type == b.matching_type) };

    ghost ordered = { λ a b. then_three
        (nat_cmp a.usage b.usage) (nat_cmp a.selector b.selector)
        (nat_cmp a.matching_type b.matching_type) };

    ghost feeds = { λ fields more. refl };
}

/// The numbers, each with a space behind it.
impl fmt::Display for TlsaFields {
    ghost output = { λ fields. Some (numbers_printed
        (fields.usage ∷ fields.selector ∷ fields.matching_type ∷ [])) };

    fn fmt<W: fmt::Write>(&self, f: &mut fmt::Formatter<W>) -> fmt::Result {
        write!(
            f,
            "{} {} {} ",
            self.usage, self.selector, self.matching_type
        )
    }
}
