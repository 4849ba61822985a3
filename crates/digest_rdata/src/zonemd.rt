//! Record data of ZONEMD.

ghost use Rattle.std.specs.Prelude.{◌≡◌, ◌+◌, ◌≤◌, ◌==◌, [], ◌∷◌, Some, refl, length};
ghost use Rattle.std.specs.Ordering.{nat_cmp};
ghost use Rattle.record_spec.specs.Rows.{zonemd};
ghost use Rattle.record_spec.specs.Texts.{numbers_printed};
ghost use Rattle.record_spec.specs.DocumentLaws.{document-zonemd};
ghost use Rattle.record_laws.proofs.Types.{types_are};
ghost use Rattle.digest_rdata.specs.ComparingLaws.{equal_three, then_three};
ghost use Rattle.digest_rdata.specs.Making.{MakesData};

use crate::association_data::AssociationData;
use crate::association_fields::AssociationFields;
use crate::field_octets::FieldOctets;
use crate::octets::{split_u8, split_u32};
use crate::record_form::RecordForm;
use crate::sealed::Sealed;
use dns_text::{Formatter, Scanner};
use key_registry::{ZonemdAlgorithm, ZonemdScheme};
use record_spec::Encoding;
use std::alloc::Global;
use std::fmt;
use text_spec::ScanError;
use wire_base::{LongRecordData, NoMemory, Octets, Rtype};
use wire_records::Serial;

/// The data of a ZONEMD record (RFC 8976, section 2): a digest of a zone.
pub type Zonemd = AssociationData<ZonemdFields>;

/// The fixed fields of [`Zonemd`].
#[derive(Clone, Copy, Debug, PartialEq, Eq, PartialOrd, Ord, Hash)]
pub struct ZonemdFields {
    /// The serial number of the zone.
    pub serial: Serial,
    /// The scheme by which the zone is collated.
    pub scheme: ZonemdScheme,
    /// The algorithm of the digest.
    pub algorithm: ZonemdAlgorithm,
}

impl Zonemd {
    /// The data of its fields, which has at most 65,535 octets. No memory is taken.
    pub fn new(
        serial: Serial,
        scheme: ZonemdScheme,
        algorithm: ZonemdAlgorithm,
        digest: Octets,
    ) -> Zonemd
        requires { 6 + length digest ≤ 65535 }
        ensures { result ≡ record {
          fields = record { serial = serial; scheme = scheme; algorithm = algorithm };
          last = digest;
        } }
    {
        AssociationData::from_checked_parts(
            ZonemdFields {
                serial,
                scheme,
                algorithm,
            },
            digest,
        )
    }

    /// The data of its fields. No memory is taken.
    ///
    /// `LongRecordData`: it would have more than 65,535 octets. The digest is then dropped.
    pub fn try_new(
        serial: Serial,
        scheme: ZonemdScheme,
        algorithm: ZonemdAlgorithm,
        digest: Octets,
    ) -> Result<Zonemd, LongRecordData>
        ensures { MakesData (record {
          fields = record { serial = serial; scheme = scheme; algorithm = algorithm };
          last = digest;
        }) (6 + length digest) result }
    {
        Zonemd::check_last(&digest)?;
        Ok(Zonemd::new(serial, scheme, algorithm, digest))
    }

    /// The serial number of the zone.
    pub fn serial(&self) -> Serial
        ensures { result ≡ self.now.fields.serial }
    {
        self.fields().serial
    }

    /// The scheme by which the zone is collated.
    pub fn scheme(&self) -> ZonemdScheme
        ensures { result ≡ self.now.fields.scheme }
    {
        self.fields().scheme
    }

    /// The algorithm of the digest.
    pub fn algorithm(&self) -> ZonemdAlgorithm
        ensures { result ≡ self.now.fields.algorithm }
    {
        self.fields().algorithm
    }

    /// The digest.
    pub fn digest(&self) -> &Octets
        ensures { result.now ≡ self.now.last }
    {
        self.last()
    }
}

impl Sealed for ZonemdFields {}

impl AssociationFields for ZonemdFields {
    ghost definition = { zonemd };

    ghost numbers = { λ fields. fields.serial ∷ fields.scheme ∷ fields.algorithm ∷ [] };

    const NAME: &'static str = "Zonemd";

    fn form() -> RecordForm {
        RecordForm {
            rtype: Rtype::ZONEMD,
            fixed_len: 6,
            least: 12,
            encoding: Encoding::Base16,
            in_brackets: true,
        }
    }

    fn read(octets: &[u8]) -> ZonemdFields {
        let (serial, octets) = split_u32(octets);
        let (scheme, octets) = split_u8(octets);
        let (algorithm, _) = split_u8(octets);
        ZonemdFields {
            serial: Serial::from_int(serial),
            scheme: ZonemdScheme::from(scheme),
            algorithm: ZonemdAlgorithm::from(algorithm),
        }
    }

    fn octets(&self) -> FieldOctets {
        let serial = self.serial.into_int();
        let scheme = u8::from(self.scheme);
        let algorithm = u8::from(self.algorithm);
        FieldOctets::from_u32(serial, scheme, algorithm)
    }

    fn scan<S: Scanner>(alloc: Global, scanner: &mut S) -> Result<ZonemdFields, ScanError> {
        Ok(ZonemdFields {
            serial: Serial::from_int(scanner.scan_u32(alloc)?),
            scheme: scanner.scan_number(alloc)?,
            algorithm: scanner.scan_number(alloc)?,
        })
    }

    fn lay_out(&self, f: &mut Formatter) -> Result<(), NoMemory> {
        f.write_decimal(self.serial.into_int())?;
        f.write_number(self.scheme)?;
        f.write_number(self.algorithm)
    }

    ghost prints = { λ fields. refl };

    ghost is_document = { document-zonemd };

    ghost is_lawful = { types_are.zonemd_is };

    ghost equal = { λ a b. equal_three
        (a.serial == b.serial) (a.scheme == b.scheme) (a.algorithm == b.algorithm) };

    ghost ordered = { λ a b. then_three
        (nat_cmp a.serial b.serial) (nat_cmp a.scheme b.scheme)
        (nat_cmp a.algorithm b.algorithm) };

    ghost feeds = { λ fields more. refl };
}

/// The numbers, each with a space behind it.
impl fmt::Display for ZonemdFields {
    ghost output = { λ fields. Some (numbers_printed
        (fields.serial ∷ fields.scheme ∷ fields.algorithm ∷ [])) };

    fn fmt<W: fmt::Write>(&self, f: &mut fmt::Formatter<W>) -> fmt::Result {
        write!(f, "{} {} {} ", self.serial, self.scheme, self.algorithm)
    }
}
