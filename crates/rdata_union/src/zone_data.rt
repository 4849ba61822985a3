//! Data of the records of a zone.

ghost use Rattle.std.specs.Prelude.{◌≡◌, IfOk};
ghost use Rattle.text_spec.specs.Scanning.{Scan, Scans, ScansPart};
ghost use Rattle.text_spec.specs.ReadingBack.{ReadsBack};
ghost use Rattle.record_spec.specs.UnionTexts.{scan_fields, scan_any, union_scan, union_printed};
ghost use Rattle.record_laws.specs.UnionLaws.{IsDataUnder};
ghost use Rattle.rdata_union.specs.Views.{data_of_zone, data_of_ref};

use crate::data_ref::RecordDataRef;
use crate::each_type::each_type;
use digest_rdata::{Cds, Sshfp, Tlsa, Zonemd};
use dns_text::{Scanner, scan_a, scan_aaaa, scan_unknown};
use key_rdata::{Cdnskey, Ipseckey, Openpgpkey};
use std::alloc::Global;
use svcb_rdata::{Https, Svcb};
use text_spec::ScanError;
use wire_base::{NoMemory, Rtype};
use wire_records::{A, Aaaa, UnknownRecordData};

/// The data of a record in a zone, whatever its type: by its fields where there is a type of data for it, else as
/// octets under the number of its type. Data whose type has fields may be held as octets too, as an entry with the
/// marker `\#` of unknown data (RFC 3597, section 5) writes it.
///
/// Data is compared by the number of its type; of one type, data that is held by its fields comes before data that is
/// held as octets; then its own type compares it.
///
/// To scan the text of a zone file entry, under the number of its type, and compose it:
///
/// ```
/// use dns_text::{Entry, EntryScanner};
/// use rdata_union::ZoneRecordData;
/// use std::alloc::Global;
/// use text_spec::ScanError;
/// use wire_base::{ComposeRecordData, Rtype};
///
/// fn composed(alloc: Global, rtype: Rtype, text: &[u8]) -> Result<Vec<u8>, ScanError> {
///     let mut scanner = EntryScanner::new(Entry::from_text(text)?);
///     let data = ZoneRecordData::scan(alloc, rtype, &mut scanner)?;
///     let mut octets = Vec::new(alloc);
///     data.compose_rdata(&mut octets)?;
///     Ok(octets)
/// }
/// ```
#[derive(Debug, Drop)]
pub enum ZoneRecordData {
    /// An IPv4 address.
    A(A),
    /// An IPv6 address.
    Aaaa(Aaaa),
    /// The fingerprint of a key of a host.
    Sshfp(Sshfp),
    /// A key for IPsec.
    Ipseckey(Ipseckey),
    /// A certificate of a TLS service.
    Tlsa(Tlsa),
    /// A digest of a key for the parent zone.
    Cds(Cds),
    /// A key for the parent zone.
    Cdnskey(Cdnskey),
    /// An OpenPGP key.
    Openpgpkey(Openpgpkey),
    /// A digest of a zone.
    Zonemd(Zonemd),
    /// A service and its parameters.
    Svcb(Svcb),
    /// An HTTPS service and its parameters.
    Https(Https),
    /// Octets under any type number.
    Unknown(UnknownRecordData),
}

impl ZoneRecordData {
    /// Scans the data that all tokens left spell under the number of its type: behind the marker of data of any
    /// type, octets (RFC 3597, section 5), whatever the number; else the fields of the type.
    ///
    /// - The errors of [`scan_unknown`] behind the marker, and else of the type's own `scan`: these name where the
    ///   scanner then stands.
    /// - `UnknownType`: there is no marker, and there is no type of data under that number. The scanner is unchanged.
    /// - `TrailingTokens`: a token is left behind the data. The scanner stands before it.
    /// - `NoMemory`: allocation failed. The scanner is where it was before the call.
    ///
    /// The tokens of the printed text of data are scanned under the number of its type as that data, or allocation
    /// fails. IPSECKEY data whose key is missing is left out.
    #[tactic(auto, using(record_laws::proofs::ReadingBack::union_read_back))]
    pub fn scan<S: Scanner>(
        alloc: Global,
        rtype: Rtype,
        scanner: &mut S,
    ) -> Result<ZoneRecordData, ScanError>
        ensures scans { Scans data_of_zone (union_scan rtype)
            (S.scan scanner.old) (S.scan scanner.new) result }
        ensures read_back { ReadsBack data_of_zone (IsDataUnder rtype) union_printed
            (S.scan scanner.old) result }
    {
        let place = scanner.taken();
        let outcome = scan_whole(alloc, rtype, scanner);
        scanner.rewind_on_no_memory(place, outcome)
    }

    /// A copy.
    ///
    /// Fails only with `NoMemory`: allocation failed.
    pub fn try_clone(&self, alloc: Global) -> Result<ZoneRecordData, NoMemory>
        ensures { IfOk result (λ copy. data_of_zone copy ≡ data_of_zone self.now) }
    {
        Ok(self.for_ref().to_owned_data(alloc)?.into_zone_data())
    }

    /// The same data, borrowed. No memory is taken.
    pub(crate) fn for_ref(&self) -> RecordDataRef<'_>
        ensures { data_of_ref result ≡ data_of_zone self.now }
    {
        each_type!(ZoneRecordData as RecordDataRef, self)
    }
}

/// The data, behind which no token is left. Where allocation fails, tokens may have been taken.
fn scan_whole<S: Scanner>(
    alloc: Global,
    rtype: Rtype,
    scanner: &mut S,
) -> Result<ZoneRecordData, ScanError>
    ensures { ScansPart data_of_zone (union_scan rtype)
        (S.scan scanner.old) (S.scan scanner.new) result }
{
    let found = scan_any(alloc, rtype, scanner)?;
    scanner.check_end()?;
    Ok(found)
}

/// Octets behind the marker, else the fields. Where allocation fails, tokens may have been taken.
fn scan_any<S: Scanner>(
    alloc: Global,
    rtype: Rtype,
    scanner: &mut S,
) -> Result<ZoneRecordData, ScanError>
    ensures { ScansPart data_of_zone (scan_any rtype)
        (S.scan scanner.old) (S.scan scanner.new) result }
{
    if scanner.scan_opt_unknown_marker() {
        return Ok(ZoneRecordData::Unknown(scan_unknown(alloc, rtype, scanner)?));
    }
    scan_fields(alloc, rtype, scanner)
}

/// The fields of the type.
///
/// `UnknownType`: there is no type of data under that number. The scanner is unchanged.
fn scan_fields<S: Scanner>(
    alloc: Global,
    rtype: Rtype,
    scanner: &mut S,
) -> Result<ZoneRecordData, ScanError>
    ensures { Scans data_of_zone (scan_fields rtype)
        (S.scan scanner.old) (S.scan scanner.new) result }
{
    match rtype {
        Rtype::A => Ok(ZoneRecordData::A(scan_a(alloc, scanner)?)),
        Rtype::AAAA => Ok(ZoneRecordData::Aaaa(scan_aaaa(alloc, scanner)?)),
        Rtype::SSHFP => Ok(ZoneRecordData::Sshfp(Sshfp::scan(alloc, scanner)?)),
        Rtype::IPSECKEY => Ok(ZoneRecordData::Ipseckey(Ipseckey::scan(alloc, scanner)?)),
        Rtype::TLSA => Ok(ZoneRecordData::Tlsa(Tlsa::scan(alloc, scanner)?)),
        Rtype::CDS => Ok(ZoneRecordData::Cds(Cds::scan(alloc, scanner)?)),
        Rtype::CDNSKEY => Ok(ZoneRecordData::Cdnskey(Cdnskey::scan(alloc, scanner)?)),
        Rtype::OPENPGPKEY => Ok(ZoneRecordData::Openpgpkey(Openpgpkey::scan(alloc, scanner)?)),
        Rtype::ZONEMD => Ok(ZoneRecordData::Zonemd(Zonemd::scan(alloc, scanner)?)),
        Rtype::SVCB => Ok(ZoneRecordData::Svcb(Svcb::scan(alloc, scanner)?)),
        Rtype::HTTPS => Ok(ZoneRecordData::Https(Https::scan(alloc, scanner)?)),
        _ => Err(ScanError::UnknownType),
    }
}
