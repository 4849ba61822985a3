//! The greatest data.

use digest_rdata::{
    AssociationData, AssociationFields, Cds, CdsFields, Sshfp, SshfpFields, Tlsa, TlsaFields,
    Zonemd, ZonemdFields,
};
use dns_text::{Entry, EntryScanner};
use key_rdata::{Cdnskey, Openpgpkey, OpenpgpkeyFields};
use key_registry::{
    DigestAlgorithm, SecurityAlgorithm, SshfpAlgorithm, SshfpType, TlsaCertificateUsage,
    TlsaMatchingType, TlsaSelector, ZonemdAlgorithm, ZonemdScheme,
};
use std::alloc::Global;
use text_spec::ScanError;
use wire_base::{ComposeRecordData, LongRecordData, NoMemory, Octets, ParseError, Parser};
use wire_records::Serial;

/// So many equal octets between others.
pub(crate) fn filled(
    alloc: Global,
    front: &[u8],
    octet: u8,
    count: usize,
    behind: &[u8],
) -> Result<Vec<u8>, NoMemory> {
    let mut octets = Vec::from_slice(alloc, front)?;
    octets.resize(front.len().saturating_add(count), octet)?;
    octets.extend_from_slice(behind)?;
    Ok(octets)
}

/// The count of octets of the data whose text has so many letters `A`, of base16 or base64, between others.
fn scanned_len<F: AssociationFields>(
    alloc: Global,
    front: &[u8],
    letters: usize,
    behind: &[u8],
) -> Result<Option<u16>, ScanError> {
    let text = filled(alloc, front, b'A', letters, behind)?;
    let entry = Entry::from_text(text.as_slice())?;
    let mut scanner = EntryScanner::new(entry);
    Ok(AssociationData::<F>::scan(alloc, &mut scanner)?.rdlen(false))
}

#[test]
fn texts_of_more_than_65535_octets_are_refused(rt: HostRuntime) {
    let long = Err(ScanError::LongRecord);
    assert!(rt; scanned_len::<CdsFields>(rt.alloc(), b"1 1 1 ", 131062, b"") == Ok(Some(65535)));
    assert!(rt; scanned_len::<CdsFields>(rt.alloc(), b"1 1 1 ", 131064, b"") == long);
    assert!(rt; scanned_len::<SshfpFields>(rt.alloc(), b"12 12 ", 131066, b"") == Ok(Some(65535)));
    assert!(rt; scanned_len::<SshfpFields>(rt.alloc(), b"12 12 ", 131068, b"") == long);
    assert!(rt; scanned_len::<TlsaFields>(rt.alloc(), b"1 1 1 ", 131064, b"") == Ok(Some(65535)));
    assert!(rt; scanned_len::<TlsaFields>(rt.alloc(), b"1 1 1 ", 131066, b"") == long);
    assert!(rt;
        scanned_len::<ZonemdFields>(rt.alloc(), b"12 1 2 ", 131058, b"") == Ok(Some(65535))
    );
    assert!(rt; scanned_len::<ZonemdFields>(rt.alloc(), b"12 1 2 ", 131060, b"") == long);
}

#[test]
fn keys_of_more_than_65535_octets_are_refused(rt: HostRuntime) {
    assert!(rt; scanned_len::<OpenpgpkeyFields>(rt.alloc(), b"", 87380, b"") == Ok(Some(65535)));
    assert!(rt;
        scanned_len::<OpenpgpkeyFields>(rt.alloc(), b"", 87380, b"AA==")
            == Err(ScanError::LongRecord)
    );
}

/// So many octets.
fn octets(alloc: Global, count: usize) -> Result<Octets, NoMemory> {
    Ok(Octets::from_vec(filled(alloc, b"", 7, count, b"")?))
}

/// The count of octets of data, or none where it would be too long.
fn made_len<F: AssociationFields>(made: Result<AssociationData<F>, LongRecordData>) -> Option<u16> {
    made.ok().and_then(|made| made.rdlen(true))
}

/// The counts of octets of CDS and CDNSKEY data whose last field has so many.
fn delegation_lens(alloc: Global, count: usize) -> Result<(Option<u16>, Option<u16>), NoMemory> {
    let digest = octets(alloc, count)?;
    let cds = Cds::new(1, SecurityAlgorithm::DSA, DigestAlgorithm::SHA1, digest);
    let key = octets(alloc, count)?;
    let cdnskey = Cdnskey::new(257, 3, SecurityAlgorithm::DSA, key);
    Ok((made_len(cds), made_len(cdnskey)))
}

/// The same of SSHFP data and its fingerprint.
fn sshfp_len(alloc: Global, count: usize) -> Result<Option<u16>, NoMemory> {
    let fingerprint = octets(alloc, count)?;
    Ok(made_len(Sshfp::try_new(SshfpAlgorithm::RSA, SshfpType::SHA1, fingerprint)))
}

/// The same of TLSA data and its association.
fn tlsa_len(alloc: Global, count: usize) -> Result<Option<u16>, NoMemory> {
    let association = octets(alloc, count)?;
    Ok(made_len(Tlsa::try_new(
        TlsaCertificateUsage::DANE_EE,
        TlsaSelector::SPKI,
        TlsaMatchingType::SHA2_256,
        association,
    )))
}

/// The same of ZONEMD data and its digest.
fn zonemd_len(alloc: Global, count: usize) -> Result<Option<u16>, NoMemory> {
    let digest = octets(alloc, count)?;
    let serial = Serial::from_int(1);
    Ok(made_len(Zonemd::try_new(
        serial,
        ZonemdScheme::SIMPLE,
        ZonemdAlgorithm::SHA384,
        digest,
    )))
}

/// The same of OPENPGPKEY data and its key.
fn openpgpkey_len(alloc: Global, count: usize) -> Result<Option<u16>, NoMemory> {
    Ok(made_len(Openpgpkey::try_new(octets(alloc, count)?)))
}

#[test]
fn fields_of_more_than_65535_octets_are_refused(rt: HostRuntime) {
    let greatest = Some(65535);
    assert!(rt; delegation_lens(rt.alloc(), 65531) == Ok((greatest, greatest)));
    assert!(rt; delegation_lens(rt.alloc(), 65532) == Ok((None, None)));
    assert!(rt; sshfp_len(rt.alloc(), 65533) == Ok(greatest));
    assert!(rt; sshfp_len(rt.alloc(), 65534) == Ok(None));
    assert!(rt; tlsa_len(rt.alloc(), 65532) == Ok(greatest));
    assert!(rt; tlsa_len(rt.alloc(), 65533) == Ok(None));
    assert!(rt; zonemd_len(rt.alloc(), 65529) == Ok(greatest));
    assert!(rt; zonemd_len(rt.alloc(), 65530) == Ok(None));
    assert!(rt; openpgpkey_len(rt.alloc(), 65535) == Ok(greatest));
    assert!(rt; openpgpkey_len(rt.alloc(), 65536) == Ok(None));
}

/// The count of octets of the key that so many octets are.
fn key_len(alloc: Global, count: usize) -> Result<usize, ParseError> {
    let octets = filled(alloc, b"", 7, count, b"")?;
    let mut parser = Parser::from_ref(octets.as_slice());
    let found = Openpgpkey::parse(alloc, &mut parser)?;
    Ok(found.key().len())
}

#[test]
fn octets_above_65535_are_refused(rt: HostRuntime) {
    assert!(rt; key_len(rt.alloc(), 65535) == Ok(65535));
    assert!(rt; key_len(rt.alloc(), 65536) == Err(ParseError::Form));
}
