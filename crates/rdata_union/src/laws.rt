//! What holds of all data, each proved for all values: the premises of the laws of `record_laws` on printed texts, and
//! that data is compared in canonical order. The functions do nothing when they run.

ghost use Rattle.std.specs.Prelude.{◌≡◌, ◌≤◌, length};
ghost use Rattle.name_spec.specs.AddressLaws.{AreOctets};
ghost use Rattle.name_spec.specs.CanonicalOrder.{canonical_order};
ghost use Rattle.text_spec.specs.declared.display_kind.DisplayKind.{DisplayKind};
ghost use Rattle.text_spec.specs.Layouts.{laid_out_text};
ghost use Rattle.record_spec.specs.Rows.{IsAssociationData};
ghost use Rattle.record_spec.specs.Texts.{scan_data, fields_printed};
ghost use Rattle.record_spec.specs.Documents.{data_document};
ghost use Rattle.record_spec.specs.Wire.{data_wire};
ghost use Rattle.record_spec.specs.Comparing.{fields_cmp};
ghost use Rattle.record_spec.specs.Ipseckeys.{IsAddress, IsIpseckey};
ghost use Rattle.record_laws.specs.RecordLaws.{IsScannedAs};
ghost use Rattle.record_laws.specs.UnionLaws.{IsUnionData, IsKeyed};
ghost use Rattle.digest_rdata.specs.FieldsView.{data_of};
ghost use Rattle.rdata_union.specs.Views.{data_of_all, data_of_zone, data_of_ref};

use crate::all_data::AllRecordData;
use crate::data_ref::RecordDataRef;
use crate::zone_data::ZoneRecordData;
use digest_rdata::{AssociationData, AssociationFields};
use key_rdata::Ipseckey;
use record_laws::records::{fields_layout_read_back, fields_text_read_back};
use svcb_rdata::laws::made_of_octets;
use wire_base::ComposeRecordData;
use wire_records::{A, Aaaa, UnknownRecordData};

// The premises of the laws on printed texts.

/// Any data is such as the law on printed texts asks for, where no key of IPSECKEY data is missing.
pub fn any_is_data(found: &AllRecordData)
    ensures { IsKeyed (data_of_all found.now) → IsUnionData (data_of_all found.now) }
{
    ref_is_data(found.for_ref());
}

/// The same of data in a zone.
pub fn zone_is_data(found: &ZoneRecordData)
    ensures { IsKeyed (data_of_zone found.now) → IsUnionData (data_of_zone found.now) }
{
    ref_is_data(found.for_ref());
}

/// The same of data that is borrowed.
fn ref_is_data(found: RecordDataRef<'_>)
    ensures { IsKeyed (data_of_ref found.entry) → IsUnionData (data_of_ref found.entry) }
{
    match found {
        RecordDataRef::A(data) => ipv4_is_address(data),
        RecordDataRef::Aaaa(data) => ipv6_is_address(data),
        RecordDataRef::Sshfp(data) => fields_are_data(data),
        RecordDataRef::Ipseckey(data) => ipseckey_is_data(data),
        RecordDataRef::Tlsa(data) => fields_are_data(data),
        RecordDataRef::Cds(data) => fields_are_data(data),
        RecordDataRef::Cdnskey(data) => fields_are_data(data),
        RecordDataRef::Openpgpkey(data) => fields_are_data(data),
        RecordDataRef::Zonemd(data) => fields_are_data(data),
        RecordDataRef::Svcb(data) => made_of_octets(data),
        RecordDataRef::Https(data) => made_of_octets(data),
        RecordDataRef::Unknown(data) => unknown_is_octets(data),
    }
}

/// The data of an A record is an address of 4 octets.
pub fn ipv4_is_address(found: &A)
    ensures { IsAddress 4 found.now }
{
    are_octets(&found.addr().octets());
}

/// The data of an AAAA record is an address of 16 octets.
pub fn ipv6_is_address(found: &Aaaa)
    ensures { IsAddress 16 found.now }
{
    are_octets(&found.addr().octets());
}

/// The data of the six types of numbers and a last field is of its type: its numbers fit, and so does its length.
pub fn fields_are_data<F: AssociationFields>(found: &AssociationData<F>)
    ensures { IsAssociationData F.definition (data_of F.numbers found.now) }
{
    let _len = found.rdlen(false);
}

/// The text and each layout of such data have tokens, which are scanned as that data: the laws `fields_text_read_back`
/// and `fields_layout_read_back` at these values.
pub fn fields_scanned_back<F: AssociationFields>(found: &AssociationData<F>)
    ensures text { IsScannedAs (scan_data F.definition)
        (fields_printed F.definition (data_of F.numbers found.now)) (data_of F.numbers found.now) }
    ensures layout { (kind : DisplayKind) → IsScannedAs (scan_data F.definition)
        (laid_out_text kind (data_document F.definition (data_of F.numbers found.now)))
        (data_of F.numbers found.now) }
{
    fields_are_data(found);
    fields_text_read_back();
    fields_layout_read_back();
}

/// The data of an IPSECKEY record is of its type, with its key or without.
pub fn ipseckey_is_data(found: &Ipseckey)
    ensures { IsIpseckey found.now }
{
    let _len = found.rdlen(false);
}

/// Data of any type is at most 65,535 octets.
pub fn unknown_is_octets(found: &UnknownRecordData)
    ensures octets { AreOctets found.now.octets }
    ensures fits { length found.now.octets ≤ 65535 }
{
    are_octets(found.octets());
}

/// Octets are numbers below 256.
#[tactic(auto, using(text_spec::proofs::EncodingTexts::AreOctets_from))]
fn are_octets(octets: &[u8])
    ensures { AreOctets octets.now }
{}

// The canonical order.

/// Data of the six types of numbers and a last field is compared in canonical order (RFC 4034, section 6.3): `cmp`
/// answers what `canonical_cmp` does.
pub fn cmp_is_canonical<F: AssociationFields>(
    found: &AssociationData<F>,
    other: &AssociationData<F>,
)
    ensures { fields_cmp (data_of F.numbers found.now) (data_of F.numbers other.now)
        ≡ canonical_order
        F.definition.rtype (data_wire F.definition (data_of F.numbers found.now))
        F.definition.rtype (data_wire F.definition (data_of F.numbers other.now)) }
{
    fields_are_data(found);
    fields_are_data(other);
}
