//! The canonical order of data of any type.

ghost use Rattle.std.specs.Prelude.{◌≡◌};
ghost use Rattle.std.specs.Ordering.{nat_cmp};
ghost use Rattle.std.specs.Cmp.Lexicographic.{slice_cmp};
ghost use Rattle.name_spec.specs.CanonicalOrder.{canonical_order};
ghost use Rattle.svcb_spec.specs.Records.{rdata};
ghost use Rattle.record_spec.specs.RecordData.{rtype_of, union_wire};
ghost use Rattle.rdata_union.specs.Views.{data_of_ref};

use crate::data_ref::RecordDataRef;
use crate::each_type::each_type;
use digest_rdata::prefix_cmp;
use std::cmp::Ordering;
use svcb_rdata::SvcbRdata;
use wire_base::{CanonicalOrd, RecordData};

impl RecordDataRef<'_> {
    /// The canonical order: by the number of the type, then the octets. No memory is taken.
    #[tactic(auto, using(digest_rdata::proofs::Prefixes::turned))]
    pub(crate) fn canonical_compare(self, other: RecordDataRef<'_>) -> Ordering
        ensures { result ≡ canonical_order
            (rtype_of (data_of_ref self.entry)) (union_wire (data_of_ref self.entry))
            (rtype_of (data_of_ref other.entry)) (union_wire (data_of_ref other.entry)) }
    {
        each_type!(
            RecordDataRef, (self, other), (data, other) => data.canonical_cmp(other);
            (data, RecordDataRef::Unknown(other)) => data
                .rtype()
                .cmp(&other.rtype())
                .then(data.octets_cmp(other.octets())),
            (RecordDataRef::Unknown(data), other) => data
                .rtype()
                .cmp(&other.rtype())
                .then(other.octets_cmp(data.octets()).reverse()),
            _ => self.rtype().cmp(&other.rtype()),
        )
    }

    /// The order of the data's octets against others.
    fn octets_cmp(self, octets: &[u8]) -> Ordering
        ensures { result ≡ slice_cmp nat_cmp (union_wire (data_of_ref self.entry)) octets.now }
    {
        match self {
            RecordDataRef::A(data) => data.addr().octets().as_slice().cmp(octets),
            RecordDataRef::Aaaa(data) => data.addr().octets().as_slice().cmp(octets),
            RecordDataRef::Sshfp(data) => data.octets_cmp(octets),
            RecordDataRef::Ipseckey(data) => data.octets_cmp(octets),
            RecordDataRef::Tlsa(data) => data.octets_cmp(octets),
            RecordDataRef::Cds(data) => data.octets_cmp(octets),
            RecordDataRef::Cdnskey(data) => data.octets_cmp(octets),
            RecordDataRef::Openpgpkey(data) => data.octets_cmp(octets),
            RecordDataRef::Zonemd(data) => data.octets_cmp(octets),
            RecordDataRef::Svcb(data) => svcb_cmp(data, octets),
            RecordDataRef::Https(data) => svcb_cmp(data, octets),
            RecordDataRef::Unknown(data) => data.octets().cmp(octets),
        }
    }
}

/// The order of the octets of an SVCB or HTTPS record's data against others.
fn svcb_cmp<V>(found: &SvcbRdata<V>, octets: &[u8]) -> Ordering
    ensures { result ≡ slice_cmp nat_cmp
        (rdata found.now.priority found.now.labels found.now.pairs) octets.now }
{
    let (by_priority, octets) = prefix_cmp(&found.priority().to_be_bytes(), octets);
    let (by_target, octets) = prefix_cmp(found.target().as_slice(), octets);
    by_priority.then(by_target.then(found.params().as_slice().cmp(octets)))
}
