//! Data of records that is borrowed: what the types of this crate share.

ghost use Rattle.std.specs.Prelude.{◌≡◌, Some, length, IfOk};
ghost use Rattle.std.specs.List.{fold};
ghost use Rattle.dns_text.specs.Writing.{Shows};
ghost use Rattle.wire_base.specs.Moving.{AppendsOctets};
ghost use Rattle.record_spec.specs.RecordData.{rtype_of, union_wire};
ghost use Rattle.record_spec.specs.UnionTexts.{union_printed};
ghost use Rattle.record_spec.specs.UnionDocumentLaws.{union_document};
ghost use Rattle.rdata_union.specs.Views.{data_of_all, data_of_ref};
ghost use Rattle.rdata_union.specs.Comparing.{is_same_union, union_cmp, union_hash_input, unknown_rank};

use crate::all_data::AllRecordData;
use crate::each_type::each_type;
use digest_rdata::{Cds, Sshfp, Tlsa, Zonemd};
use dns_text::{Formatter, ZonefileFmt};
use key_rdata::{Cdnskey, Ipseckey, Openpgpkey};
use std::alloc::Global;
use std::cmp::Ordering;
use std::fmt;
use std::hash::{Hash, Hasher};
use svcb_rdata::{Https, Svcb};
use wire_base::{ComposeRecordData, NoMemory, RecordData, Rtype};
use wire_records::{A, Aaaa, UnknownRecordData};

/// The data of a record of any type, borrowed.
#[derive(Clone, Copy)]
pub(crate) enum RecordDataRef<'a> {
    /// An IPv4 address.
    A(&'a A),
    /// An IPv6 address.
    Aaaa(&'a Aaaa),
    /// The fingerprint of a key of a host.
    Sshfp(&'a Sshfp),
    /// A key for IPsec.
    Ipseckey(&'a Ipseckey),
    /// A certificate of a TLS service.
    Tlsa(&'a Tlsa),
    /// A digest of a key for the parent zone.
    Cds(&'a Cds),
    /// A key for the parent zone.
    Cdnskey(&'a Cdnskey),
    /// An OpenPGP key.
    Openpgpkey(&'a Openpgpkey),
    /// A digest of a zone.
    Zonemd(&'a Zonemd),
    /// A service and its parameters.
    Svcb(&'a Svcb),
    /// An HTTPS service and its parameters.
    Https(&'a Https),
    /// Octets under any type number.
    Unknown(&'a UnknownRecordData),
}

impl RecordDataRef<'_> {
    /// The type of the record.
    pub(crate) fn rtype(self) -> Rtype
        ensures { result ≡ rtype_of (data_of_ref self.entry) }
    {
        each_type!(RecordDataRef, self, data => data.rtype())
    }

    /// The count of octets.
    pub(crate) fn rdlen(self, compress: bool) -> Option<u16>
        ensures { result ≡ Some (length (union_wire (data_of_ref self.entry))) }
    {
        each_type!(RecordDataRef, self, data => data.rdlen(compress))
    }

    /// Appends the octets.
    ///
    /// Fails only with `NoMemory`: allocation failed; the target's octets are unchanged.
    pub(crate) fn compose(self, target: &mut Vec<u8>) -> Result<(), NoMemory>
        ensures { AppendsOctets target.old.items target.new.items
            (union_wire (data_of_ref self.entry)) result }
    {
        each_type!(RecordDataRef, self, data => data.compose_rdata(target))
    }

    /// Lays out the data.
    ///
    /// Fails only with `NoMemory`: allocation failed; a prefix of the items may be laid out.
    pub(crate) fn lay_out(self, f: &mut Formatter) -> Result<(), NoMemory>
        ensures { Shows f.old (union_document (data_of_ref self.entry)) f.new result }
    {
        each_type!(RecordDataRef, self, data => data.fmt_zone(f))
    }

    /// A copy.
    ///
    /// Fails only with `NoMemory`: allocation failed.
    pub(crate) fn to_owned_data(self, alloc: Global) -> Result<AllRecordData, NoMemory>
        ensures { IfOk result (λ copy. data_of_all copy ≡ data_of_ref self.entry) }
    {
        match self {
            RecordDataRef::A(data) => Ok(AllRecordData::A(*data)),
            RecordDataRef::Aaaa(data) => Ok(AllRecordData::Aaaa(*data)),
            RecordDataRef::Sshfp(data) => Ok(AllRecordData::Sshfp(data.try_clone(alloc)?)),
            RecordDataRef::Ipseckey(data) => Ok(AllRecordData::Ipseckey(data.try_clone(alloc)?)),
            RecordDataRef::Tlsa(data) => Ok(AllRecordData::Tlsa(data.try_clone(alloc)?)),
            RecordDataRef::Cds(data) => Ok(AllRecordData::Cds(data.try_clone(alloc)?)),
            RecordDataRef::Cdnskey(data) => Ok(AllRecordData::Cdnskey(data.try_clone(alloc)?)),
            RecordDataRef::Openpgpkey(data) => Ok(AllRecordData::Openpgpkey(data.try_clone(
                alloc,
            )?)),
            RecordDataRef::Zonemd(data) => Ok(AllRecordData::Zonemd(data.try_clone(alloc)?)),
            RecordDataRef::Svcb(data) => Ok(AllRecordData::Svcb(data.try_clone(alloc)?)),
            RecordDataRef::Https(data) => Ok(AllRecordData::Https(data.try_clone(alloc)?)),
            RecordDataRef::Unknown(data) => Ok(AllRecordData::Unknown(data.try_clone(alloc)?)),
        }
    }

    /// 1 for data that is held as octets under any type number, 0 for all other.
    fn unknown_rank(self) -> u8
        ensures { result ≡ unknown_rank (data_of_ref self.entry) }
    {
        match self {
            RecordDataRef::Unknown(_) => 1,
            _ => 0,
        }
    }

    /// Whether the data is equal.
    pub(crate) fn is_same(self, other: RecordDataRef<'_>) -> bool
        ensures { result ≡ is_same_union (data_of_ref self.entry) (data_of_ref other.entry) }
    {
        each_type!(
            RecordDataRef, (self, other), (data, other) => data == other;
            _ => false,
        )
    }

    /// The order of the data.
    pub(crate) fn compare(self, other: RecordDataRef<'_>) -> Ordering
        ensures { result ≡ union_cmp (data_of_ref self.entry) (data_of_ref other.entry) }
    {
        each_type!(
            RecordDataRef, (self, other), (data, other) => data.cmp(other);
            _ => self
                .rtype()
                .cmp(&other.rtype())
                .then(self.unknown_rank().cmp(&other.unknown_rank())),
        )
    }

    /// Feeds the number of the type and what the data holds.
    pub(crate) fn feed<H: Hasher>(self, state: &mut H)
        ensures { state.new ≡ fold H.write state.old (union_hash_input (data_of_ref self.entry)) }
    {
        self.rtype().hash(state);
        each_type!(
            RecordDataRef, self,
            data => data.hash(state),
            Unknown => data.octets().hash(state)
        )
    }
}

/// The text of the data.
impl fmt::Display for RecordDataRef<'_> {
    ghost output = { λ found. Some (union_printed (data_of_ref found)) };

    fn fmt<W: fmt::Write>(&self, f: &mut fmt::Formatter<W>) -> fmt::Result {
        each_type!(RecordDataRef, self, data => write!(f, "{data}"))
    }
}
