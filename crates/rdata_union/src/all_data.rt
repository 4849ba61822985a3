//! Data of records of any type.

ghost use Rattle.std.specs.Prelude.{◌≡◌, ◌↔◌, true, Err, IfOk, OnOk, OnErr, IsErrOf};
ghost use Rattle.name_spec.specs.Octets.{Short, Form};
ghost use Rattle.wire_base.specs.Faults.{GivesCopy};
ghost use Rattle.wire_base.specs.Moving.{TakesAll};
ghost use Rattle.wire_base.specs.RecordReading.{place_behind};
ghost use Rattle.wire_base.specs.declared.errors.ParseError.TheVariants as errors;
ghost use Rattle.record_spec.specs.UnionReading.{union_read};
ghost use Rattle.rdata_union.specs.Views.{data_of_all, data_of_zone, data_of_ref, value_read};
ghost use Rattle.rdata_union.specs.WholeData.{GivesWhole};

use crate::data_ref::RecordDataRef;
use crate::each_type::each_type;
use crate::zone_data::ZoneRecordData;
use digest_rdata::{Cds, Sshfp, Tlsa, Zonemd};
use key_rdata::{Cdnskey, Ipseckey, Openpgpkey};
use std::alloc::Global;
use svcb_rdata::{Https, Svcb};
use wire_base::{NoMemory, ParseError, Parser, Rtype};
use wire_records::{A, Aaaa, UnknownRecordData};

/// The data of a record of any type, in a zone or not: by its fields where there is a type of data for it, else as
/// octets under the number of its type. Data whose type has fields may be held as octets too.
///
/// Data is compared by the number of its type; of one type, data that is held by its fields comes before data that is
/// held as octets; then its own type compares it.
#[derive(Debug, Drop)]
pub enum AllRecordData {
    /// An IPv4 address.
    A(A),
    /// An IPv6 address.
    Aaaa(Aaaa),
    /// The fingerprint of a key of a host.
    Sshfp(Sshfp),
    /// A key for IPsec.
    Ipseckey(Ipseckey),
    /// A certificate of a TLS service.
    Tlsa(Tlsa),
    /// A digest of a key for the parent zone.
    Cds(Cds),
    /// A key for the parent zone.
    Cdnskey(Cdnskey),
    /// An OpenPGP key.
    Openpgpkey(Openpgpkey),
    /// A digest of a zone.
    Zonemd(Zonemd),
    /// A service and its parameters.
    Svcb(Svcb),
    /// An HTTPS service and its parameters.
    Https(Https),
    /// Octets under any type number.
    Unknown(UnknownRecordData),
}

impl AllRecordData {
    /// Reads the data of a record with the number of its type: by its fields where there is a type of data under that
    /// number, else as octets.
    ///
    /// After an error the parser is unchanged.
    ///
    /// - `ShortInput`, `Form`: the first fault of the data, as its type's own `parse` says.
    /// - `NoMemory`: the data has no fault, but allocation failed.
    #[tactic(auto, using(crate::proofs::ReadingAnswers::short_given, crate::proofs::ReadingAnswers::form_given))]
    pub fn parse_any_rdata(
        alloc: Global,
        rtype: Rtype,
        parser: &mut Parser<'_>,
    ) -> Result<AllRecordData, ParseError>
        ensures answer { GivesCopy data_of_all result
            (value_read (union_read rtype parser.old)) }
        ensures ok { OnOk result (parser.new ≡ record parser.old
            { pos = place_behind parser.old.pos true (union_read rtype parser.old) }) }
        ensures err { OnErr result (parser.new ≡ parser.old) }

        // Each fault of the data by itself.
        ensures short_input { IsErrOf result errors.ShortInput
            ↔ (union_read rtype parser.old ≡ Err Short) }
        ensures form { IsErrOf result errors.Form ↔ (union_read rtype parser.old ≡ Err Form) }
    {
        AllRecordData::read(alloc, rtype, parser)
    }

    /// Reads the data that all octets before the end of the data are, with the number of its type.
    ///
    /// After an error the parser is unchanged.
    ///
    /// - `ShortInput`, `Form`: the first fault of the data, as [`parse_any_rdata`](Self::parse_any_rdata) says.
    /// - `Form`: octets are left behind the data.
    /// - `NoMemory`: the data has no fault, but allocation failed.
    pub fn parse_whole(
        alloc: Global,
        rtype: Rtype,
        parser: &mut Parser<'_>,
    ) -> Result<AllRecordData, ParseError>
        ensures answer { GivesWhole data_of_all result parser.old.end
            (union_read rtype parser.old) }
        ensures takes { TakesAll parser.old parser.new result }
    {
        let mut part = parser.fork();
        match AllRecordData::parse_any_rdata(alloc, rtype, &mut part) {
            Ok(data) => {
                if part.remaining() > 0 {
                    return Err(ParseError::Form);
                }
                parser.advance_to_end();
                Ok(data)
            }
            Err(error) => Err(error),
        }
    }

    /// The data that its type reads.
    fn read(
        alloc: Global,
        rtype: Rtype,
        parser: &mut Parser<'_>,
    ) -> Result<AllRecordData, ParseError>
        ensures answer { GivesCopy data_of_all result
            (value_read (union_read rtype parser.old)) }
        ensures ok { OnOk result (parser.new ≡ record parser.old
            { pos = place_behind parser.old.pos true (union_read rtype parser.old) }) }
        ensures err { OnErr result (parser.new ≡ parser.old) }
    {
        match rtype {
            Rtype::A => Ok(AllRecordData::A(A::parse(parser)?)),
            Rtype::AAAA => Ok(AllRecordData::Aaaa(Aaaa::parse(parser)?)),
            Rtype::SSHFP => Ok(AllRecordData::Sshfp(Sshfp::parse(alloc, parser)?)),
            Rtype::IPSECKEY => Ok(AllRecordData::Ipseckey(Ipseckey::parse(alloc, parser)?)),
            Rtype::TLSA => Ok(AllRecordData::Tlsa(Tlsa::parse(alloc, parser)?)),
            Rtype::CDS => Ok(AllRecordData::Cds(Cds::parse(alloc, parser)?)),
            Rtype::CDNSKEY => Ok(AllRecordData::Cdnskey(Cdnskey::parse(alloc, parser)?)),
            Rtype::OPENPGPKEY => Ok(AllRecordData::Openpgpkey(Openpgpkey::parse(alloc, parser)?)),
            Rtype::ZONEMD => Ok(AllRecordData::Zonemd(Zonemd::parse(alloc, parser)?)),
            Rtype::SVCB => Ok(AllRecordData::Svcb(Svcb::parse(alloc, parser)?)),
            Rtype::HTTPS => Ok(AllRecordData::Https(Https::parse(alloc, parser)?)),
            _ => Ok(AllRecordData::Unknown(UnknownRecordData::parse(alloc, rtype, parser)?)),
        }
    }

    /// The same data of a record in a zone. No memory is taken.
    pub fn into_zone_data(self) -> ZoneRecordData
        ensures { data_of_zone result ≡ data_of_all self }
    {
        each_type!(AllRecordData as ZoneRecordData, self)
    }

    /// A copy.
    ///
    /// Fails only with `NoMemory`: allocation failed.
    pub fn try_clone(&self, alloc: Global) -> Result<AllRecordData, NoMemory>
        ensures { IfOk result (λ copy. data_of_all copy ≡ data_of_all self.now) }
    {
        self.for_ref().to_owned_data(alloc)
    }

    /// The same data, borrowed. No memory is taken.
    pub(crate) fn for_ref(&self) -> RecordDataRef<'_>
        ensures { data_of_ref result ≡ data_of_all self.now }
    {
        each_type!(AllRecordData as RecordDataRef, self)
    }
}
