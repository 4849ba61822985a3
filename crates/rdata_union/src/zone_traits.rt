//! Data of the records of a zone as record data, and as text.

ghost use Rattle.std.specs.Prelude.{◌≡◌, true, Some, refl};
ghost use Rattle.record_spec.specs.RecordData.{RecordData, rtype_of, union_wire};
ghost use Rattle.record_spec.specs.UnionReading.{union_read};
ghost use Rattle.record_spec.specs.UnionTexts.{union_printed};
ghost use Rattle.record_spec.specs.UnionDocumentLaws.{union_document, document-union};
ghost use Rattle.rdata_union.specs.Views.{data_of_zone};

use crate::all_data::AllRecordData;
use crate::zone_data::ZoneRecordData;
use dns_text::{Formatter, ZonefileFmt};
use std::alloc::Global;
use std::cmp::Ordering;
use std::fmt;
use wire_base::{
    CanonicalOrd, ComposeRecordData, NoMemory, ParseError, ParseRecordData, Parser, RecordData,
    Rtype,
};

impl RecordData for ZoneRecordData {
    ghost rtype_of = { λ found. rtype_of (data_of_zone found) };

    fn rtype(&self) -> Rtype {
        self.for_ref().rtype()
    }
}

/// Both forms are the same octets.
impl ComposeRecordData for ZoneRecordData {
    ghost octets = { λ found. union_wire (data_of_zone found) };

    fn rdlen(&self, compress: bool) -> Option<u16> {
        self.for_ref().rdlen(compress)
    }

    fn compose_rdata(&self, target: &mut Vec<u8>) -> Result<(), NoMemory> {
        self.for_ref().compose(target)
    }

    fn compose_canonical_rdata(&self, target: &mut Vec<u8>) -> Result<(), NoMemory> {
        self.compose_rdata(target)
    }

    ghost by_type = { λ _. refl };
}

/// Each type number is taken: that of a type with fields as these, any other as octets.
impl ParseRecordData for ZoneRecordData {
    ghost Seen = { RecordData };

    ghost seen = { data_of_zone };

    ghost takes = { λ rtype. true };

    ghost reads = { union_read };

    fn parse_rdata(
        alloc: Global,
        rtype: Rtype,
        parser: &mut Parser<'_>,
    ) -> Result<Option<ZoneRecordData>, ParseError> {
        let found = AllRecordData::parse_any_rdata(alloc, rtype, parser)?;
        Ok(Some(found.into_zone_data()))
    }
}

/// By the number of the type, then the octets.
impl CanonicalOrd for ZoneRecordData {
    ghost group = { λ found. rtype_of (data_of_zone found) };

    ghost canonical = { λ found. union_wire (data_of_zone found) };

    fn canonical_cmp(&self, other: &ZoneRecordData) -> Ordering {
        self.for_ref().canonical_compare(other.for_ref())
    }
}

/// The text of the data. Data that is held as octets is printed so, whatever its type.
impl fmt::Display for ZoneRecordData {
    ghost output = { λ found. Some (union_printed (data_of_zone found)) };

    fn fmt<W: fmt::Write>(&self, f: &mut fmt::Formatter<W>) -> fmt::Result {
        write!(f, "{}", self.for_ref())
    }
}

/// The layout of the data.
impl ZonefileFmt for ZoneRecordData {
    ghost document = { λ found. union_document (data_of_zone found) };

    ghost is_document = { λ found. document-union (data_of_zone found) };

    fn fmt_zone(&self, f: &mut Formatter) -> Result<(), NoMemory> {
        self.for_ref().lay_out(f)
    }
}
