//! Data of records of any type as record data, and as text.

ghost use Rattle.std.specs.Prelude.{◌≡◌, true, Some, refl};
ghost use Rattle.record_spec.specs.RecordData.{RecordData, rtype_of, union_wire};
ghost use Rattle.record_spec.specs.UnionReading.{union_read};
ghost use Rattle.record_spec.specs.UnionTexts.{union_printed};
ghost use Rattle.record_spec.specs.UnionDocumentLaws.{union_document, document-union};
ghost use Rattle.rdata_union.specs.Views.{data_of_all};

use crate::all_data::AllRecordData;
use dns_text::{Formatter, ZonefileFmt};
use std::alloc::Global;
use std::cmp::Ordering;
use std::fmt;
use wire_base::{
    CanonicalOrd, ComposeRecordData, NoMemory, ParseError, ParseRecordData, Parser, RecordData,
    Rtype,
};

impl RecordData for AllRecordData {
    ghost rtype_of = { λ found. rtype_of (data_of_all found) };

    fn rtype(&self) -> Rtype {
        self.for_ref().rtype()
    }
}

/// Both forms are the same octets.
impl ComposeRecordData for AllRecordData {
    ghost octets = { λ found. union_wire (data_of_all found) };

    fn rdlen(&self, compress: bool) -> Option<u16> {
        self.for_ref().rdlen(compress)
    }

    fn compose_rdata(&self, target: &mut Vec<u8>) -> Result<(), NoMemory> {
        self.for_ref().compose(target)
    }

    fn compose_canonical_rdata(&self, target: &mut Vec<u8>) -> Result<(), NoMemory> {
        self.compose_rdata(target)
    }

    ghost by_type = { λ _. refl };
}

/// Each type number is taken: that of a type with fields as these, any other as octets.
impl ParseRecordData for AllRecordData {
    ghost Seen = { RecordData };

    ghost seen = { data_of_all };

    ghost takes = { λ rtype. true };

    ghost reads = { union_read };

    fn parse_rdata(
        alloc: Global,
        rtype: Rtype,
        parser: &mut Parser<'_>,
    ) -> Result<Option<AllRecordData>, ParseError> {
        let found = AllRecordData::parse_any_rdata(alloc, rtype, parser)?;
        Ok(Some(found))
    }
}

/// By the number of the type, then the octets.
impl CanonicalOrd for AllRecordData {
    ghost group = { λ found. rtype_of (data_of_all found) };

    ghost canonical = { λ found. union_wire (data_of_all found) };

    fn canonical_cmp(&self, other: &AllRecordData) -> Ordering {
        self.for_ref().canonical_compare(other.for_ref())
    }
}

/// The text of the data. Data that is held as octets is printed so, whatever its type.
impl fmt::Display for AllRecordData {
    ghost output = { λ found. Some (union_printed (data_of_all found)) };

    fn fmt<W: fmt::Write>(&self, f: &mut fmt::Formatter<W>) -> fmt::Result {
        write!(f, "{}", self.for_ref())
    }
}

/// The layout of the data.
impl ZonefileFmt for AllRecordData {
    ghost document = { λ found. union_document (data_of_all found) };

    ghost is_document = { λ found. document-union (data_of_all found) };

    fn fmt_zone(&self, f: &mut Formatter) -> Result<(), NoMemory> {
        self.for_ref().lay_out(f)
    }
}
