//! Record data of any type.

ghost use Rattle.std.specs.Prelude.{◌≡◌, ◌≤◌, ◌<◌, [], ◌∷◌, Some, refl, length, IfOk, OnOk, OnErr};
ghost use Rattle.wire_base.specs.Faults.{GivesCopy};
ghost use Rattle.wire_base.specs.Input.{octets_left};
ghost use Rattle.wire_base.specs.Moving.{TakesAll};
ghost use Rattle.wire_records.specs.Reading.{unknown_read};
ghost use Rattle.wire_records.specs.Texts.{unknown_text};

use crate::base16::Base16;
use std::alloc::Global;
use std::cmp::Ordering;
use std::fmt;
use std::marker::Model;
use wire_base::{
    CanonicalOrd, ComposeRecordData, LongRecordData, NoMemory, Octets, ParseError, Parser,
    RecordData, Rtype,
};

/// Record data of any type: the type, and at most 65,535 octets, which have no meaning here. Data of a type that has a
/// struct of its own may be kept so too. Data is compared by the number of its type, then octet by octet.
#[derive(Debug, Drop)]
pub struct UnknownRecordData {
    rtype: Rtype,
    octets: Octets,
}

impl Model for UnknownRecordData {
    ghost use Rattle.std.specs.Prelude.{◌≤◌, length};
    ghost use Rattle.wire_records.specs.UnknownView.{UnknownData};

    ghost Value = { UnknownData };

    ghost view = { λ found. record { rtype = found.rtype; octets = found.octets } };

    ghost invariant = { λ found. length found.octets ≤ 65535 };
}

impl UnknownRecordData {
    /// The data of a type and its octets, which are not copied.
    ///
    /// `LongRecordData`: there are more than 65,535 octets. They are then dropped.
    pub fn new(rtype: Rtype, octets: Octets) -> Result<UnknownRecordData, LongRecordData>
        ensures made { IfOk result
            (λ made. made ≡ record { rtype = rtype; octets = octets }) }
        ensures ok { OnOk result (length octets ≤ 65535) }
        ensures long { OnErr result (65535 < length octets) }
    {
        LongRecordData::check_len(octets.len())?;
        Ok(UnknownRecordData { rtype, octets })
    }

    /// Reads the data in all octets before the end of the data, and copies it.
    ///
    /// `Form`: there are more than 65,535 octets; this is tested before anything is allocated. `NoMemory`: an
    /// allocation failed. The parser is then unchanged.
    pub fn parse(
        alloc: Global,
        rtype: Rtype,
        parser: &mut Parser<'_>,
    ) -> Result<UnknownRecordData, ParseError>
        ensures answer { GivesCopy (λ found. found) result
            (unknown_read rtype (octets_left parser.old)) }
        ensures takes { TakesAll parser.old parser.new result }
    {
        let slice = parser.remaining_octets();
        LongRecordData::check_len(slice.len())?;
        let octets = Octets::from_slice(alloc, slice)?;
        parser.advance_to_end();
        Ok(UnknownRecordData { rtype, octets })
    }

    /// The octets.
    pub fn octets(&self) -> &[u8]
        ensures octets { result.now ≡ self.now.octets }
        ensures fits { length self.now.octets ≤ 65535 }
    {
        self.octets.as_slice()
    }

    /// A copy.
    ///
    /// `NoMemory`: an allocation failed.
    pub fn try_clone(&self, alloc: Global) -> Result<UnknownRecordData, NoMemory>
        ensures { IfOk result (λ copy. copy ≡ self.now) }
    {
        Ok(UnknownRecordData {
            rtype: self.rtype,
            octets: self.octets.try_clone(alloc)?,
        })
    }
}

/// The text of data without a type of its own (RFC 3597, section 5): `\#`, the count of octets in decimal, and, where
/// there are octets, these in base16 with upper-case digits, as `\# 2 0A0B`.
impl fmt::Display for UnknownRecordData {
    ghost output = { λ found. Some (unknown_text found.octets) };

    fn fmt<W: fmt::Write>(&self, f: &mut fmt::Formatter<W>) -> fmt::Result {
        let octets = self.octets();
        write!(f, "\\# {}", octets.len())?;
        if octets.is_empty() {
            return Ok(());
        }
        let is_upper = true;
        write!(f, " {}", Base16 { octets, is_upper })
    }
}

impl RecordData for UnknownRecordData {
    ghost rtype_of = { λ found. found.rtype };

    fn rtype(&self) -> Rtype {
        self.rtype
    }
}

/// Both forms are the octets as they are held.
impl ComposeRecordData for UnknownRecordData {
    ghost octets = { λ found. found.octets };

    fn rdlen(&self, _compress: bool) -> Option<u16> {
        Some(self.octets().len() as u16)
    }

    fn compose_rdata(&self, target: &mut Vec<u8>) -> Result<(), NoMemory> {
        target.extend_from_slice(self.octets())?;
        Ok(())
    }

    fn compose_canonical_rdata(&self, target: &mut Vec<u8>) -> Result<(), NoMemory> {
        self.compose_rdata(target)
    }

    ghost by_type = { λ _. refl };
}

/// By the number of the type, then the octets.
impl CanonicalOrd for UnknownRecordData {
    ghost group = { λ found. found.rtype };

    ghost canonical = { λ found. found.octets };

    fn canonical_cmp(&self, other: &UnknownRecordData) -> Ordering {
        self.cmp(other)
    }
}
