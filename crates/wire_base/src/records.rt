//! What record data is, how it is read, composed and ordered.

ghost use Rattle.std.specs.Prelude.{◌≡◌, ℕ, Bool, List, length, Some, Result, OnOk, OnErr};
ghost use Rattle.name_spec.specs.Octets.{Fault};
ghost use Rattle.name_spec.specs.CanonicalOrder.{canonical_order};
ghost use Rattle.wire_base.specs.Input.{Input};
ghost use Rattle.wire_base.specs.Moving.{AppendsOctets};
ghost use Rattle.wire_base.specs.RecordReading.{DataRead, DataAnswers, place_behind};

use crate::errors::{NoMemory, ParseError};
use crate::parser::Parser;
use crate::rtype::Rtype;
use std::alloc::Global;
use std::cmp::Ordering;

/// The data of a record of one type.
///
/// A type says by `rtype_of` which record type each of its values is of, and proves that `rtype` answers it.
pub trait RecordData {
    /// The number of the record's type (RFC 1035, section 3.2.2).
    ghost rtype_of: { Self → ℕ };

    /// The type of the record.
    fn rtype(&self) -> Rtype
        ensures { result ≡ rtype_of self.now };
}

/// Record data that is composed.
///
/// A type says by `octets` what its data is on the wire, with names uncompressed and each octet as the value has it. It
/// proves that these are at most 65,535 octets, since `rdlen` counts them in 16 bits, that `compose_rdata` appends
/// them, and that `compose_canonical_rdata` appends what its [`CanonicalOrd`] calls `canonical`. So the octets by which
/// data of one type is ordered are those that are composed in canonical form. A type without names has the same octets
/// in both forms; one whose names are lowered in canonical form says so by its own `canonical`.
pub trait ComposeRecordData: RecordData + CanonicalOrd {
    /// The data's octets on the wire.
    ghost octets: { Self → List ℕ };

    /// The count of the data's octets. It is the same whether or not names may be compressed, since none is here, so it
    /// is never None.
    fn rdlen(&self, compress: bool) -> Option<u16>
        ensures { result ≡ Some (length (octets self.now)) };

    /// Appends the data's octets.
    ///
    /// `NoMemory`: an allocation failed; the target's octets are unchanged.
    fn compose_rdata(&self, target: &mut Vec<u8>) -> Result<(), NoMemory>
        ensures appends { AppendsOctets target.old.items target.new.items
            (octets self.now) result };

    /// Appends the data's octets in canonical form (RFC 4034, section 6.2), by which `canonical_cmp` orders data of one
    /// type.
    ///
    /// `NoMemory`: an allocation failed; the target's octets are unchanged.
    fn compose_canonical_rdata(&self, target: &mut Vec<u8>) -> Result<(), NoMemory>
        ensures appends { AppendsOctets target.old.items target.new.items
            (Self.canonical self.now) result };

    /// What `canonical_cmp` compares first is the number of the record's type.
    ghost by_type: { (found : Self) → Self.group found ≡ Self.rtype_of found };
}

/// Record data that is read from a message.
///
/// A type says by `takes` which type numbers it takes, by `reads` what the octets from a place up to the end of the
/// data are under such a number and where they end, or which fault they have, and by `seen` how contracts see data that
/// was read. It proves that `parse_rdata` answers by these, and where the parser then stands.
pub trait ParseRecordData: RecordData + Sized + Drop {
    /// What contracts see of record data.
    ghost Seen: { Type 0 };

    /// Record data, as contracts see it.
    ghost seen: { Self → Seen };

    /// Whether the type takes a type number.
    ghost takes: { ℕ → Bool };

    /// What the octets from the parser's place on are under a type number that the type takes, and the place behind
    /// them; or their first fault.
    ghost reads: { ℕ → Input → Result (DataRead Seen) Fault };

    /// The record data at the parser's place, which then goes behind it. None exactly where the type doesn't take the
    /// type number; then nothing is read.
    ///
    /// `ShortInput`, `Form`: the first fault of the octets. `NoMemory`: they have no fault, and an allocation for what
    /// was read failed. The parser is then unchanged.
    fn parse_rdata(
        alloc: Global,
        rtype: Rtype,
        parser: &mut Parser<'_>,
    ) -> Result<Option<Self>, ParseError>
        ensures answer { DataAnswers seen result (takes rtype)
            (reads rtype parser.old) }
        ensures ok { OnOk result (parser.new ≡ record parser.old
            { pos = place_behind parser.old.pos (takes rtype) (reads rtype parser.old) }) }
        ensures err { OnErr result (parser.new ≡ parser.old) };
}

/// The canonical order of record data, or of a part of it (RFC 4034, section 6.3).
///
/// A type says by `group` and `canonical` what the order goes by, and proves that `canonical_cmp` is that order. Of
/// record data `group` is the number of the record's type, and `canonical` what is composed in canonical form, as
/// [`ComposeRecordData`] asks. Of a part of record data `group` is any one number for all values of the type.
pub trait CanonicalOrd {
    /// The number that is compared first.
    ghost group: { Self → ℕ };

    /// The octets in canonical form (RFC 4034, section 6.2), which are compared next, octet by octet.
    ghost canonical: { Self → List ℕ };

    /// The canonical order: by `group`, and then by `canonical`, where a prefix of the other's octets comes first. It
    /// allocates nothing.
    fn canonical_cmp(&self, other: &Self) -> Ordering
        ensures { result ≡ canonical_order
            (group self.now) (canonical self.now) (group other.now) (canonical other.now) };
}
