//! Record data of fixed fields and a last field.

ghost use Rattle.std.specs.Prelude.{◌≡◌, ◌==◌, ◌+◌, ◌≤◌, ◌<◌, length, [], ◌∷◌, Some, IfOk, OnOk, OnErr, IsErrOf, refl};
ghost use Rattle.std.specs.Ordering.{nat_cmp};
ghost use Rattle.std.specs.Cmp.Lexicographic.{slice_cmp};
ghost use Rattle.text_spec.specs.Layouts.{Token};
ghost use Rattle.text_spec.specs.Scanning.{Scans, ScansPart};
ghost use Rattle.text_spec.specs.ReadingBack.{ReadsBack};
ghost use Rattle.dns_text.specs.Writing.{Writes, Shows};
ghost use Rattle.wire_base.specs.Faults.{GivesCopy};
ghost use Rattle.wire_base.specs.Input.{octets_left};
ghost use Rattle.wire_base.specs.Moving.{TakesAll, AppendsOctets};
ghost use Rattle.record_spec.specs.Rows.{Data, IsAssociationData, fixed_len};
ghost use Rattle.record_spec.specs.Wire.{data_wire, read_data, fields_read};
ghost use Rattle.record_spec.specs.Texts.{scan_data, rest_encoded, fields_printed};
ghost use Rattle.record_spec.specs.Documents.{last_field_text, data_document};
ghost use Rattle.digest_rdata.specs.LayoutParts.{data_items};
ghost use Rattle.digest_rdata.specs.FieldsView.{FieldsView, data_of};
ghost use Rattle.digest_rdata.specs.Making.{MakesData};

use crate::association_fields::AssociationFields;
use crate::last_field::EncodedOctets;
use crate::octets::count_octets;
use crate::prefix::prefix_cmp;
use dns_text::{Formatter, Scanner, ZonefileFmt};
use record_spec::Encoding;
use std::alloc::Global;
use std::cmp::Ordering;
use std::fmt;
use std::marker::Model;
use text_spec::ScanError;
use wire_base::{
    CanonicalOrd, ComposeRecordData, LongRecordData, NoMemory, Octets, ParseError, ParseRecordData,
    Parser, RecordData, Rtype,
};

/// The data of a record that ties a name to a key, a digest or a certificate: numbers in fixed fields `F`, and a last
/// field of octets that takes the rest, at most 65,535 octets in all. [`Tlsa`](crate::Tlsa), [`Cds`](crate::Cds) and
/// the others are this type over their own fields, so that reading, composing, scanning, printing and comparing stand
/// once.
///
/// Contracts see the fields and the octets of the last field. Data is compared by its fixed fields in wire order, each
/// as a number, then by the last field, octet by octet.
#[derive(Drop)]
pub struct AssociationData<F: AssociationFields> {
    fields: F,
    last: Octets,
}

impl<F: AssociationFields> Model for AssociationData<F> {
    ghost use Rattle.std.specs.Prelude.{◌≤◌, ◌+◌, length};
    ghost use Rattle.record_spec.specs.Rows.{fixed_len};
    ghost use Rattle.digest_rdata.specs.FieldsView.{FieldsView};

    ghost Value = { FieldsView F };

    ghost view = { λ found. record { fields = found.fields; last = found.last } };

    ghost invariant = { λ found. fixed_len F.definition.fields + length found.last ≤ 65535 };
}

impl<F: AssociationFields> AssociationData<F> {
    /// The data of its fields. No memory is taken.
    ///
    /// `LongRecordData`: it would have more than 65,535 octets. The last field is then dropped.
    pub(crate) fn from_parts(fields: F, last: Octets) -> Result<AssociationData<F>, LongRecordData>
        ensures { MakesData (record { fields = fields; last = last })
            (fixed_len F.definition.fields + length last) result }
    {
        AssociationData::<F>::check_last(&last)?;
        Ok(AssociationData { fields, last })
    }

    /// Tests whether data with this last field has at most 65,535 octets.
    ///
    /// `LongRecordData`: it would have more.
    pub(crate) fn check_last(last: &Octets) -> Result<(), LongRecordData>
        ensures ok { OnOk result (fixed_len F.definition.fields + length last.now ≤ 65535) }
        ensures long { OnErr result (65535 < fixed_len F.definition.fields + length last.now) }
    {
        LongRecordData::check_append_len(usize::from(F::form().fixed_len), last.len())
    }

    /// The data of fields that are known to have at most 65,535 octets. No memory is taken.
    pub(crate) fn from_checked_parts(fields: F, last: Octets) -> AssociationData<F>
        requires { fixed_len F.definition.fields + length last ≤ 65535 }
        ensures { result ≡ record { fields = fields; last = last } }
    {
        AssociationData { fields, last }
    }

    /// Reads the data in all octets before the end of the data, and copies it.
    ///
    /// The first of these errors that applies is returned, and the parser is then unchanged.
    ///
    /// - `ShortInput`: an octet of a fixed field is missing, or the last field has fewer octets than the type asks for.
    /// - `Form`: there are more than 65,535 octets.
    /// - `NoMemory`: the data has no fault, but allocation failed.
    pub fn parse(alloc: Global, parser: &mut Parser<'_>) -> Result<AssociationData<F>, ParseError>
        ensures answer { GivesCopy (data_of F.numbers) result
            (read_data F.definition (octets_left parser.old)) }
        ensures takes { TakesAll parser.old parser.new result }
        ensures short { IsErrOf result ParseError.ShortInput
            → length (octets_left parser.old) < fixed_len F.definition.fields + F.definition.least }
        ensures form { IsErrOf result ParseError.Form → 65535 < length (octets_left parser.old) }
    {
        let octets = parser.remaining_octets();
        let form = F::form();
        let fixed_len = usize::from(form.fixed_len);
        if octets.len() < fixed_len + usize::from(form.least) {
            return Err(ParseError::ShortInput);
        }
        LongRecordData::check_len(octets.len())?;
        let fields = F::read(octets);
        let last = Octets::from_slice(alloc, &octets[fixed_len..])?;
        parser.advance_to_end();
        Ok(AssociationData { fields, last })
    }

    /// Scans the data: a number text for each fixed field, and all tokens left, joined, as the last field; it has no
    /// octets where no token is left. The scanner then stands at the end of the entry.
    ///
    /// Each error leaves the scanner at a place of its own:
    ///
    /// - `EndOfEntry`: no token is left for a fixed field. The scanner stands at the end of the entry.
    /// - `BadNumber`: a token is no number text that fits its field. The scanner stands before that token.
    /// - `BadBase16`, `BadBase64`: the tokens left, joined, are not a text in that encoding. The scanner stands before
    ///   the first of them.
    /// - `LongRecord`: the data would have more than 65,535 octets. The scanner stands at the end of the entry.
    /// - `NoMemory`: allocation failed. The scanner is where it was before the call.
    ///
    /// Whatever the data, the tokens of its printed text are scanned as that data, or allocation fails.
    #[tactic(auto, using(record_laws::proofs::ReadingBack::fields_read_back))]
    pub fn scan<S: Scanner>(alloc: Global, scanner: &mut S) -> Result<AssociationData<F>, ScanError>
        ensures scans { Scans (data_of F.numbers) (scan_data F.definition)
            (S.scan scanner.old) (S.scan scanner.new) result }
        ensures read_back { ReadsBack (data_of F.numbers) (IsAssociationData F.definition)
            (fields_printed F.definition) (S.scan scanner.old) result }
    {
        let place = scanner.taken();
        let outcome = AssociationData::scan_parts(alloc, scanner);
        scanner.rewind_on_no_memory(place, outcome)
    }

    /// The same, but tokens may have been taken where allocation fails.
    #[tactic(auto, using(crate::proofs::Parts::scan_parts))]
    fn scan_parts<S: Scanner>(
        alloc: Global,
        scanner: &mut S,
    ) -> Result<AssociationData<F>, ScanError>
        ensures { ScansPart (data_of F.numbers) (scan_data F.definition)
            (S.scan scanner.old) (S.scan scanner.new) result }
    {
        let fields = F::scan(alloc, scanner)?;
        let last = AssociationData::<F>::scan_last(alloc, scanner)?;
        match AssociationData::from_parts(fields, last) {
            Ok(found) => Ok(found),
            Err(_) => Err(ScanError::LongRecord),
        }
    }

    /// The octets that all tokens left, joined, spell; none where no token is left.
    ///
    /// `BadBase16`, `BadBase64`: the tokens joined are not a text in that encoding. `NoMemory`: allocation failed. The
    /// scanner is unchanged after each.
    fn scan_last<S: Scanner>(alloc: Global, scanner: &mut S) -> Result<Octets, ScanError>
        ensures { Scans (λ octets. octets) (rest_encoded F.definition.encoding)
            (S.scan scanner.old) (S.scan scanner.new) result }
    {
        match F::form().encoding {
            Encoding::Base16 => scanner.scan_rest_base16(alloc),
            Encoding::Base64 => scanner.scan_rest_base64(alloc),
        }
    }

    /// Lays out the last field as a token; base16 is in upper case.
    ///
    /// Fails only with `NoMemory`: allocation failed; the layout is unchanged.
    fn lay_out_last(&self, f: &mut Formatter) -> Result<(), NoMemory>
        ensures { Writes f.old (Token (last_field_text F.definition.encoding self.now.last) ∷ [])
            f.new result }
    {
        match F::form().encoding {
            Encoding::Base16 => f.write_base16(self.last.as_slice()),
            Encoding::Base64 => f.write_base64(self.last.as_slice()),
        }
    }

    /// Lays out the fixed fields and the last field.
    ///
    /// Fails only with `NoMemory`: allocation failed; a prefix of the items may be laid out.
    fn lay_out(&self, f: &mut Formatter) -> Result<(), NoMemory>
        ensures shows { Shows f.old (data_items F.definition (data_of F.numbers self.now))
            f.new result }
        ensures blocks { OnOk result (f.new.layout.blocks ≡ f.old.layout.blocks) }
    {
        self.fields.lay_out(f)?;
        self.lay_out_last(f)
    }

    /// A copy.
    ///
    /// Fails only with `NoMemory`: allocation failed.
    pub fn try_clone(&self, alloc: Global) -> Result<AssociationData<F>, NoMemory>
        ensures { IfOk result (λ copy. copy ≡ self.now) }
    {
        Ok(AssociationData {
            fields: self.fields,
            last: self.last.try_clone(alloc)?,
        })
    }

    /// The fixed fields.
    pub(crate) fn fields(&self) -> &F
        ensures { result.now ≡ self.now.fields }
    {
        &self.fields
    }

    /// The last field.
    pub(crate) fn last(&self) -> &Octets
        ensures { result.now ≡ self.now.last }
    {
        &self.last
    }

    /// The last field, which is not copied.
    pub(crate) fn into_last(self) -> Octets
        ensures { result ≡ self.last }
    {
        let AssociationData { last, .. } = self;
        last
    }

    /// The count of octets.
    fn len(&self) -> u16
        ensures len { result ≡ length (data_wire F.definition (data_of F.numbers self.now)) }
        ensures is_data { IsAssociationData F.definition (data_of F.numbers self.now) }
    {
        let fixed = self.fields.octets();
        let last = self.last.as_slice();
        fixed.as_slice().len() as u16 + count_octets(last)
    }

    /// The order of the data's octets against others, as those of data of the same type that is held as octets.
    pub fn octets_cmp(&self, octets: &[u8]) -> Ordering
        ensures { result ≡ slice_cmp nat_cmp
            (data_wire F.definition (data_of F.numbers self.now)) octets.now }
    {
        let fixed = self.fields().octets();
        let (by_fields, rest) = prefix_cmp(fixed.as_slice(), octets);
        by_fields.then(self.last().as_slice().cmp(rest))
    }
}

/// What `F` is called, with the fields.
impl<F: AssociationFields> fmt::Debug for AssociationData<F> {
    fn fmt<W: fmt::Write>(&self, f: &mut fmt::Formatter<W>) -> fmt::Result {
        f.debug_struct(F::NAME)
            .field("fields", &self.fields)
            .field("last", &self.last)
            .finish()
    }
}

/// The fixed fields as decimal numbers, each with a space behind it, and the last field.
impl<F: AssociationFields> fmt::Display for AssociationData<F> {
    ghost output = { λ found. Some (fields_printed F.definition (data_of F.numbers found)) };

    fn fmt<W: fmt::Write>(&self, f: &mut fmt::Formatter<W>) -> fmt::Result {
        let form = F::form();
        let last = EncodedOctets {
            octets: self.last.as_slice(),
            encoding: form.encoding,
            in_brackets: form.in_brackets,
        };
        write!(f, "{}{last}", self.fields)
    }
}

/// A block of the fixed fields and the last field.
impl<F: AssociationFields> ZonefileFmt for AssociationData<F> {
    ghost document = { λ found. data_document F.definition (data_of F.numbers found) };

    ghost is_document = { λ found. F.is_document (data_of F.numbers found) };

    fn fmt_zone(&self, f: &mut Formatter) -> Result<(), NoMemory> {
        f.begin_block()?;
        self.lay_out(f)?;
        f.end_block()
    }
}

impl<F: AssociationFields> RecordData for AssociationData<F> {
    ghost rtype_of = { λ _. F.definition.rtype };

    fn rtype(&self) -> Rtype {
        F::form().rtype
    }
}

/// Both forms are the octets of the fields.
impl<F: AssociationFields> ComposeRecordData for AssociationData<F> {
    ghost octets = { λ found. data_wire F.definition (data_of F.numbers found) };

    fn rdlen(&self, _compress: bool) -> Option<u16>
        ensures len { result
            ≡ Some (length (data_wire F.definition (data_of F.numbers self.now))) }
        ensures is_data { IsAssociationData F.definition (data_of F.numbers self.now) }
    {
        Some(self.len())
    }

    fn compose_rdata(&self, target: &mut Vec<u8>) -> Result<(), NoMemory> {
        target.reserve(usize::from(self.len()))?;
        let fixed = self.fields().octets();
        target.extend_from_slice(fixed.as_slice()).unwrap();
        target.extend_from_slice(self.last().as_slice()).unwrap();
        Ok(())
    }

    fn compose_canonical_rdata(&self, target: &mut Vec<u8>) -> Result<(), NoMemory> {
        self.compose_rdata(target)
    }

    ghost by_type = { λ _. refl };
}

impl<F: AssociationFields> ParseRecordData for AssociationData<F> {
    ghost Seen = { Data };

    ghost seen = { data_of F.numbers };

    ghost takes = { λ rtype. rtype == F.definition.rtype };

    ghost reads = { λ _. fields_read F.definition };

    fn parse_rdata(
        alloc: Global,
        rtype: Rtype,
        parser: &mut Parser<'_>,
    ) -> Result<Option<AssociationData<F>>, ParseError> {
        if rtype != F::form().rtype {
            return Ok(None);
        }
        let found = AssociationData::parse(alloc, parser)?;
        Ok(Some(found))
    }
}

/// By the octets.
impl<F: AssociationFields> CanonicalOrd for AssociationData<F> {
    ghost group = { λ _. F.definition.rtype };

    ghost canonical = { λ found. data_wire F.definition (data_of F.numbers found) };

    fn canonical_cmp(&self, other: &AssociationData<F>) -> Ordering {
        let fixed = self.fields.octets();
        let others = other.fields.octets();
        let by_fields = fixed.as_slice().cmp(others.as_slice());
        by_fields.then(self.last.cmp(&other.last))
    }
}
