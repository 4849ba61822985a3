//! Record data of SVCB and HTTPS as text (RFC 9460, section 2.1).

ghost use Rattle.std.specs.Prelude.{◌≡◌, Some};
ghost use Rattle.name_spec.specs.Printed.{printed_name_with_dot};
ghost use Rattle.text_spec.specs.Scanning.{Scan, Scans, ScansPart};
ghost use Rattle.svcb_spec.specs.DataTexts.{svcb_printed, svcb_data};
ghost use Rattle.svcb_spec.specs.DataDocuments.{svcb_document};
ghost use Rattle.svcb_spec.specs.DataDocumentLaws.{document-svcb};
ghost use Rattle.text_spec.specs.ReadingBack.{ReadsBack};
ghost use Rattle.svcb_laws.specs.DataTextLaws.{IsRecordOfOctets};
ghost use Rattle.svcb_rdata.specs.Reading.{record_of};

use crate::rdata::SvcbRdata;
use crate::svcb_ref::SvcbRef;
use dns_text::{Formatter, Scanner, ZonefileFmt};
use std::alloc::Global;
use std::fmt;
use svcb_params::SvcParams;
use text_spec::ScanError;
use wire_base::{NoMemory, ParsedName};

impl<V> SvcbRdata<V> {
    /// The data that all tokens left spell: the priority, the target, and the parameters in any order.
    ///
    /// The first fault in reading order refuses it, and the scanner then stands where is said here. `BadNumber`: the
    /// first token is no number text of at most 65,535; before it. `BadName`: the second is no name text, as
    /// [`Scanner::scan_name`] reads it; before it. `EndOfEntry`: one of these two is missing; at the entry's end. A
    /// fault of the parameters: as [`SvcParams::scan`] has it. `LongRecord`: the data would have more than 65,535
    /// octets; at the entry's end. `NoMemory`: allocation failed; where the scan began.
    ///
    /// Whatever the data, the tokens of its printed text are scanned as that data, or allocation fails: no data is
    /// left out.
    #[tactic(auto, using(crate::proofs::TextLemmas::reads_back))]
    pub fn scan<S: Scanner>(alloc: Global, scanner: &mut S) -> Result<SvcbRdata<V>, ScanError>
        ensures scans { Scans (λ found. found) svcb_data
            (S.scan scanner.old) (S.scan scanner.new) result }
        ensures read_back { ReadsBack (λ found. found) IsRecordOfOctets svcb_printed
            (S.scan scanner.old) result }
    {
        let place = scanner.taken();
        let outcome = scan_parts(alloc, scanner);
        scanner.rewind_on_no_memory(place, outcome)
    }
}

/// The same, when allocation fails tokens may be taken.
fn scan_parts<V, S: Scanner>(alloc: Global, scanner: &mut S) -> Result<SvcbRdata<V>, ScanError>
    ensures { ScansPart (λ found. found) svcb_data
        (S.scan scanner.old) (S.scan scanner.new) result }
{
    let priority = scanner.scan_u16(alloc)?;
    let target = scanner.scan_name(alloc)?;
    let params = SvcParams::scan(alloc, scanner)?;
    SvcbRdata::new(priority, target, params).map_err(|_| ScanError::LongRecord)
}

/// The priority, the target with its final dot and the parameters, with a space between two of them: data without
/// parameters ends in a space.
impl<V> fmt::Display for SvcbRdata<V> {
    ghost output = { λ found. Some (svcb_printed found) };

    fn fmt<W: fmt::Write>(&self, f: &mut fmt::Formatter<W>) -> fmt::Result {
        let target = self.target().fmt_with_dot();
        write!(f, "{} {} {}", self.priority(), target, self.params())
    }
}

/// A target in a message as absolute text: its pointers followed, with the final dot.
#[derive(Clone, Copy)]
struct DottedTarget<'n, 'm> {
    name: &'n ParsedName<'m>,
}

impl fmt::Display for DottedTarget<'_, '_> {
    ghost output = { λ dotted. Some (printed_name_with_dot dotted.name.now.labels) };

    #[tactic(auto, using(crate::proofs::PrintedTargets::with_final_dot))]
    fn fmt<W: fmt::Write>(&self, f: &mut fmt::Formatter<W>) -> fmt::Result {
        let name = self.name;
        let mut labels = name.labels();
        match labels.next() {
            Some(_) => write!(f, "{name}."),
            None => f.write_str("."),
        }
    }
}

/// The text of the same data by itself, its target's pointers followed.
impl<V> fmt::Display for SvcbRef<'_, V> {
    ghost output = { λ found. Some (svcb_printed (record_of found)) };

    fn fmt<W: fmt::Write>(&self, f: &mut fmt::Formatter<W>) -> fmt::Result {
        let target = DottedTarget {
            name: self.target(),
        };
        let params = self.params();
        write!(f, "{} {target} {params}", self.priority())
    }
}

/// A block: the priority and the target with its final dot, each with a comment that names it, and the block of the
/// parameters.
impl<V> ZonefileFmt for SvcbRdata<V> {
    ghost document = { λ found. svcb_document found };

    ghost is_document = { λ found. document-svcb found };

    fn fmt_zone(&self, f: &mut Formatter) -> Result<(), NoMemory> {
        f.begin_block()?;
        f.write_decimal(u32::from(self.priority()))?;
        f.write_comment("priority")?;
        f.write_name(self.target())?;
        f.write_comment("target")?;
        f.write_show(self.params())?;
        f.end_block()
    }
}
