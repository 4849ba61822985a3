//! Checks of records that lines spell: which endpoints a client chooses, whether CDS and CDNSKEY records ask for the
//! same keys, whether a zone has the digest of its ZONEMD record.

ghost use Rattle.std.specs.Prelude.{◌≡◌, ◌≢◌, length};
ghost use Rattle.input_lines.specs.ReportView.{answer_view};
ghost use Rattle.commands.specs.Choose.{due_of_choose};
ghost use Rattle.commands.specs.Cds.{due_of_cds};
ghost use Rattle.commands.specs.Zonemd.{due_of_zonemd};
ghost use Rattle.svcb_c.specs.Answers.{answer_status, IsAnswered};
ghost use Rattle.svcb_c.specs.declared.status.TheConstants.{HW_OK, HW_E_ROOM, HW_E_MEMORY};

use crate::buffers::hand_out;
use crate::status::{HW_E_MEMORY, HW_OK};
use commands::{cds_answer, choose_answer, zonemd_answer};
use input_lines::report::Answer;
use std::alloc::Global;
use wire_base::NoMemory;

/// Hands out an answer: the count of its report's octets, and where there is room the report and how the check ended.
fn hand_out_answer(
    answer: &Answer,
    target: &mut [u8],
    written: &mut usize,
    outcome: &mut u32,
) -> u32
    ensures status { result ≡ answer_status (answer_view answer.now) (length target.old) }
    ensures answer { result ≡ HW_OK
        → IsAnswered (answer_view answer.now) outcome.new written.new target.old target.new }
    ensures written { written.new ≡ length (answer_view answer.now).report }
    ensures kept_target { result ≢ HW_OK → target.new ≡ target.old }
    ensures kept_outcome { result ≢ HW_OK → outcome.new ≡ outcome.old }
{
    let status = hand_out(answer.report.as_bytes(), target, written);
    if status == HW_OK {
        *outcome = u32::from(answer.outcome.status());
    }
    status
}

/// The endpoints that a client chooses for an owner from its SVCB or HTTPS records (RFC 9460, sections 2.4 and 2.5).
/// Line 1 is the owner, line 2 the keys that the client understands, line 3 the protocols that the scheme has by
/// itself, and each other line a record's data in hexadecimal.
#[unsafe(no_mangle)]
pub extern "C" fn hw_svcb_choose(
    alloc: Global,
    lines: &[u8],
    target: &mut [u8],
    written: &mut usize,
    outcome: &mut u32,
) -> u32
    ensures status { result ≢ HW_E_MEMORY
        → result ≡ answer_status (due_of_choose lines.now) (length target.old) }
    ensures answer { result ≡ HW_OK
        → IsAnswered (due_of_choose lines.now) outcome.new written.new target.old target.new }
    ensures room { result ≡ HW_E_ROOM → written.new ≡ length (due_of_choose lines.now).report }
    ensures kept_target { result ≢ HW_OK → target.new ≡ target.old }
    ensures kept_outcome { result ≢ HW_OK → outcome.new ≡ outcome.old }
{
    match choose_answer(alloc, lines) {
        Ok(answer) => hand_out_answer(&answer, target, written, outcome),
        Err(NoMemory) => HW_E_MEMORY,
    }
}

/// Whether the CDS and CDNSKEY records of an owner ask the parent zone for the same keys (RFC 7344, section 4). Line 1
/// is the owner; each other line is `cds HEX` or `cdnskey HEX`.
#[unsafe(no_mangle)]
pub extern "C" fn hw_cds_check(
    alloc: Global,
    lines: &[u8],
    target: &mut [u8],
    written: &mut usize,
    outcome: &mut u32,
) -> u32
    ensures status { result ≢ HW_E_MEMORY
        → result ≡ answer_status (due_of_cds lines.now) (length target.old) }
    ensures answer { result ≡ HW_OK
        → IsAnswered (due_of_cds lines.now) outcome.new written.new target.old target.new }
    ensures room { result ≡ HW_E_ROOM → written.new ≡ length (due_of_cds lines.now).report }
    ensures kept_target { result ≢ HW_OK → target.new ≡ target.old }
    ensures kept_outcome { result ≢ HW_OK → outcome.new ≡ outcome.old }
{
    match cds_answer(alloc, lines) {
        Ok(answer) => hand_out_answer(&answer, target, written, outcome),
        Err(NoMemory) => HW_E_MEMORY,
    }
}

/// Whether a zone has the digest of its ZONEMD record (RFC 8976, section 4). Line 1 is the apex, line 2 the record's
/// data in hexadecimal, and each other line a record of the zone in canonical order.
#[unsafe(no_mangle)]
pub extern "C" fn hw_zonemd_check(
    alloc: Global,
    lines: &[u8],
    target: &mut [u8],
    written: &mut usize,
    outcome: &mut u32,
) -> u32
    ensures status { result ≢ HW_E_MEMORY
        → result ≡ answer_status (due_of_zonemd lines.now) (length target.old) }
    ensures answer { result ≡ HW_OK
        → IsAnswered (due_of_zonemd lines.now) outcome.new written.new target.old target.new }
    ensures room { result ≡ HW_E_ROOM → written.new ≡ length (due_of_zonemd lines.now).report }
    ensures kept_target { result ≢ HW_OK → target.new ≡ target.old }
    ensures kept_outcome { result ≢ HW_OK → outcome.new ≡ outcome.old }
{
    match zonemd_answer(alloc, lines) {
        Ok(answer) => hand_out_answer(&answer, target, written, outcome),
        Err(NoMemory) => HW_E_MEMORY,
    }
}
