//! The statuses of faults.

ghost use Rattle.std.specs.Prelude.{◌≡◌, ◌≢◌, ◌≤◌, ◌<◌, Some};
ghost use Rattle.svcb_c.specs.Statuses.{error_status, fault_number, scan_fault_status, told_fault};

use crate::status::{HW_E_FORM, HW_E_MEMORY, HW_E_SHORT, HW_S_END_OF_ENTRY};
use text_spec::ScanError;
use wire_base::ParseError;

/// The status of an error of reading.
pub(crate) fn read_status(error: ParseError) -> u32
    ensures { result ≡ error_status error }
{
    match error {
        ParseError::ShortInput => HW_E_SHORT,
        ParseError::Form => HW_E_FORM,
        ParseError::NoMemory => HW_E_MEMORY,
    }
}

/// The place of a fault of a text among all of them.
fn fault_number(fault: ScanError) -> u32
    ensures number { result ≡ fault_number fault }
    ensures few { result < 32 }
{
    fault as u32
}

/// The status of a fault of a text.
#[tactic(auto, using(crate::proofs::FaultNumbers::told_again))]
pub(crate) fn scan_status(fault: ScanError) -> u32
    ensures status { result ≡ scan_fault_status fault }
    ensures above { 64 ≤ result }
    // The text of the status is that of the fault.
    ensures told { fault ≢ ScanError.NoMemory → told_fault result ≡ Some fault }
{
    HW_S_END_OF_ENTRY + fault_number(fault)
}
