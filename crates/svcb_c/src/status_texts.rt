//! What the version is, and what statuses mean.

ghost use Rattle.std.specs.Prelude.{◌≡◌, ◌≢◌, None, Some, MatchOption, length};
ghost use Rattle.text_spec.specs.Faults.{scan_fault_text};
ghost use Rattle.svcb_c.specs.Buffers.{due_status, IsGiven, NeedsRoom};
ghost use Rattle.svcb_c.specs.Statuses.{status_text, told_status, told_fault};
ghost use Rattle.svcb_c.specs.declared.status.TheConstants.{HW_OK, HW_E_ROOM, HW_VERSION};

use crate::buffers::hand_out;
use crate::status::*;
use text_spec::ScanError;
use wire_base::{LongRecordData, ParseError};

/// The faults of a text, in the order of their statuses.
const TEXT_FAULTS: [ScanError; 31] = [
    ScanError::EndOfEntry,
    ScanError::BadSymbol,
    ScanError::BadEscape,
    ScanError::OpenQuote,
    ScanError::BadBracket,
    ScanError::BadNumber,
    ScanError::BadName,
    ScanError::BadAddress,
    ScanError::BadBase64,
    ScanError::BadBase16,
    ScanError::EmptyParam,
    ScanError::BadKeyChar,
    ScanError::UnknownKey,
    ScanError::MissingValue,
    ScanError::UnexpectedValue,
    ScanError::BadListEscape,
    ScanError::EmptyItem,
    ScanError::LongItem,
    ScanError::BadPort,
    ScanError::KeyZeroInMandatory,
    ScanError::DuplicateItem,
    ScanError::DuplicateKey,
    ScanError::MandatoryMissing,
    ScanError::BadUtf8,
    ScanError::LongValue,
    ScanError::LongRecord,
    ScanError::WrongGateway,
    ScanError::UnknownGateway,
    ScanError::MissingKey,
    ScanError::UnknownType,
    ScanError::TrailingTokens,
];

/// The text of a fault.
fn fault_text(fault: ScanError) -> &'static str
    ensures { result.now ≡ scan_fault_text fault }
{
    match fault {
        ScanError::EndOfEntry => "end of entry",
        ScanError::BadSymbol => "bad symbol",
        ScanError::BadEscape => "bad escape",
        ScanError::OpenQuote => "open quote",
        ScanError::BadBracket => "bad bracket",
        ScanError::BadNumber => "bad number",
        ScanError::BadName => "bad name",
        ScanError::BadAddress => "bad address",
        ScanError::BadBase64 => "bad base64",
        ScanError::BadBase16 => "bad base16",
        ScanError::EmptyParam => "empty parameter",
        ScanError::BadKeyChar => "bad key character",
        ScanError::UnknownKey => "unknown key",
        ScanError::MissingValue => "missing value",
        ScanError::UnexpectedValue => "unexpected value",
        ScanError::BadListEscape => "escape in list",
        ScanError::EmptyItem => "empty item",
        ScanError::LongItem => "long item",
        ScanError::BadPort => "bad port",
        ScanError::KeyZeroInMandatory => "mandatory in mandatory",
        ScanError::DuplicateItem => "duplicate item",
        ScanError::DuplicateKey => "duplicate key",
        ScanError::MandatoryMissing => "mandatory key missing",
        ScanError::BadUtf8 => "bad utf-8",
        ScanError::LongValue => "long value",
        ScanError::LongRecord => LongRecordData.as_str(),
        ScanError::WrongGateway => "wrong gateway",
        ScanError::UnknownGateway => "unknown gateway type",
        ScanError::MissingKey => "missing key",
        ScanError::UnknownType => "unknown type",
        ScanError::TrailingTokens => "trailing tokens",
        ScanError::NoMemory => ParseError::NoMemory.as_str(),
    }
}

/// The version: 10,000 times its first number, 100 times the second, and the third.
#[unsafe(no_mangle)]
pub extern "C" fn hw_version() -> u32
    ensures { result ≡ HW_VERSION }
{
    HW_VERSION
}

/// The fault of a text that a status tells.
fn told_fault(status: u32) -> Option<ScanError>
    ensures { result ≡ told_fault status }
{
    if status < HW_S_END_OF_ENTRY {
        return None;
    }
    TEXT_FAULTS
        .get((status - HW_S_END_OF_ENTRY) as usize)
        .copied()
}

/// A status in a few words. None where no call answers it.
fn text_of(status: u32) -> Option<&'static str>
    ensures { MatchOption result
        (status_text status ≡ None)
        (λ text. status_text status ≡ Some text.now) }
{
    prove_numbers();
    match status {
        HW_OK => Some("done"),
        HW_E_PLACE => Some("place outside the message"),
        HW_E_SHORT => Some(ParseError::ShortInput.as_str()),
        HW_E_FORM => Some(ParseError::Form.as_str()),
        HW_E_ROOM => Some("short buffer"),
        HW_E_LIMIT => Some("parameters over the limit"),
        HW_E_TOO_LONG => Some(LongRecordData.as_str()),
        HW_E_ARGUMENT => Some("bad argument"),
        HW_E_MEMORY => Some(ParseError::NoMemory.as_str()),
        HW_END => Some("end of parameters"),
        HW_E_TYPE => Some("type with names that are not read"),
        _ => match told_fault(status) {
            Some(fault) => Some(fault_text(fault)),
            None => None,
        },
    }
}

/// The text of a status, in ASCII. `HW_E_ARGUMENT`: no call answers this status.
#[unsafe(no_mangle)]
pub extern "C" fn hw_status_text(status: u32, target: &mut [u8], written: &mut usize) -> u32
    ensures status { result ≡ due_status (told_status status) (length target.old) }
    ensures text { result ≡ HW_OK
        → IsGiven (told_status status) written.new target.old target.new }
    ensures room { result ≡ HW_E_ROOM → NeedsRoom (told_status status) written.new }
    ensures kept { result ≢ HW_OK → target.new ≡ target.old }
{
    match text_of(status) {
        Some(text) => hand_out(text.as_bytes(), target, written),
        None => HW_E_ARGUMENT,
    }
}
