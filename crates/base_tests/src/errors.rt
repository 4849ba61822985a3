//! The texts of errors of scanning.

use crate::printed::is_printed;
use text_spec::ScanError;

/// Each error and its text.
const TEXTS: [(ScanError, &str); 32] = [
    (ScanError::EndOfEntry, "end of entry"),
    (ScanError::BadSymbol, "bad symbol"),
    (ScanError::BadEscape, "bad escape"),
    (ScanError::OpenQuote, "open quote"),
    (ScanError::BadBracket, "bad bracket"),
    (ScanError::BadNumber, "bad number"),
    (ScanError::BadName, "bad name"),
    (ScanError::BadAddress, "bad address"),
    (ScanError::BadBase64, "bad base64"),
    (ScanError::BadBase16, "bad base16"),
    (ScanError::EmptyParam, "empty parameter"),
    (ScanError::BadKeyChar, "bad key character"),
    (ScanError::UnknownKey, "unknown key"),
    (ScanError::MissingValue, "missing value"),
    (ScanError::UnexpectedValue, "unexpected value"),
    (ScanError::BadListEscape, "escape in list"),
    (ScanError::EmptyItem, "empty item"),
    (ScanError::LongItem, "long item"),
    (ScanError::BadPort, "bad port"),
    (ScanError::KeyZeroInMandatory, "mandatory in mandatory"),
    (ScanError::DuplicateItem, "duplicate item"),
    (ScanError::DuplicateKey, "duplicate key"),
    (ScanError::MandatoryMissing, "mandatory key missing"),
    (ScanError::BadUtf8, "bad utf-8"),
    (ScanError::LongValue, "long value"),
    (ScanError::LongRecord, "long record data"),
    (ScanError::WrongGateway, "wrong gateway"),
    (ScanError::UnknownGateway, "unknown gateway type"),
    (ScanError::MissingKey, "missing key"),
    (ScanError::UnknownType, "unknown type"),
    (ScanError::TrailingTokens, "trailing tokens"),
    (ScanError::NoMemory, "want of memory"),
];

#[test]
fn errors_have_their_texts(rt: HostRuntime) {
    for (error, text) in &TEXTS {
        assert!(rt; is_printed(rt.alloc(), error, text) == Ok(true), "{text}");
    }
}
