//! The numbers that the calls answer. They are never given another meaning; new ones come behind.

use text_spec::ScanError;

/// The version of this library, as 10,000 times the first of its three numbers, 100 times the second, and the third.
pub const HW_VERSION: u32 = 200;

/// Done.
pub const HW_OK: u32 = 0;
/// The place is not within the message.
pub const HW_E_PLACE: u32 = 1;
/// Octets are missing.
pub const HW_E_SHORT: u32 = 2;
/// An octet, a length, a pointer or two keys are not allowed, or octets are left behind the data.
pub const HW_E_FORM: u32 = 3;
/// The caller's buffer is too short.
pub const HW_E_ROOM: u32 = 4;
/// The parameters that were read exceed the limit.
pub const HW_E_LIMIT: u32 = 5;
/// The result would exceed 65,535 octets.
pub const HW_E_TOO_LONG: u32 = 6;
/// An argument is out of its bounds.
pub const HW_E_ARGUMENT: u32 = 7;
/// Memory is wanting.
pub const HW_E_MEMORY: u32 = 8;
/// There is no further parameter, item or address.
pub const HW_END: u32 = 9;
/// The type's data has names, which this library doesn't read yet.
pub const HW_E_TYPE: u32 = 10;

// The first fault of a text, in the order of `ScanError`.

/// A token was asked for, and none was left.
pub const HW_S_END_OF_ENTRY: u32 = 64;
/// An octet that no text may have at its place.
pub const HW_S_BAD_SYMBOL: u32 = 65;
/// A backslash with no escape behind it.
pub const HW_S_BAD_ESCAPE: u32 = 66;
/// The text ends within quotes.
pub const HW_S_OPEN_QUOTE: u32 = 67;
/// A closing bracket with no opening one, or the text ends within brackets.
pub const HW_S_BAD_BRACKET: u32 = 68;
/// The token is no number text in range, or a count isn't that of the octets behind it.
pub const HW_S_BAD_NUMBER: u32 = 69;
/// The token is no name text.
pub const HW_S_BAD_NAME: u32 = 70;
/// The token is no address text.
pub const HW_S_BAD_ADDRESS: u32 = 71;
/// The tokens joined are no base64 text.
pub const HW_S_BAD_BASE64: u32 = 72;
/// The tokens joined are no base16 text.
pub const HW_S_BAD_BASE16: u32 = 73;
/// A parameter's token has no octets.
pub const HW_S_EMPTY_PARAM: u32 = 74;
/// An octet that no key of a parameter may have.
pub const HW_S_BAD_KEY_CHAR: u32 = 75;
/// A text that names no key.
pub const HW_S_UNKNOWN_KEY: u32 = 76;
/// A parameter without the value that its key asks for.
pub const HW_S_MISSING_VALUE: u32 = 77;
/// A parameter with a value that its key doesn't take.
pub const HW_S_UNEXPECTED_VALUE: u32 = 78;
/// A backslash in a list where it may not stand.
pub const HW_S_BAD_LIST_ESCAPE: u32 = 79;
/// An item of a list without octets.
pub const HW_S_EMPTY_ITEM: u32 = 80;
/// An item of a list with more octets than it may have.
pub const HW_S_LONG_ITEM: u32 = 81;
/// A value that is no port.
pub const HW_S_BAD_PORT: u32 = 82;
/// The key `mandatory` in its own list.
pub const HW_S_KEY_ZERO_IN_MANDATORY: u32 = 83;
/// An item that stands twice in a list.
pub const HW_S_DUPLICATE_ITEM: u32 = 84;
/// A key that two parameters have.
pub const HW_S_DUPLICATE_KEY: u32 = 85;
/// A key that is mandatory and that no parameter has.
pub const HW_S_MANDATORY_MISSING: u32 = 86;
/// A value that is no UTF-8.
pub const HW_S_BAD_UTF8: u32 = 87;
/// A value of more than 65,535 octets.
pub const HW_S_LONG_VALUE: u32 = 88;
/// Record data of more than 65,535 octets.
pub const HW_S_LONG_RECORD: u32 = 89;
/// A gateway that isn't of the type that was given.
pub const HW_S_WRONG_GATEWAY: u32 = 90;
/// A type of gateways that is not known.
pub const HW_S_UNKNOWN_GATEWAY: u32 = 91;
/// A key that must be there is missing.
pub const HW_S_MISSING_KEY: u32 = 92;
/// A record type whose data has no text of its own.
pub const HW_S_UNKNOWN_TYPE: u32 = 93;
/// Something is left behind the entry, or a token behind the data.
pub const HW_S_TRAILING_TOKENS: u32 = 94;

/// Proves the number of the version and of each status.
pub(crate) fn prove_numbers() {
    prove!(HW_VERSION == 200);
    prove!(HW_OK == 0);
    prove!(HW_E_PLACE == 1);
    prove!(HW_E_SHORT == 2);
    prove!(HW_E_FORM == 3);
    prove!(HW_E_ROOM == 4);
    prove!(HW_E_LIMIT == 5);
    prove!(HW_E_TOO_LONG == 6);
    prove!(HW_E_ARGUMENT == 7);
    prove!(HW_E_MEMORY == 8);
    prove!(HW_END == 9);
    prove!(HW_E_TYPE == 10);
    prove_fault_numbers();
}

/// Proves that the status of each fault of a text is 64 and its place in `ScanError`.
fn prove_fault_numbers() {
    prove!(HW_S_END_OF_ENTRY == 64 + ScanError::EndOfEntry as u32);
    prove!(HW_S_BAD_SYMBOL == 64 + ScanError::BadSymbol as u32);
    prove!(HW_S_BAD_ESCAPE == 64 + ScanError::BadEscape as u32);
    prove!(HW_S_OPEN_QUOTE == 64 + ScanError::OpenQuote as u32);
    prove!(HW_S_BAD_BRACKET == 64 + ScanError::BadBracket as u32);
    prove!(HW_S_BAD_NUMBER == 64 + ScanError::BadNumber as u32);
    prove!(HW_S_BAD_NAME == 64 + ScanError::BadName as u32);
    prove!(HW_S_BAD_ADDRESS == 64 + ScanError::BadAddress as u32);
    prove!(HW_S_BAD_BASE64 == 64 + ScanError::BadBase64 as u32);
    prove!(HW_S_BAD_BASE16 == 64 + ScanError::BadBase16 as u32);
    prove!(HW_S_EMPTY_PARAM == 64 + ScanError::EmptyParam as u32);
    prove!(HW_S_BAD_KEY_CHAR == 64 + ScanError::BadKeyChar as u32);
    prove!(HW_S_UNKNOWN_KEY == 64 + ScanError::UnknownKey as u32);
    prove!(HW_S_MISSING_VALUE == 64 + ScanError::MissingValue as u32);
    prove!(HW_S_UNEXPECTED_VALUE == 64 + ScanError::UnexpectedValue as u32);
    prove!(HW_S_BAD_LIST_ESCAPE == 64 + ScanError::BadListEscape as u32);
    prove!(HW_S_EMPTY_ITEM == 64 + ScanError::EmptyItem as u32);
    prove!(HW_S_LONG_ITEM == 64 + ScanError::LongItem as u32);
    prove!(HW_S_BAD_PORT == 64 + ScanError::BadPort as u32);
    prove!(HW_S_KEY_ZERO_IN_MANDATORY == 64 + ScanError::KeyZeroInMandatory as u32);
    prove!(HW_S_DUPLICATE_ITEM == 64 + ScanError::DuplicateItem as u32);
    prove!(HW_S_DUPLICATE_KEY == 64 + ScanError::DuplicateKey as u32);
    prove!(HW_S_MANDATORY_MISSING == 64 + ScanError::MandatoryMissing as u32);
    prove!(HW_S_BAD_UTF8 == 64 + ScanError::BadUtf8 as u32);
    prove!(HW_S_LONG_VALUE == 64 + ScanError::LongValue as u32);
    prove!(HW_S_LONG_RECORD == 64 + ScanError::LongRecord as u32);
    prove!(HW_S_WRONG_GATEWAY == 64 + ScanError::WrongGateway as u32);
    prove!(HW_S_UNKNOWN_GATEWAY == 64 + ScanError::UnknownGateway as u32);
    prove!(HW_S_MISSING_KEY == 64 + ScanError::MissingKey as u32);
    prove!(HW_S_UNKNOWN_TYPE == 64 + ScanError::UnknownType as u32);
    prove!(HW_S_TRAILING_TOKENS == 64 + ScanError::TrailingTokens as u32);
}
