//! Laws of the data of these records, each proved for all arguments. The functions do nothing when they run.

ghost use Rattle.record_laws.specs.RecordLaws.{FieldsReadBack, FieldsComposedBack, TypesAreRows};
ghost use Rattle.record_laws.specs.RecordLaws.{ScannedIsData, FieldsTextReadBack, FieldsLayoutReadBack};
ghost use Rattle.record_laws.specs.RecordLaws.{IpseckeyReadBack, IpseckeyComposedBack};
ghost use Rattle.record_laws.specs.RecordLaws.{ScannedIsIpseckey};
ghost use Rattle.record_laws.specs.RecordLaws.{IpseckeyTextReadBack, IpseckeyLayoutReadBack};

/// Data that is composed is read, where its last field is long enough.
pub fn fields_read_back()
    ensures { FieldsReadBack }
{}

/// What is read is data, whose last field is long enough, and it is composed to the octets that were read.
pub fn fields_composed_back()
    ensures { FieldsComposedBack }
{}

/// The types of CDS, CDNSKEY, SSHFP, TLSA, ZONEMD and OPENPGPKEY records are such as the laws of texts speak of.
pub fn types_are_rows()
    ensures { TypesAreRows }
{}

/// What is scanned is data, and all tokens are taken.
pub fn scanned_is_data()
    ensures { ScannedIsData }
{}

/// Data that is printed is scanned as that data.
pub fn fields_text_read_back()
    ensures { FieldsTextReadBack }
{}

/// Data that is laid out, in each layout, is scanned as that data.
pub fn fields_layout_read_back()
    ensures { FieldsLayoutReadBack }
{}

/// The data of an IPSECKEY record that is composed is read, where no key is missing.
pub fn ipseckey_read_back()
    ensures { IpseckeyReadBack }
{}

/// What is read as the data of an IPSECKEY record is such data without a missing key, and it is composed to the octets
/// that were read.
pub fn ipseckey_composed_back()
    ensures { IpseckeyComposedBack }
{}

/// What is scanned as the data of an IPSECKEY record is such data without a missing key, and all tokens are taken.
pub fn scanned_is_ipseckey()
    ensures { ScannedIsIpseckey }
{}

/// The data of an IPSECKEY record that is printed is scanned as that data, where no key is missing.
pub fn ipseckey_text_read_back()
    ensures { IpseckeyTextReadBack }
{}

/// The data of an IPSECKEY record that is laid out, in each layout, is scanned as that data, where no key is missing.
pub fn ipseckey_layout_read_back()
    ensures { IpseckeyLayoutReadBack }
{}
