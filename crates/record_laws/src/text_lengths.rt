//! Laws of the lengths of texts, each proved for all arguments. The functions do nothing when they run.

ghost use Rattle.record_laws.specs.TextLengthLaws.{FieldsTextByOctets, IpseckeyTextByOctets, UnknownTextByOctets};
ghost use Rattle.record_laws.specs.TextLengthLaws.{TypesLinesFit, IpseckeyLineFits};

/// The printed text of numbers and a last field has at most 21 octets for each number, two for each octet of the last
/// field, and six more.
pub fn fields_text_by_octets()
    ensures { FieldsTextByOctets }
{}

/// The line of the text of CDS, CDNSKEY, SSHFP, TLSA, ZONEMD or OPENPGPKEY data is shorter than 16,777,216 octets.
pub fn types_lines_fit()
    ensures { TypesLinesFit }
{}

/// The printed text of IPSECKEY data has at most 11 octets for each octet of the data.
pub fn ipseckey_text_by_octets()
    ensures { IpseckeyTextByOctets }
{}

/// The line of that text is shorter than 16,777,216 octets.
pub fn ipseckey_line_fits()
    ensures { IpseckeyLineFits }
{}

/// The text of octets under any type number has at most two octets for each of them, and nine more.
pub fn unknown_text_by_octets()
    ensures { UnknownTextByOctets }
{}
