//! Laws of the lengths of texts, each proved for all arguments. The functions do nothing when they run.

ghost use Rattle.svcb_laws.specs.TextLengthLaws.{DataTextByOctets, DataLineFits, ParamsTextByOctets};

/// The printed text of parameters has at most 11 octets for each octet of theirs.
pub fn params_text_by_octets()
    ensures { ParamsTextByOctets }
{}

/// The printed text of any data has at most 11 octets for each octet of the data.
pub fn data_text_by_octets()
    ensures { DataTextByOctets }
{}

/// The line of that text is shorter than 16,777,216 octets.
pub fn data_line_fits()
    ensures { DataLineFits }
{}
