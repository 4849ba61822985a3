//! Laws of the texts of SVCB and HTTPS data, each proved for all arguments. The functions do nothing when they run.

ghost use Rattle.svcb_laws.specs.DataTextLaws.{DataTextReadBack, DataLineReadBack, DataLayoutReadBack};
ghost use Rattle.svcb_laws.specs.DataTextLaws.{LineHasTokens, ReadIsData};

use svcb_spec::laws::read_is_record;

/// The printed text of any data has tokens, and these are scanned as exactly that data.
pub fn data_text_read_back()
    ensures { DataTextReadBack }
{}

/// So has the line of that text.
pub fn data_line_read_back()
    ensures { DataLineReadBack }
{}

/// So has the text of the data in each layout.
pub fn data_layout_read_back()
    ensures { DataLayoutReadBack }
{}

/// A text and its line have the same tokens.
pub fn line_has_tokens()
    ensures { LineHasTokens }
{}

/// Record data that was read of octets is made of octets, so the laws above hold of it.
pub fn read_is_data()
    ensures { ReadIsData }
{
    read_is_record();
}
