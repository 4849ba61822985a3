//! Laws of the commands, each proved for all arguments. But for `sure_run`, the functions do nothing when they run.

ghost use Rattle.std.specs.Prelude.{◌≢◌};
ghost use Rattle.input_lines.specs.ExitCodes.{exit_code};
ghost use Rattle.input_lines.specs.declared.exit_status.ExitStatus.TheVariants as exit;
ghost use Rattle.edit_program.specs.Laws.{TypesAreScannedBack, AllDataBack, GenIsDone};

use crate::run::run;
use devices::{SureSink, SureSource};
use record_laws::any_type::union_text_read_back;
use record_laws::records::{fields_composed_back, ipseckey_composed_back};
use record_laws::text_lengths as lengths;
use std::alloc::Global;
use svcb_laws::data_texts::read_is_data;
use svcb_laws::text_lengths::data_line_fits;
use svcb_spec::laws::record_read_back;

/// Wherever `show` writes a text, for any type number, `scan` gives of it exactly the octets of the data that was read.
pub fn types_are_scanned_back()
    ensures { TypesAreScannedBack }
{
    union_text_read_back();
    read_is_data();
    fields_composed_back();
    ipseckey_composed_back();
    data_line_fits();
    lengths::types_lines_fit();
    lengths::ipseckey_line_fits();
    lengths::unknown_text_by_octets();
}

/// `show` writes a text for any data of SVCB and of HTTPS, and `scan` gives the same octets back.
pub fn all_data_back()
    ensures { AllDataBack }
{
    record_read_back();
    union_text_read_back();
    data_line_fits();
}

/// `gen` is always done: the data that it makes is read back, and neither it nor what is made of it is too long.
pub fn gen_is_done()
    ensures { GenIsDone }
{
    record_read_back();
}

/// Runs the program over devices that never fail, so that it never ends with the status of one that did.
pub fn sure_run(
    alloc: Global,
    words: &[String],
    source: &mut SureSource<'_>,
    sink: &mut SureSink,
) -> u8
    ensures no_read_fault { result ≢ exit_code exit.ReadFault }
    ensures no_write_fault { result ≢ exit_code exit.WriteFault }
{
    run(alloc, words, source, sink)
}
