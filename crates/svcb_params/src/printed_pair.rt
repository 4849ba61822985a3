//! A pair of service parameters as text.

ghost use Rattle.std.specs.Prelude.{◌≡◌, Some, if◌then◌else◌};
ghost use Rattle.std.specs.Fmt.{WritesOnOk};
ghost use Rattle.svcb_spec.specs.PrintedParams.{has_own_text, pair_printed};
ghost use Rattle.svcb_spec.specs.PrintedValues.{value_printed};
ghost use Rattle.svcb_text.specs.AllValuesRef.{seen_view};
ghost use Rattle.svcb_value.specs.UnknownView.{seen_unknown};
ghost use Rattle.svcb_params.specs.ParamsView.{seen_pair, seen_params};

use crate::own_texts::has_own_text;
use crate::params_ref::SvcParamsRef;
use registry::SvcParamValue;
use std::fmt;
use svcb_text::AllValuesRef;
use svcb_value::UnknownSvcParamRef;

/// A pair among all pairs, as text: that of the value that its octets wholly are where this gives them back, else that
/// of any octets.
#[derive(Clone, Copy)]
pub(crate) struct PrintedPair<'a> {
    pub(crate) all: SvcParamsRef<'a>,
    pub(crate) pair: UnknownSvcParamRef<'a>,
}

impl fmt::Display for PrintedPair<'_> {
    ghost output = { λ printed. Some
        (pair_printed (seen_params printed.all) (seen_pair printed.pair)) };

    fn fmt<W: fmt::Write>(&self, f: &mut fmt::Formatter<W>) -> fmt::Result {
        let raw = self.pair;
        // a pattern binds the value, since one that a call gives isn't borrowed by name
        match AllValuesRef::parse_any(raw.key(), raw.as_slice()) {
            value => write_value(self.all, &value, &raw, f),
        }
    }
}

// Writes a value, and the octets as they stand where the value's text doesn't give them back.
fn write_value<W: fmt::Write>(
    all: SvcParamsRef<'_>,
    value: &AllValuesRef<'_>,
    raw: &UnknownSvcParamRef<'_>,
    f: &mut fmt::Formatter<W>,
) -> fmt::Result
    ensures { WritesOnOk W.Write.write_str_gives f.old result
        (if has_own_text (seen_params all.entry) (seen_view value.now)
        then value_printed (seen_view value.now)
        else value_printed (seen_unknown raw.now)) f.new }
{
    if has_own_text(all, value) {
        write!(f, "{value}")
    } else {
        write!(f, "{raw}")
    }
}
