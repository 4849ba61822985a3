//! Octets all of which are a value.

ghost use Rattle.std.specs.Prelude.{◌≡◌};
ghost use Rattle.svcb_spec.specs.ReadingValues.{whole_taken};
ghost use Rattle.svcb_text.specs.WholeValues.{seen_answer, read_wholly};

use registry::{ParseSvcParamValue, SvcParamKey};
use wire_base::{ParseError, Parser};

/// The value of a type that all octets under a key are. `None` exactly where the type does not take the key. No memory
/// is taken.
///
/// `ShortInput`, `Form`: the first fault of the octets, as the type's `reads` says it. `Form` also where octets are
/// left behind the value.
pub fn parse_wholly<'a, V: ParseSvcParamValue<'a>>(
    key: SvcParamKey,
    octets: &'a [u8],
) -> Result<Option<V>, ParseError>
    ensures { seen_answer V.seen result
        ≡ read_wholly (V.takes key) (whole_taken octets.now (V.reads key octets.now)) }
{
    let mut parser = Parser::from_ref(octets);
    match V::parse_value(key, &mut parser)? {
        Some(value) if parser.remaining() == 0 => Ok(Some(value)),
        Some(_) => Err(ParseError::Form),
        None => Ok(None),
    }
}
