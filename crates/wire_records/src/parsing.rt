//! Reading addresses.

ghost use Rattle.std.specs.Prelude.{◌≡◌, IfOk};
ghost use Rattle.wire_base.specs.Moving.{TakesOctets};
ghost use Rattle.wire_records.specs.Reading.{next_octets};

use wire_base::{Address, Parser, ShortInput};

/// The address in the next `N` octets.
///
/// `ShortInput`: fewer remain. The parser is then unchanged.
pub(crate) fn parse_address<const N: usize>(
    parser: &mut Parser<'_>,
) -> Result<Address<N>, ShortInput>
    ensures octets { IfOk result (λ address. address ≡ next_octets N parser.old) }
    ensures takes { TakesOctets parser.old parser.new N result }
{
    let mut octets = [0; N];
    octets.copy_from_slice(parser.parse_octets(N)?);
    Ok(Address::new(octets))
}
