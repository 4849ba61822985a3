//! A value type of another crate.

ghost use Rattle.std.specs.Prelude.{ℕ, [], ◌∷◌, Ok, Err, length, slice_index, nat_lt, nat_le, if◌then◌else◌};
ghost use Rattle.name_spec.specs.Octets.{Short};

use registry::{ComposeSvcParamValue, ParseSvcParamValue, SvcParamKey, SvcParamValue};
use wire_base::{NoMemory, ParseError, Parser};

/// A number of one octet, under any key for private use.
#[derive(Clone, Copy, PartialEq, Eq)]
pub(crate) struct Level {
    pub(crate) key: SvcParamKey,
    pub(crate) level: u8,
}

impl SvcParamValue for Level {
    ghost key_of = { λ value. value.key };

    fn key(&self) -> SvcParamKey {
        self.key
    }
}

impl<'a> ParseSvcParamValue<'a> for Level {
    ghost Seen = { ℕ };

    ghost seen = { λ value. value.level };

    ghost takes = { λ key. nat_le 65280 key };

    ghost reads = { λ _ octets. if nat_lt (length octets) 1 then Err Short
        else Ok (record { value = slice_index octets 0; len = 1 }) };

    fn parse_value(key: SvcParamKey, parser: &mut Parser<'a>) -> Result<Option<Level>, ParseError> {
        let octets = parser.remaining_octets();
        if u16::from(key) < SvcParamKey::PRIVATE_RANGE_BEGIN {
            return Ok(None);
        }
        parser.advance(1)?;
        Ok(Some(Level {
            key,
            level: octets[0],
        }))
    }
}

impl ComposeSvcParamValue for Level {
    ghost octets = { λ value. value.level ∷ [] };

    fn compose_len(&self) -> u16 {
        1
    }

    fn compose_value(&self, target: &mut Vec<u8>) -> Result<(), NoMemory> {
        target.push(self.level)?;
        Ok(())
    }
}
