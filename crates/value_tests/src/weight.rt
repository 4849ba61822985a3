//! A value type of another crate, as the pages of the traits have it.

ghost use Rattle.std.specs.Prelude.{◌≡◌, ℕ, ◌==◌, length, nat_lt, Ok, Err, if◌then◌else◌};
ghost use Rattle.std.specs.Option.{ok_or};
ghost use Rattle.name_spec.specs.Octets.{Short, be2, number_at};
ghost use Rattle.registry.specs.Texts.{spelled_number};
ghost use Rattle.text_spec.specs.declared.errors.ScanError.TheVariants.{BadNumber};

use registry::{ComposeSvcParamValue, Integer, ParseSvcParamValue, SvcParamKey, SvcParamValue};
use std::alloc::Global;
use svcb_text::ScanSvcParamValue;
use text_spec::ScanError;
use wire_base::{NoMemory, ParseError, Parser};

/// A number of 16 bits under the first key for private use.
#[derive(Clone, Copy, PartialEq, Eq)]
pub(crate) struct Weight(pub(crate) u16);

impl SvcParamValue for Weight {
    ghost key_of = { λ _. 65280 };

    fn key(&self) -> SvcParamKey {
        SvcParamKey::from(SvcParamKey::PRIVATE_RANGE_BEGIN)
    }
}

impl<'a> ParseSvcParamValue<'a> for Weight {
    ghost Seen = { ℕ };

    ghost seen = { λ weight. weight.0 };

    ghost takes = { λ key. key == 65280 };

    ghost reads = { λ _ octets. if nat_lt (length octets) 2 then Err Short
        else Ok (record { value = number_at octets 0; len = 2 }) };

    fn parse_value(
        key: SvcParamKey,
        parser: &mut Parser<'a>,
    ) -> Result<Option<Weight>, ParseError> {
        if u16::from(key) != SvcParamKey::PRIVATE_RANGE_BEGIN {
            return Ok(None);
        }
        let octets = parser.remaining_octets();
        parser.advance(2)?;
        Ok(Some(Weight(u16::from_be_bytes([octets[0], octets[1]]))))
    }
}

impl ComposeSvcParamValue for Weight {
    ghost octets = { λ weight. be2 weight.0 };

    fn compose_len(&self) -> u16 {
        2
    }

    fn compose_value(&self, target: &mut Vec<u8>) -> Result<(), NoMemory> {
        self.0.compose(target)
    }
}

impl ScanSvcParamValue for Weight {
    ghost Seen = { ℕ };

    ghost seen = { λ weight. weight.0 };

    ghost takes = { λ key. key == 65280 };

    ghost spelled = { λ _ text. ok_or (spelled_number 65536 text) BadNumber };

    fn value_from_scan_octets(
        _alloc: Global,
        key: SvcParamKey,
        octs: &[u8],
    ) -> Result<Option<Weight>, ScanError> {
        if u16::from(key) != SvcParamKey::PRIVATE_RANGE_BEGIN {
            return Ok(None);
        }
        Ok(Some(Weight(u16::from_text(octs).ok_or(ScanError::BadNumber)?)))
    }
}
