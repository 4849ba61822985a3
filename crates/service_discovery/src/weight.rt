//! A value type of one's own: a weight among endpoints, under a key for private use (RFC 9460, section 14.3.1).
//!
//! It implements the three traits of values, so that `first`, `iter` and `push` take it as any value of the libraries.
//! The ghost members say what it means, and each function is proved to answer so.

ghost use Rattle.std.specs.Prelude.{◌≡◌, ℕ, ◌==◌, [], ◌∷◌};
ghost use Rattle.service_discovery.specs.Weights.{weight_in};

use hollywhist::base::NoMemory;
use hollywhist::base::wire::{ParseError, Parser};
use hollywhist::rdata::svcb::{
    ComposeSvcParamValue, ParseSvcParamValue, SvcParamKey, SvcParamValue,
};

/// The weight of an endpoint among those of one priority: one octet.
#[derive(Clone, Copy, Debug, PartialEq, Eq)]
pub struct Weight(pub u8);

impl Weight {
    /// The key of weights, the first one for private use.
    pub const KEY: u16 = SvcParamKey::PRIVATE_RANGE_BEGIN;
}

impl SvcParamValue for Weight {
    ghost key_of = { λ _. 65280 };

    fn key(&self) -> SvcParamKey {
        SvcParamKey::from(Weight::KEY)
    }
}

impl<'a> ParseSvcParamValue<'a> for Weight {
    ghost Seen = { ℕ };

    ghost seen = { λ weight. weight.0 };

    ghost takes = { λ key. key == 65280 };

    ghost reads = { λ _. weight_in };

    fn parse_value(
        key: SvcParamKey,
        parser: &mut Parser<'a>,
    ) -> Result<Option<Weight>, ParseError> {
        let octets = parser.remaining_octets();
        if key != SvcParamKey::from(Weight::KEY) {
            return Ok(None);
        }
        parser.advance(1)?;
        Ok(Some(Weight(octets[0])))
    }
}

impl ComposeSvcParamValue for Weight {
    ghost octets = { λ weight. weight.0 ∷ [] };

    fn compose_len(&self) -> u16 {
        1
    }

    fn compose_value(&self, target: &mut Vec<u8>) -> Result<(), NoMemory> {
        target.push(self.0)?;
        Ok(())
    }
}
