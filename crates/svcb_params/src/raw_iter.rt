//! All service parameters, whatever their types.

ghost use Rattle.std.specs.Prelude.{◌≡◌, ◌<◌, ℕ};
ghost use Rattle.std.specs.Iterator.{YieldsFirstBy, item_count};
ghost use Rattle.svcb_spec.specs.PrintedParams.{holds_key};
ghost use Rattle.svcb_value.specs.UnknownView.{seen_unknown};
ghost use Rattle.svcb_params.specs.ParamsView.{seen_params};
ghost use Rattle.svcb_params.specs.Items.{raw_values};

use crate::params_ref::SvcParamsRef;
use registry::SvcParamKey;
use std::marker::Model;
use svcb_value::UnknownSvcParamRef;

/// All parameters by ascending keys, each as a key and octets, whatever the octets are. Takes no memory. Contracts see
/// the pairs that are left.
///
/// Count the items by `saturating_add` in a loop, since `count()` asks its caller for a bound.
#[derive(Clone, Debug, Drop)]
pub struct RawIter<'a> {
    rest: SvcParamsRef<'a>,
}

impl<'a> Model for RawIter<'a> {
    ghost use Rattle.svcb_spec.specs.Params.{Pairs};
    ghost use Rattle.svcb_pairs.specs.Parameters.{pairs_in};

    ghost Value = { Pairs };

    ghost view = { λ iter. pairs_in iter.rest.slice.now };
}

impl<'a> RawIter<'a> {
    /// The parameters of a view.
    pub(crate) fn new(params: SvcParamsRef<'a>) -> RawIter<'a>
        ensures { result ≡ seen_params params.entry }
    {
        RawIter { rest: params }
    }

    /// Passes over the pairs up to a key, and tells whether one of them has it.
    #[tactic(auto, using(crate::proofs::HeldKeys::passing_rules))]
    pub(crate) fn pass_to(&mut self, key: u16) -> bool
        ensures found { result ≡ holds_key self.old key }
        ensures behind { (above : ℕ) → key < above
            → holds_key self.new above ≡ holds_key self.old above }
    {
        while let Some((passed, _, rest)) = self.rest.split_first() {
            if passed > key {
                return false;
            }
            self.rest = rest;
            if passed == key {
                return true;
            }
        }
        false
    }
}

impl<'a> Iterator for RawIter<'a> {
    type Item = UnknownSvcParamRef<'a>;

    ghost next_gives = { YieldsFirstBy seen_unknown raw_values };

    ghost remaining = { item_count raw_values };

    fn next(&mut self) -> Option<UnknownSvcParamRef<'a>> {
        let (key, octets, rest) = self.rest.split_first()?;
        self.rest = rest;
        // the length of a value has 16 bits, so nothing is refused
        UnknownSvcParamRef::new(SvcParamKey::from(key), octets).ok()
    }
}
