//! The values of one type among service parameters.

ghost use Rattle.std.specs.Prelude.{◌≡◌};
ghost use Rattle.std.specs.Iterator.{YieldsFirstBy, item_count};
ghost use Rattle.wire_base.specs.Faults.{value_item};
ghost use Rattle.svcb_params.specs.ParamsView.{seen_params};
ghost use Rattle.svcb_params.specs.Items.{items, IsFirst};

use crate::params_ref::SvcParamsRef;
use registry::{ParseSvcParamValue, SvcParamKey};
use std::marker::{Model, PhantomData};
use svcb_text::parse_wholly;
use wire_base::ParseError;

/// The values of one type among parameters, by ascending keys: of each key that the type takes the value that its octets
/// wholly are, or the fault that they have. Ends after its first error. Takes no memory. Contracts see the pairs that are
/// left.
///
/// An item is taken apart by `match &item`, by `Ok(value) => match value`, by `let Ok(value) = item else`, or by
/// `while let Some(Ok(value)) = values.next()`:
///
/// ```
/// for item in params.iter_all() {
///     let Ok(value) = item else {
///         return None;
///     };
///     if let AllValuesRef::Port(port) = value {
///         return Some(port.port());
///     }
/// }
/// ```
///
/// These forms get a proof; `item?`, and a pattern such as `Ok(AllValuesRef::Port(port))` on the item itself, do not.
/// An iterator of a view lasts as long as the view, so bind what `params()` of record data gives first:
/// `let params = record.params();`. Count the items by `saturating_add` in a loop, since `count()` asks its caller for
/// a bound.
#[derive(Drop)]
#[derive_where(Clone, Debug)]
pub struct ValueIter<'s, V> {
    rest: SvcParamsRef<'s>,
    values: PhantomData<V>,
}

impl<'s, V> Model for ValueIter<'s, V> {
    ghost use Rattle.svcb_spec.specs.Params.{Pairs};
    ghost use Rattle.svcb_pairs.specs.Parameters.{pairs_in};

    ghost Value = { Pairs };

    ghost view = { λ iter. pairs_in iter.rest.slice.now };
}

impl<'s, V> ValueIter<'s, V> {
    /// The values in parameters.
    pub(crate) fn new(params: SvcParamsRef<'s>) -> ValueIter<'s, V>
        ensures { result ≡ seen_params params.entry }
    {
        ValueIter {
            rest: params,
            values: PhantomData,
        }
    }
}

impl<'s, V: ParseSvcParamValue<'s>> Iterator for ValueIter<'s, V> {
    type Item = Result<V, ParseError>;

    ghost next_gives = { YieldsFirstBy (value_item V.seen) (items V.takes V.reads) };

    ghost remaining = { item_count (items V.takes V.reads) };

    #[tactic(auto, using(svcb_pairs::proofs::Reading::reading_rules))]
    fn next(&mut self) -> Option<Result<V, ParseError>> {
        while let Some((key, octets, rest)) = self.rest.split_first() {
            self.rest = rest;
            match parse_wholly(SvcParamKey::from(key), octets) {
                Ok(None) => {}
                Ok(Some(value)) => return Some(Ok(value)),
                Err(error) => {
                    self.rest = SvcParamsRef { slice: &[] };
                    return Some(Err(error));
                }
            }
        }
        None
    }
}

/// The first value of a type, where the first item is one.
pub(crate) fn first_of<'s, V: ParseSvcParamValue<'s>>(params: SvcParamsRef<'s>) -> Option<V>
    ensures { IsFirst V.seen V.takes V.reads (seen_params params.entry) result }
{
    match ValueIter::new(params).next() {
        Some(Ok(value)) => Some(value),
        _ => None,
    }
}
