//! Views of service parameters.

ghost use Rattle.svcb_pairs.specs.Parameters.{IsParameters};
ghost use Rattle.svcb_pairs.specs.ParameterLaws.{IsParameters-prop};

use crate::params::SvcParams;
use crate::params_error::SvcParamsError;
use crate::raw_iter::RawIter;
use crate::value_iter::{ValueIter, first_of};
use registry::ParseSvcParamValue;
use std::alloc::Global;
use svcb_pairs::check_params;
use svcb_text::AllValuesRef;
use svcb_value::parameter::split_param;
use wire_base::{NoMemory, Octets, ParseError, Parser};

/// Borrowed service parameters in wire form: an ordered map from keys to values, as [`SvcParams`] says
/// (RFC 9460, section 2.2).
///
/// The octets are tested once, when the view is made, and stay where they are. No call of a view takes memory, apart
/// from [`to_owned_data`](Self::to_owned_data) and [`compose`](Self::compose).
///
/// ```
/// let params = SvcParamsRef::from_slice(b"\x00\x03\x00\x02\x00\x35")?;
/// for param in params.iter_raw() {
///     println!(rt; "{param}")?;
/// }
/// ```
///
/// Views are compared by their octets. Contracts see the octets, and the pairs in them by `seen_params`.
#[derive(Clone, Copy, Debug, PartialEq, Eq, PartialOrd, Ord, Hash)]
pub struct SvcParamsRef<'a> {
    /// The octets in wire form.
    pub slice: &'a [u8],
    pub ghost are_parameters: { IsParameters slice.now } by { IsParameters-prop slice.now },
}

impl<'a> SvcParamsRef<'a> {
    ghost use Rattle.std.specs.Prelude.{◌≡◌, ◌==◌, [], None, Ok, length, MatchOption, MatchResult, option_map, IfOk};
    ghost use Rattle.svcb_spec.specs.Params.{pairs_at, wire, IsMap};
    ghost use Rattle.wire_base.specs.Faults.{IsFaultOf, Gives};
    ghost use Rattle.wire_base.specs.Input.{octets_left};
    ghost use Rattle.wire_base.specs.Moving.{TakesAll, AppendsOctets};
    ghost use Rattle.svcb_pairs.specs.Parameters.{read_pairs, IsFirstPair};
    ghost use Rattle.svcb_params.specs.ParamsView.{seen_params};
    ghost use Rattle.svcb_params.specs.Items.{IsFirst};

    /// A view of the parameters that octets are; any count of octets is allowed. Takes no memory.
    ///
    /// The first fault in reading order refuses them. `ShortInput`: a key, a length or a value runs past the end.
    /// `Form`: a key is not above the one before it (RFC 9460, section 2.2).
    pub fn from_slice(slice: &'a [u8]) -> Result<SvcParamsRef<'a>, SvcParamsError>
        ensures answer { MatchResult result
            (λ view. read_pairs slice.now ≡ Ok (seen_params view))
            (λ error. IsFaultOf error.0 (read_pairs slice.now)) }
        ensures octets { IfOk result (λ view. view.slice.now ≡ slice.now) }
    {
        check_params(slice)?;
        Ok(SvcParamsRef { slice })
    }

    /// A view of the parameters that all octets before the end of the data are. Takes no memory, so never fails with
    /// `NoMemory`.
    ///
    /// The first fault in reading order refuses them; the parser is then unchanged. `ShortInput`: a key, a length or
    /// a value runs past the end. `Form`: a key is not above the one before it (RFC 9460, section 2.2).
    #[tactic(auto, using(svcb_pairs::proofs::Reading::part_read))]
    pub fn parse(parser: &mut Parser<'a>) -> Result<SvcParamsRef<'a>, ParseError>
        ensures answer { Gives seen_params result (read_pairs (octets_left parser.old)) }
        ensures in_message { Gives seen_params result
            (pairs_at parser.old.message parser.old.end parser.old.pos None) }
        ensures octets { IfOk result (λ view. view.slice.now ≡ octets_left parser.old) }
        ensures takes { TakesAll parser.old parser.new result }
    {
        let view = SvcParamsRef::from_slice(parser.remaining_octets())?;
        parser.advance_to_end();
        Ok(view)
    }

    /// The first key with the octets of its value, and the parameters behind them. None exactly where there are no
    /// parameters.
    #[tactic(auto, using(svcb_pairs::proofs::FirstPair::first_pair_rules))]
    pub(crate) fn split_first(&self) -> Option<(u16, &'a [u8], SvcParamsRef<'a>)>
        ensures { MatchOption result
            (seen_params self.now ≡ [])
            (λ first. IsFirstPair self.now.slice.now first.0 first.1.now first.2.slice.now) }
    {
        let (key, value, rest) = split_param(self.slice).ok()?;
        Some((key, value, SvcParamsRef { slice: rest }))
    }

    /// The octets in wire form.
    pub fn as_slice(&self) -> &'a [u8]
        ensures octets { result.now ≡ self.now.slice.now }
        ensures wire { result.now ≡ wire (seen_params self.now) }
        ensures is_map { IsMap (seen_params self.now) }
    {
        self.slice
    }

    /// The count of octets in wire form.
    pub fn len(&self) -> usize
        ensures { result ≡ length (wire (seen_params self.now)) }
    {
        self.slice.len()
    }

    /// Whether there are no parameters.
    #[tactic(auto, using(svcb_pairs::proofs::Reading::reading_rules))]
    pub fn is_empty(&self) -> bool
        ensures { result ≡ (length (seen_params self.now) == 0) }
    {
        self.slice.is_empty()
    }

    /// The values of all types, by ascending keys: [`iter`](Self::iter) of [`AllValuesRef`]. [`ValueIter`] says how
    /// to loop over them. Takes no memory.
    pub fn iter_all(&self) -> ValueIter<'_, AllValuesRef<'_>>
        ensures { result ≡ seen_params self.now }
    {
        ValueIter::new(*self)
    }

    /// All parameters by ascending keys, each as a key and octets. Takes no memory.
    pub fn iter_raw(&self) -> RawIter<'a>
        ensures { result ≡ seen_params self.now }
    {
        RawIter::new(*self)
    }

    /// The values of one type, by ascending keys: of each key that the type takes the value that its octets wholly
    /// are, or the fault that they have. Ends after its first error. [`ValueIter`] says how to loop over them. Takes
    /// no memory.
    pub fn iter<'s, V: ParseSvcParamValue<'s>>(&'s self) -> ValueIter<'s, V>
        ensures { result ≡ seen_params self.now }
    {
        ValueIter::new(*self)
    }

    /// The first item of `iter`. None where there is none, or it is an error. Takes no memory. Of a type that takes
    /// one key it is the value under that key, whatever other keys hold.
    pub fn first<'s, V: ParseSvcParamValue<'s>>(&'s self) -> Option<V>
        ensures { IsFirst V.seen V.takes V.reads (seen_params self.now) result }
    {
        first_of(*self)
    }

    /// The same parameters with octets of their own.
    ///
    /// `NoMemory`: allocation failed.
    pub fn to_owned_data(&self, alloc: Global) -> Result<SvcParams, NoMemory>
        ensures { IfOk result (λ params. params ≡ seen_params self.now) }
    {
        Ok(SvcParams::from_checked_octets(Octets::from_slice(alloc, self.slice)?))
    }

    /// Appends the parameters in wire form.
    ///
    /// `NoMemory`: allocation failed; the target's octets are unchanged.
    pub fn compose(&self, target: &mut Vec<u8>) -> Result<(), NoMemory>
        ensures appends { AppendsOctets target.old.items target.new.items
            (wire (seen_params self.now)) result }
    {
        target.extend_from_slice(self.slice)?;
        Ok(())
    }
}
