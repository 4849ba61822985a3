//! Owned service parameters.

ghost use Rattle.std.specs.Prelude.{◌≡◌, ◌==◌, None, [], Ok, length, MatchResult, IfOk};
ghost use Rattle.svcb_spec.specs.Params.{pairs_at, wire, IsMap};
ghost use Rattle.wire_base.specs.Faults.{IsFaultOf, GivesCopy};
ghost use Rattle.wire_base.specs.Input.{octets_left};
ghost use Rattle.wire_base.specs.Moving.{TakesAll, AppendsOctets};
ghost use Rattle.svcb_pairs.specs.Parameters.{read_pairs, pairs_in, IsParameters};
ghost use Rattle.svcb_params.specs.ParamsView.{seen_params};
ghost use Rattle.svcb_params.specs.Items.{IsFirst};

use crate::params_error::SvcParamsError;
use crate::params_ref::SvcParamsRef;
use crate::raw_iter::RawIter;
use crate::value_iter::{ValueIter, first_of};
use registry::ParseSvcParamValue;
use std::alloc::Global;
use std::marker::Model;
use svcb_pairs::check_params;
use svcb_text::AllValuesRef;
use wire_base::{NoMemory, Octets, ParseError, Parser};

/// Service parameters: an ordered map from keys to values, in wire form (RFC 9460, section 2.2).
///
/// A parameter is its key and the length of its value, two octets each, and then the value. The parameters stand one
/// after another by strictly ascending keys, so each key occurs once, and equal parameters have equal octets. A value
/// may be any octets: whether they are a value of their key's type is tested when it is asked for, by a getter such
/// as [`port`](Self::port) or by [`iter_all`](Self::iter_all).
///
/// ```
/// let params = SvcParams::from_values(alloc, |builder: &mut SvcParamsBuilder| {
///     builder.ohttp()?;
///     builder.port(53)
/// })?;
/// assert_eq!(rt; params.as_slice(), b"\x00\x03\x00\x02\x00\x35\x00\x08\x00\x00".as_slice());
/// assert_eq!(rt; params.port().map(|port| port.port()), Some(53));
/// ```
///
/// A [builder](crate::SvcParamsBuilder) takes values in any order, [`parse`](Self::parse) reads parameters,
/// [`scan`](Self::scan) takes them from text, and [`SvcParamsRef`] is the view of parameters that are borrowed.
/// Parameters are compared by their octets. Contracts see the map, as the list of its pairs of a key and octets by
/// ascending keys.
#[derive(Debug, PartialEq, Eq, PartialOrd, Ord, Hash, Drop)]
pub struct SvcParams {
    octets: Octets,
}

impl Model for SvcParams {
    ghost use Rattle.svcb_spec.specs.Params.{Pairs, wire};
    ghost use Rattle.svcb_pairs.specs.Parameters.{pairs_in, IsParameters};

    ghost Value = { Pairs };

    ghost view = { λ params. pairs_in params.octets };

    ghost invariant = { λ params. IsParameters params.octets };

    ghost inverse = { λ pairs. record { octets = wire pairs } };

    ghost inverse_ok = { λ params is i. record { octets = is.wire i } };
}

impl SvcParams {
    /// The parameters that the octets are known to be.
    pub(crate) fn from_checked_octets(octets: Octets) -> SvcParams
        requires { IsParameters octets }
        ensures pairs { result ≡ pairs_in octets }
        ensures wire { wire result ≡ octets }
    {
        SvcParams { octets }
    }

    /// No parameters. Takes no memory.
    #[tactic(auto, using(svcb_pairs::proofs::Reading::reading_rules))]
    pub fn empty(alloc: Global) -> SvcParams
        ensures { result ≡ [] }
    {
        SvcParams::from_checked_octets(Octets::from_vec(Vec::new(alloc)))
    }

    /// The parameters that octets are, which are not copied; any count of octets is allowed. Takes no memory.
    ///
    /// The first fault in reading order refuses them, and they are dropped. `ShortInput`: a key, a length or a value
    /// runs past the end. `Form`: a key is not above the one before it (RFC 9460, section 2.2).
    pub fn from_octets(octets: Octets) -> Result<SvcParams, SvcParamsError>
        ensures answer { MatchResult result
            (λ params. read_pairs octets ≡ Ok params)
            (λ error. IsFaultOf error.0 (read_pairs octets)) }
        ensures wire { IfOk result (λ params. wire params ≡ octets) }
        ensures is_map { IfOk result IsMap }
    {
        check_params(octets.as_slice())?;
        Ok(SvcParams::from_checked_octets(octets))
    }

    /// The parameters that all octets before the end of the data are, with octets of their own.
    ///
    /// The first fault in reading order refuses them; the parser is then unchanged. `ShortInput`: a key, a length or
    /// a value runs past the end. `Form`: a key is not above the one before it (RFC 9460, section 2.2). `NoMemory`:
    /// the octets have no fault, and allocation failed.
    #[tactic(auto, using(svcb_pairs::proofs::Reading::part_read))]
    pub fn parse(alloc: Global, parser: &mut Parser<'_>) -> Result<SvcParams, ParseError>
        ensures answer { GivesCopy (λ params. params) result (read_pairs (octets_left parser.old)) }
        ensures in_message { GivesCopy (λ params. params) result
            (pairs_at parser.old.message parser.old.end parser.old.pos None) }
        ensures wire { IfOk result (λ params. wire params ≡ octets_left parser.old) }
        ensures is_map { IfOk result IsMap }
        ensures takes { TakesAll parser.old parser.new result }
    {
        let params = SvcParamsRef::from_slice(parser.remaining_octets())?.to_owned_data(alloc)?;
        parser.advance_to_end();
        Ok(params)
    }

    /// A view of the parameters.
    pub fn for_slice(&self) -> SvcParamsRef<'_>
        ensures pairs { seen_params result ≡ self.now }
        ensures octets { result.slice.now ≡ wire self.now }
        ensures is_map { IsMap self.now }
    {
        SvcParamsRef {
            slice: self.octets.as_slice(),
        }
    }

    /// The octets in wire form.
    pub fn as_octets(&self) -> &Octets
        ensures octets { result.now ≡ wire self.now }
        ensures is_map { IsMap self.now }
    {
        &self.octets
    }

    /// The octets in wire form.
    pub fn as_slice(&self) -> &[u8]
        ensures octets { result.now ≡ wire self.now }
        ensures is_map { IsMap self.now }
    {
        self.octets.as_slice()
    }

    /// The count of octets in wire form.
    pub fn len(&self) -> usize
        ensures { result ≡ length (wire self.now) }
    {
        self.octets.len()
    }

    /// Whether there are no parameters.
    pub fn is_empty(&self) -> bool
        ensures { result ≡ (length self.now == 0) }
    {
        self.for_slice().is_empty()
    }

    /// The values of all types, by ascending keys: [`iter`](Self::iter) of [`AllValuesRef`]. [`ValueIter`] says how
    /// to loop over them. Takes no memory.
    pub fn iter_all(&self) -> ValueIter<'_, AllValuesRef<'_>>
        ensures { result ≡ self.now }
    {
        ValueIter::new(self.for_slice())
    }

    /// All parameters by ascending keys, each as a key and octets. Takes no memory.
    pub fn iter_raw(&self) -> RawIter<'_>
        ensures { result ≡ self.now }
    {
        RawIter::new(self.for_slice())
    }

    /// The values of one type, by ascending keys: of each key that the type takes the value that its octets wholly
    /// are, or the fault that they have. Ends after its first error. [`ValueIter`] says how to loop over them. Takes
    /// no memory.
    pub fn iter<'s, V: ParseSvcParamValue<'s>>(&'s self) -> ValueIter<'s, V>
        ensures { result ≡ self.now }
    {
        ValueIter::new(self.for_slice())
    }

    /// The first item of `iter`. None where there is none, or it is an error. Takes no memory. Of a type that takes
    /// one key it is the value under that key, whatever other keys hold.
    pub fn first<'s, V: ParseSvcParamValue<'s>>(&'s self) -> Option<V>
        ensures { IsFirst V.seen V.takes V.reads self.now result }
    {
        first_of(self.for_slice())
    }

    /// A copy.
    ///
    /// `NoMemory`: allocation failed.
    pub fn try_clone(&self, alloc: Global) -> Result<SvcParams, NoMemory>
        ensures { IfOk result (λ params. params ≡ self.now) }
    {
        self.for_slice().to_owned_data(alloc)
    }

    /// Appends the parameters in wire form.
    ///
    /// `NoMemory`: allocation failed; the target's octets are unchanged.
    pub fn compose(&self, target: &mut Vec<u8>) -> Result<(), NoMemory>
        ensures appends { AppendsOctets target.old.items target.new.items (wire self.now) result }
    {
        self.for_slice().compose(target)
    }
}
