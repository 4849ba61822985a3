//! Parameters that are put together in any order, within a limit.

ghost use Rattle.std.specs.Prelude.{◌≡◌, ◌+◌, ◌-◌, ◌≤◌, ◌<◌, ◌^◌, [], length, IsSome, IsNone, IfOk, IsErrOf, ◌↔◌};
ghost use Rattle.svcb_spec.specs.Params.{value_at, wire, IsMap};
ghost use Rattle.svcb_params.specs.ParamsView.{seen_params};
ghost use Rattle.svcb_pairs.specs.BuilderState.{empty_builder};
ghost use Rattle.svcb_pairs.specs.Pushing.{Pushes, IsPushAnswer, len_with};
ghost use Rattle.svcb_params.specs.declared.errors.BufError.TheVariants as buf;
ghost use Rattle.svcb_pairs.specs.declared.errors.PushError.TheVariants as errors;

use crate::errors::BufError;
use crate::params::SvcParams;
use crate::params_ref::SvcParamsRef;
use registry::ComposeSvcParamValue;
use std::alloc::Global;
use std::marker::Model;
use svcb_pairs::{LimitedPairs, PushError};
use wire_base::{NoMemory, Octets};

/// Builds [`SvcParams`] of values that are pushed in any order, within a limit on the octets of all in wire form.
///
/// The first value under a key stays, and a second one is refused, as is a value that would pass the limit; a refused
/// push changes nothing. The values stand in one buffer until [`freeze`](Self::freeze) writes them by ascending keys.
///
/// ```
/// let mut builder = SvcParamsBuilder::with_limit(alloc, 512);
/// builder.port(8443)?;
/// builder.dohpath("/dns-query{?dns}")?;
/// let params = builder.freeze(alloc)?;
/// ```
///
/// Contracts see the map, as the list of its pairs by ascending keys, and the limit.
#[derive(Debug, Drop)]
pub struct SvcParamsBuilder {
    /// No octets were read: the values stand in the buffer.
    pairs: LimitedPairs,
    alloc: Global,
}

impl Model for SvcParamsBuilder {
    ghost use Rattle.std.specs.Prelude.{[]};
    ghost use Rattle.svcb_pairs.specs.BuilderState.{BuilderState};
    ghost use Rattle.svcb_pairs.specs.LimitedPairsView.{builder_state, IsSpanned};

    ghost Value = { BuilderState };

    ghost view = { λ builder. builder_state [] builder.pairs };

    ghost invariant = { λ builder. IsSpanned [] builder.pairs };
}

impl SvcParamsBuilder {
    /// The limit of a builder that was given none.
    const MAX_LIMIT: usize = (1 << 31) - 1;

    /// A builder without parameters, whose limit is 2^31 - 1 octets. Takes no memory.
    pub fn empty(alloc: Global) -> SvcParamsBuilder
        ensures { result ≡ empty_builder }
    {
        SvcParamsBuilder::with_limit(alloc, SvcParamsBuilder::MAX_LIMIT)
    }

    /// A builder without parameters, and its limit in octets, which is below 2^31. Takes no memory.
    pub fn with_limit(alloc: Global, limit: usize) -> SvcParamsBuilder
        requires { limit < 2 ^ 31 }
        ensures { result ≡ record { pairs = []; limit = limit } }
    {
        SvcParamsBuilder {
            pairs: LimitedPairs::empty(alloc, limit),
            alloc,
        }
    }

    /// A builder of parameters, whose limit is 2^31 - 1 octets.
    ///
    /// `ShortBuf`: the parameters have more octets in wire form than the limit, which is tested before any memory is
    /// taken. `NoMemory`: allocation failed.
    pub fn from_params(
        alloc: Global,
        params: &SvcParamsRef<'_>,
    ) -> Result<SvcParamsBuilder, BufError>
        ensures short { IsErrOf result buf.ShortBuf
            ↔ (2 ^ 31 - 1 < length (wire (seen_params params.now))) }
        ensures ok { IfOk result (λ builder. builder
            ≡ record { pairs = seen_params params.now; limit = 2 ^ 31 - 1 }) }
    {
        SvcParamsBuilder::from_params_limit(alloc, params, SvcParamsBuilder::MAX_LIMIT)
    }

    /// A builder of parameters, and its limit in octets, which is below 2^31.
    ///
    /// `ShortBuf`: the parameters have more octets in wire form than the limit, which is tested before any memory is
    /// taken. `NoMemory`: allocation failed.
    pub fn from_params_limit(
        alloc: Global,
        params: &SvcParamsRef<'_>,
        limit: usize,
    ) -> Result<SvcParamsBuilder, BufError>
        requires { limit < 2 ^ 31 }
        ensures short { IsErrOf result buf.ShortBuf
            ↔ (limit < length (wire (seen_params params.now))) }
        ensures ok { IfOk result (λ builder. builder
            ≡ record { pairs = seen_params params.now; limit = limit }) }
    {
        if params.len() > limit {
            return Err(BufError::ShortBuf);
        }
        Ok(SvcParamsBuilder {
            pairs: LimitedPairs::copy_of(alloc, params.as_slice(), limit)?,
            alloc,
        })
    }

    /// The count of the parameters' octets in wire form.
    pub fn len(&self) -> usize
        ensures len { result ≡ length (wire self.now.pairs) }
        ensures within { result ≤ self.now.limit }
        ensures is_map { IsMap self.now.pairs }
        ensures in_range { self.now.limit < 2 ^ 31 }
    {
        self.pairs.wire_len
    }

    /// Adds a value under its key.
    ///
    /// `DuplicateKey`: the key has a value already, which stays. `ShortBuf`: the key is new, and with the value the
    /// parameters would have more octets in wire form than the limit. `NoMemory`: allocation failed, which may come in
    /// place of any answer. A refused push changes nothing.
    ///
    /// Views are values too. So octets at hand are pushed without an allocation of one's own as
    /// `builder.push(&UnknownSvcParamRef::new(key, octets)?)?`, where the key may also have a type.
    pub fn push<V: ComposeSvcParamValue>(&mut self, value: &V) -> Result<(), PushError>
        ensures pushes { Pushes self.old self.new (V.key_of value.now) (V.octets value.now)
            result (IsPushAnswer result) }
        // The key has a value already.
        ensures duplicate { IsErrOf result errors.DuplicateKey
            → IsSome (value_at self.old.pairs (V.key_of value.now)) }
        // The key is new, and the octets don't fit.
        ensures short { IsErrOf result errors.ShortBuf
            → self.old.limit < len_with self.old (V.octets value.now) }
        ensures short_fresh { IsErrOf result errors.ShortBuf
            → IsNone (value_at self.old.pairs (V.key_of value.now)) }
    {
        self.pairs.push(&[], value)
    }

    /// Where the builder's memory comes from.
    pub(crate) fn alloc(&self) -> Global {
        self.alloc
    }

    /// The parameters. The builder is unchanged.
    ///
    /// `NoMemory`: allocation failed.
    pub fn freeze(&self, alloc: Global) -> Result<SvcParams, NoMemory>
        ensures { IfOk result (λ params. params ≡ self.now.pairs) }
    {
        let mut octets = Vec::with_capacity(alloc, self.pairs.wire_len)?;
        self.pairs.compose(&[], &mut octets)?;
        Ok(SvcParams::from_checked_octets(Octets::from_vec(octets)))
    }

    /// A copy.
    ///
    /// `NoMemory`: allocation failed.
    pub fn try_clone(&self) -> Result<SvcParamsBuilder, NoMemory>
        ensures { IfOk result (λ copy. copy ≡ self.now) }
    {
        Ok(SvcParamsBuilder {
            pairs: self.pairs.try_clone(self.alloc)?,
            alloc: self.alloc,
        })
    }
}
