//! Parameters that were read, with values added to them.

ghost use Rattle.std.specs.Prelude.{◌≡◌, ◌↔◌, ◌+◌, ◌≤◌, ◌<◌, ◌^◌, length, vec_len, vec_capacity, IsSome, IsNone, IfOk, IsErrOf, OnErr};
ghost use Rattle.svcb_spec.specs.Params.{value_at, wire, IsMap};
ghost use Rattle.wire_base.specs.Moving.{AppendsOctets};
ghost use Rattle.svcb_pairs.specs.Pushing.{Pushes, IsPushAnswer, len_with};
ghost use Rattle.svcb_pairs.specs.Spans.{kept_behind};
ghost use Rattle.svcb_pairs.specs.declared.errors.PushError.TheVariants as errors;
ghost use Rattle.svcb_params.specs.ParamsView.{seen_params};
ghost use Rattle.svcb_params.specs.declared.errors.BufError.TheVariants as buf;

use crate::errors::BufError;
use crate::params_ref::SvcParamsRef;
use registry::ComposeSvcParamValue;
use std::alloc::Global;
use std::marker::Model;
use svcb_pairs::{LimitedPairs, PushError};
use wire_base::NoMemory;

/// Parameters that were read, with values added, within a limit on the octets of all in wire form.
///
/// The values that were read are borrowed, and those that are added stand in one buffer: no value that was read is
/// copied before [`compose`](Self::compose) writes all by ascending keys. As in a [builder](crate::SvcParamsBuilder),
/// the first value under a key stays, and a refused push changes nothing.
///
/// ```
/// let read = SvcParamsRef::from_slice(b"\x00\x03\x00\x02\x00\x35")?;
/// let mut overlay = SvcParamsOverlay::new(alloc, &read, 100)?;
/// overlay.push(&UnknownSvcParamRef::new(SvcParamKey::ECH, b"\xaa\xbb")?)?;
/// let mut octets = Vec::new(alloc);
/// overlay.compose(&mut octets)?;
/// ```
///
/// Contracts see the map with the limit as they see a builder's, and the count of octets in the buffer.
#[derive(Debug, Drop)]
pub struct SvcParamsOverlay<'a> {
    read: &'a [u8],
    pairs: LimitedPairs,
}

impl<'a> Model for SvcParamsOverlay<'a> {
    ghost use Rattle.svcb_pairs.specs.LimitedPairsView.{builder_state, kept_octets, IsSpanned};
    ghost use Rattle.svcb_params.specs.OverlayState.{OverlayState};

    ghost Value = { OverlayState };

    ghost view = { λ overlay. record {
      builder = builder_state overlay.read.now overlay.pairs;
      kept = kept_octets overlay.pairs;
    } };

    ghost invariant = { λ overlay. IsSpanned overlay.read.now overlay.pairs };
}

impl<'a> SvcParamsOverlay<'a> {
    /// An overlay of parameters, and its limit in octets, which is below 2^31.
    ///
    /// `ShortBuf`: the parameters have more octets in wire form than the limit, which is tested before any memory is
    /// taken. `NoMemory`: allocation failed.
    pub fn new(
        alloc: Global,
        params: &SvcParamsRef<'a>,
        limit: usize,
    ) -> Result<SvcParamsOverlay<'a>, BufError>
        requires { limit < 2 ^ 31 }
        ensures short { IsErrOf result buf.ShortBuf
            ↔ (limit < length (wire (seen_params params.now))) }
        ensures builder { IfOk result (λ overlay. overlay.builder
            ≡ record { pairs = seen_params params.now; limit = limit }) }
        ensures kept { IfOk result (λ overlay. overlay.kept ≡ 0) }
    {
        if params.len() > limit {
            return Err(BufError::ShortBuf);
        }
        let read = params.as_slice();
        let pairs = LimitedPairs::new(alloc, read, limit)?;
        Ok(SvcParamsOverlay { read, pairs })
    }

    /// The count of octets in the overlay's own buffer: those of the values that were added, and of no value that was
    /// read.
    pub fn kept(&self) -> usize
        ensures { result ≡ self.now.kept }
    {
        self.pairs.own.len()
    }

    /// The count of the parameters' octets in wire form.
    pub fn len(&self) -> usize
        ensures len { result ≡ length (wire self.now.builder.pairs) }
        ensures within { result ≤ self.now.builder.limit }
        ensures is_map { IsMap self.now.builder.pairs }
        ensures in_range { self.now.builder.limit < 2 ^ 31 }
    {
        self.pairs.wire_len
    }

    /// Adds a value under its key.
    ///
    /// `DuplicateKey`: the key has a value already, read or added, which stays. `ShortBuf`: the key is new, and with
    /// the value the parameters would have more octets in wire form than the limit. `NoMemory`: allocation failed,
    /// which may come in place of any answer. A refused push changes nothing.
    ///
    /// Views are values too. So octets at hand are pushed without an allocation of one's own as
    /// `overlay.push(&UnknownSvcParamRef::new(key, octets)?)?`, where the key may also have a type.
    pub fn push<V: ComposeSvcParamValue>(&mut self, value: &V) -> Result<(), PushError>
        ensures pushes { Pushes self.old.builder self.new.builder
            (V.key_of value.now) (V.octets value.now) result (IsPushAnswer result) }
        // The buffer grows by the value's octets where it is accepted, and else stays.
        ensures kept { self.new.kept ≡ kept_behind result self.old.kept (V.octets value.now) }
        // The key has a value already.
        ensures duplicate { IsErrOf result errors.DuplicateKey
            → IsSome (value_at self.old.builder.pairs (V.key_of value.now)) }
        // The key is new, and the octets don't fit.
        ensures short { IsErrOf result errors.ShortBuf
            → self.old.builder.limit < len_with self.old.builder (V.octets value.now) }
        ensures short_fresh { IsErrOf result errors.ShortBuf
            → IsNone (value_at self.old.builder.pairs (V.key_of value.now)) }
    {
        self.pairs.push(self.read, value)
    }

    /// Appends the parameters in wire form, by ascending keys. Their room is made first.
    ///
    /// `NoMemory`: allocation failed; the target is unchanged.
    pub fn compose(&self, target: &mut Vec<u8>) -> Result<(), NoMemory>
        ensures appends { AppendsOctets target.old.items target.new.items
            (wire self.now.builder.pairs) result }
        ensures full { OnErr result
            (vec_capacity target.old < vec_len target.old + length (wire self.now.builder.pairs)) }
    {
        self.pairs.compose(self.read, target)
    }
}
