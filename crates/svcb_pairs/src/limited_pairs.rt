//! Pairs within a limit, whose values stand where they were read or in one buffer.

ghost use Rattle.std.specs.Prelude.{◌≡◌, ◌+◌, ◌≤◌, ◌<◌, ◌^◌, [], length, vec_len, vec_capacity, IfOk, OnErr};
ghost use Rattle.svcb_spec.specs.Params.{wire};
ghost use Rattle.wire_base.specs.Moving.{AppendsOctets};
ghost use Rattle.svcb_pairs.specs.Parameters.{pairs_in, IsParameters};
ghost use Rattle.svcb_pairs.specs.Pushing.{Pushes, IsPushAnswer};

use crate::errors::PushError;
use crate::span::Span;
use crate::spans::{put_spans, spans_of};
use registry::ComposeSvcParamValue;
use std::alloc::Global;
use std::collections::BTreeMap;
use std::collections::btree_map::Entry;
use wire_base::NoMemory;

/// Pairs by their keys, within a limit on their octets in wire form. A value stands in octets that were read, which
/// stay with the caller, or in the buffer behind them.
#[derive(Debug, Drop)]
pub struct LimitedPairs {
    /// The buffer.
    pub own: Vec<u8>,
    /// Where each value stands in the octets that were read and the buffer, joined.
    pub spans: BTreeMap<u16, Span>,
    /// The count of the pairs' octets in wire form.
    pub wire_len: usize,
    /// The most octets that they may have.
    pub limit: usize,
}

impl LimitedPairs {
    ghost use Rattle.svcb_pairs.specs.Spans.{kept_behind};
    ghost use Rattle.svcb_pairs.specs.LimitedPairsView.{builder_state, kept_octets, IsSpanned};

    /// No pairs, and a limit in octets, which is below 2^31. No octets were read. Takes no memory.
    pub fn empty(alloc: Global, limit: usize) -> LimitedPairs
        requires { limit < 2 ^ 31 }
        ensures spanned { IsSpanned [] result }
        ensures builder { builder_state [] result ≡ record { pairs = []; limit = limit } }
    {
        LimitedPairs {
            own: Vec::new(alloc),
            spans: BTreeMap::new(alloc),
            wire_len: 0,
            limit,
        }
    }

    /// The pairs of parameters, which were read, and a limit in octets, which is below 2^31.
    ///
    /// `NoMemory`: allocation failed.
    pub fn new(alloc: Global, read: &[u8], limit: usize) -> Result<LimitedPairs, NoMemory>
        requires are_parameters { IsParameters read.now }
        requires within { length read.now ≤ limit }
        requires in_range { limit < 2 ^ 31 }
        ensures spanned { IfOk result (IsSpanned read.now) }
        ensures builder { IfOk result (λ pairs. builder_state read.now pairs
            ≡ record { pairs = pairs_in read.now; limit = limit }) }
        ensures kept { IfOk result (λ pairs. kept_octets pairs ≡ 0) }
    {
        Ok(LimitedPairs {
            own: Vec::new(alloc),
            spans: spans_of(alloc, read)?,
            wire_len: read.len(),
            limit,
        })
    }

    /// The pairs of parameters, whose octets are copied into the buffer as a whole, and a limit in octets, which is
    /// below 2^31. No octets were read.
    ///
    /// `NoMemory`: allocation failed.
    pub fn copy_of(alloc: Global, octets: &[u8], limit: usize) -> Result<LimitedPairs, NoMemory>
        requires are_parameters { IsParameters octets.now }
        requires within { length octets.now ≤ limit }
        requires in_range { limit < 2 ^ 31 }
        ensures spanned { IfOk result (IsSpanned []) }
        ensures builder { IfOk result (λ pairs. builder_state [] pairs
            ≡ record { pairs = pairs_in octets.now; limit = limit }) }
    {
        Ok(LimitedPairs {
            own: Vec::from_slice(alloc, octets)?,
            spans: spans_of(alloc, octets)?,
            wire_len: octets.len(),
            limit,
        })
    }

    /// Adds a value under its key. Its octets are appended to the buffer.
    ///
    /// `DuplicateKey`: the key has a value already, which stays. `ShortBuf`: the key is new, and with the value the
    /// pairs would have more octets in wire form than the limit. `NoMemory`: allocation failed, which may come in place
    /// of any answer. A refused push changes nothing.
    #[tactic(auto, using(crate::proofs::SpanLemmas::span_rules))]
    pub fn push<V: ComposeSvcParamValue>(&mut self, read: &[u8], value: &V) -> Result<(), PushError>
        requires { IsSpanned read.now self.old }
        ensures spanned { IsSpanned read.now self.new }
        ensures pushes { Pushes (builder_state read.now self.old) (builder_state read.now self.new)
            (V.key_of value.now) (V.octets value.now) result (IsPushAnswer result) }
        ensures kept { kept_octets self.new
            ≡ kept_behind result (kept_octets self.old) (V.octets value.now) }
    {
        let key = u16::from(value.key());
        let len = usize::from(value.compose_len());
        let grown = self.wire_len + 4 + len;
        match self.spans.entry(key) {
            // the map has room for the key, so no memory is asked for once the value stands in the buffer
            Ok(Entry::Vacant(place)) => {
                if grown > self.limit {
                    return Err(PushError::ShortBuf);
                }
                let start = read.len() + self.own.len();
                value.compose_value(&mut self.own)?;
                place.insert(Span { start, len });
                self.wire_len = grown;
                Ok(())
            }
            Ok(Entry::Occupied(_place)) => Err(PushError::DuplicateKey),
            Err(_) => Err(PushError::NoMemory),
        }
    }

    /// Appends the pairs in wire form, by ascending keys. Their room is made first.
    ///
    /// `NoMemory`: allocation failed; the target is unchanged.
    pub fn compose(&self, read: &[u8], target: &mut Vec<u8>) -> Result<(), NoMemory>
        requires { IsSpanned read.now self.now }
        ensures appends { AppendsOctets target.old.items target.new.items
            (wire (builder_state read.now self.now).pairs) result }
        ensures full { OnErr result (vec_capacity target.old
            < vec_len target.old + length (wire (builder_state read.now self.now).pairs)) }
    {
        target.reserve(self.wire_len)?;
        put_spans(target, read, self.own.as_slice(), &self.spans);
        Ok(())
    }

    /// A copy.
    ///
    /// `NoMemory`: allocation failed.
    pub fn try_clone(&self, alloc: Global) -> Result<LimitedPairs, NoMemory>
        ensures own { IfOk result (λ copy. copy.own.items ≡ self.now.own.items) }
        ensures spans { IfOk result (λ copy. copy.spans.entries ≡ self.now.spans.entries) }
        ensures wire_len { IfOk result (λ copy. copy.wire_len ≡ self.now.wire_len) }
        ensures limit { IfOk result (λ copy. copy.limit ≡ self.now.limit) }
    {
        Ok(LimitedPairs {
            own: Vec::from_slice(alloc, self.own.as_slice())?,
            spans: self.spans.clone()?,
            wire_len: self.wire_len,
            limit: self.limit,
        })
    }
}
