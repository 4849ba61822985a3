//! Spans of values in a run of octets: octets that were read, and behind them those of a buffer.

ghost use Rattle.std.specs.Prelude.{◌≡◌, ◌+◌, ◌≤◌, ◌<◌, ◌++◌, length, vec_len, vec_capacity, IfOk};
ghost use Rattle.std.specs.BTreeMap.{IsFromIterResult};
ghost use Rattle.std.specs.Ordering.{nat_cmp};
ghost use Rattle.svcb_spec.specs.Params.{wire, IsMap};
ghost use Rattle.svcb_pairs.specs.Parameters.{pairs_in, IsParameters};
ghost use Rattle.svcb_pairs.specs.Spans.{octets_of_span, limited_pairs, IsInside, AreInside};

use crate::span::Span;
use std::alloc::Global;
use std::collections::BTreeMap;
use svcb_value::parameter::{put_param, split_param};
use wire_base::NoMemory;

/// The octets of a span.
fn octets_of_span<'s>(read: &'s [u8], own: &'s [u8], span: Span) -> &'s [u8]
    requires { IsInside (length read.now) (length read.now + length own.now) span }
    ensures { result.now ≡ octets_of_span (read.now ++ own.now) span }
{
    if span.start < read.len() {
        &read[span.start..span.start + span.len]
    } else {
        let start = span.start - read.len();
        &own[start..start + span.len]
    }
}

/// The map of keys that ascend. It is made in linear time.
fn map_of(alloc: Global, entries: Vec<(u16, Span)>) -> Result<BTreeMap<u16, Span>, NoMemory>
    ensures { IfOk result (IsFromIterResult nat_cmp entries.items) }
{
    Ok(entries.into_iter().collect(alloc)?)
}

/// Where the values of parameters stand in their octets.
#[tactic(auto, using(crate::proofs::FirstPair::first_pair_rules))]
pub(crate) fn spans_of(alloc: Global, octets: &[u8]) -> Result<BTreeMap<u16, Span>, NoMemory>
    requires { IsParameters octets.now }
    ensures pairs { IfOk result
        (λ spans. limited_pairs octets.now spans.entries ≡ pairs_in octets.now) }
    ensures inside { IfOk result
        (λ spans. AreInside (length octets.now) (length octets.now) spans.entries) }
{
    let mut entries = Vec::new(alloc);
    let mut rest = octets;
    while let Ok((key, value, behind)) = split_param(rest) {
        let start = octets.len() - behind.len() - value.len();
        let len = value.len();
        entries.push((key, Span { start, len }))?;
        rest = behind;
    }
    map_of(alloc, entries)
}

/// Appends the pairs of spans by ascending keys, for which there is room.
pub(crate) fn put_spans(target: &mut Vec<u8>, read: &[u8], own: &[u8], spans: &BTreeMap<u16, Span>)
    requires is_map { IsMap (limited_pairs (read.now ++ own.now) spans.now.entries) }
    requires inside { AreInside
        (length read.now) (length read.now + length own.now) spans.now.entries }
    requires room { vec_len target.old
        + length (wire (limited_pairs (read.now ++ own.now) spans.now.entries))
        ≤ vec_capacity target.old }
    ensures { target.new.items
        ≡ target.old.items ++ wire (limited_pairs (read.now ++ own.now) spans.now.entries) }
{
    for (key, span) in spans {
        put_param(target, *key, octets_of_span(read, own, *span));
    }
}
