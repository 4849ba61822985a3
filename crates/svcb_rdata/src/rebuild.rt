//! Record data with parameters added.

ghost use Rattle.std.specs.Prelude.{◌≡◌, ◌↔◌, ◌+◌, ◌≤◌, ◌<◌, ◌^◌, length, map};
ghost use Rattle.std.specs.Prelude.{Err, IfOk, OnOk, IsErrOf, IsOkAnd};
ghost use Rattle.name_spec.specs.Octets.{Short, Form};
ghost use Rattle.svcb_spec.specs.Params.{wire};
ghost use Rattle.svcb_spec.specs.Values.{IsValue, AreValues};
ghost use Rattle.svcb_spec.specs.Records.{rdata, read};
ghost use Rattle.svcb_spec.specs.Rebuilding.{accept, rebuild_read, rebuild};
ghost use Rattle.wire_base.specs.declared.errors.ParseError.TheVariants as parse;
ghost use Rattle.wire_base.specs.Faults.{Gives};
ghost use Rattle.svcb_text.specs.AllValues.{value_of};
ghost use Rattle.svcb_rdata.specs.declared.errors.RebuildError.TheVariants as errors;
ghost use Rattle.svcb_rdata.specs.Pushing.{reply_of_value, behind_value};
ghost use Rattle.svcb_rdata.specs.Reading.{record_of};
ghost use Rattle.svcb_rdata.specs.RebuiltView.{AnswersRebuild, IsRebuiltFrom, rebuilt_len};

use crate::errors::RebuildError;
use crate::replies::Replies;
use crate::svcb_ref::SvcbRef;
use crate::variant::SvcbVariant;
use registry::{ComposeSvcParamValue, Integer};
use std::alloc::Global;
use svcb_params::{PushError, SvcParamsOverlay};
use svcb_spec::Reply;
use svcb_text::AllValues;
use wire_base::{LongRecordData, NoMemory, Octets, ParseError, Parser};

/// Pushes a value, which may be refused, and replies.
fn push_one(params: &mut SvcParamsOverlay<'_>, push: &AllValues) -> Result<Reply, NoMemory>
    ensures reply { IfOk result
        (λ reply. reply ≡ reply_of_value params.old.builder (value_of push.now)) }
    ensures ok { IfOk result (λ reply. params.new.builder
        ≡ behind_value params.old.builder (value_of push.now) reply) }
    ensures value { IsValue (value_of push.now) }
{
    // its length tells that it has the items of its type, within 65,535 octets
    let _len = push.compose_len();
    match params.push(push) {
        Ok(()) => Ok(Reply::Accepted),
        Err(PushError::DuplicateKey) => Ok(Reply::DuplicateKey),
        Err(PushError::ShortBuf) => Ok(Reply::ShortBuf),
        Err(PushError::NoMemory) => Err(NoMemory),
    }
}

/// Tries the pushes in order, with a reply to each.
fn push_all(
    alloc: Global,
    params: &mut SvcParamsOverlay<'_>,
    pushes: &[AllValues],
) -> Result<Replies, NoMemory>
    ensures replies { IfOk result (λ replies.
        accept params.old.builder.pairs params.old.builder.limit (map value_of pushes.now)
        ≡ record { pairs = params.new.builder.pairs; replies = replies }) }
    ensures values { OnOk result (AreValues (map value_of pushes.now)) }
{
    let mut replies = Vec::with_capacity(alloc, pushes.len())?;
    for push in pushes {
        let reply = push_one(params, push)?;
        replies.push(reply)?;
    }
    Ok(Replies::from_vec(replies))
}

/// Reads the record data in the `len` octets from `start` on. Refused by its first fault. Takes no memory.
#[tactic(auto, using(crate::proofs::Records::read_here))]
pub(crate) fn read_record(
    message: &[u8],
    start: usize,
    len: usize,
) -> Result<SvcbRef<'_, SvcbVariant>, ParseError>
    requires { start + len ≤ length message.now }
    ensures { Gives record_of result (read message.now start len) }
{
    let mut parser = Parser::from_ref(message);
    parser.advance(start)?;
    let mut part = parser.parse_parser(len)?;
    SvcbRef::parse(&mut part)
}

/// The count of octets of record data with these parameters, its target uncompressed.
fn rdlen(found: &SvcbRef<'_, SvcbVariant>, params: &SvcParamsOverlay<'_>) -> usize
    ensures { result
        ≡ length (rdata found.now.priority found.now.target.labels params.now.builder.pairs) }
{
    2 + usize::from(found.target().compose_len()) + params.len()
}

/// Record data of so many octets with these parameters. Its room is made once.
fn compose(
    alloc: Global,
    len: usize,
    found: &SvcbRef<'_, SvcbVariant>,
    params: &SvcParamsOverlay<'_>,
) -> Result<Octets, NoMemory>
    ensures { IfOk result
        (λ octets. octets
        ≡ rdata found.now.priority found.now.target.labels params.now.builder.pairs) }
{
    let mut octets = Vec::with_capacity(alloc, len)?;
    found.priority().compose(&mut octets)?;
    found.target().compose(&mut octets)?;
    params.compose(&mut octets)?;
    Ok(Octets::from_vec(octets))
}

/// Record data that was rebuilt.
#[derive(Debug, PartialEq, Eq, Drop)]
pub struct Rebuilt {
    /// The record data in wire form, its target uncompressed.
    pub octets: Octets,
    /// A reply to each push.
    pub replies: Replies,
}

/// A record that was read, with the pushes, as [`rebuild_svcb`] does.
#[tactic(auto, using(std::proofs::lemmas::Bool::Decides::nat_tests))]
fn add_pushes(
    alloc: Global,
    found: &SvcbRef<'_, SvcbVariant>,
    pushes: &[AllValues],
    limit: usize,
) -> Result<Rebuilt, RebuildError>
    requires { limit < 2 ^ 31 }
    ensures answer { AnswersRebuild result
        (rebuild_read (record_of found.now) (map value_of pushes.now) limit) }
    ensures values { OnOk result (AreValues (map value_of pushes.now)) }
{
    let mut params = SvcParamsOverlay::new(alloc, &found.params(), limit)?;
    let replies = push_all(alloc, &mut params, pushes)?;
    let rdlen = rdlen(found, &params);
    LongRecordData::check_len(rdlen)?;
    let octets = compose(alloc, rdlen, found, &params)?;
    Ok(Rebuilt { octets, replies })
}

/// Reads the SVCB or HTTPS record data in the `len` octets from `start` on, and adds the pushes to its parameters in
/// order, within a limit on the octets of all parameters in wire form (RFC 9460, section 2.2). A push may be refused;
/// its reply says so, and the next one is tried.
///
/// `Parse(ShortInput)`, `Parse(Form)`: the first fault of the data, as [`SvcbRef::parse`] tells it. `ShortBuf`: the
/// parameters that were read have more octets than the limit. These are tested before any memory is taken.
/// `LongRecordData`: the result would have more than 65,535 octets. `NoMemory`: allocation failed, which may come in
/// place of the result or of `LongRecordData`. No reply is given where nothing is rebuilt.
///
/// The clause `rebuilding` is the premise of the laws of `svcb_spec::laws` on what rebuilding leaves.
#[tactic(auto, using(crate::proofs::Refusals::refusals), unfolding(svcb_spec::specs::Rebuilding::rebuild))]
pub fn rebuild_svcb(
    alloc: Global,
    message: &[u8],
    start: usize,
    len: usize,
    pushes: &[AllValues],
    limit: usize,
) -> Result<Rebuilt, RebuildError>
    requires place { start + len ≤ length message.now }
    requires limit { limit < 2 ^ 31 }

    ensures answer { AnswersRebuild result
        (rebuild message.now start len (map value_of pushes.now) limit) }
    ensures rebuilding { IfOk result
        (IsRebuiltFrom message.now start len (map value_of pushes.now) limit) }

    // Each refusal and its cause.
    ensures short_input { IsErrOf result (errors.Parse parse.ShortInput)
        ↔ (read message.now start len ≡ Err Short) }
    ensures form { IsErrOf result (errors.Parse parse.Form)
        ↔ (read message.now start len ≡ Err Form) }
    ensures short_buf { IsErrOf result errors.ShortBuf
        ↔ IsOkAnd (read message.now start len) (λ found. limit < length (wire found.pairs)) }
    ensures long { IsErrOf result errors.LongRecordData → IsOkAnd (read message.now start len)
        (λ found. 65535 < rebuilt_len found (map value_of pushes.now) limit) }
    ensures fits { IfOk result (λ done. length done.octets ≤ 65535) }
{
    let found = read_record(message, start, len)?;
    add_pushes(alloc, &found, pushes, limit)
}
