//! Record data of SVCB and HTTPS with parameters added.

ghost use Rattle.std.specs.Prelude.{◌≡◌, ◌≢◌, ◌+◌, ◌≤◌, ◌<◌, ◌^◌, length, map, take, true, false, slice_range, IfOk};
ghost use Rattle.std.specs.List.{list_all};
ghost use Rattle.name_spec.specs.Names.{name_wire};
ghost use Rattle.svcb_spec.specs.Params.{wire};
ghost use Rattle.svcb_spec.specs.Records.{rdata};
ghost use Rattle.svcb_spec.specs.Rebuilding.{accept};
ghost use Rattle.svcb_spec.specs.Values.{Unknown};
ghost use Rattle.svcb_rdata.specs.Pushing.{reply_of_value, behind_value};
ghost use Rattle.svcb_c.specs.Buffers.{over};
ghost use Rattle.svcb_c.specs.Svcb.{is_named, pushed_value, reply_number, rebuilt, rebuild_status, MayWantMemory, NeedsOctets, IsWritten, AreReplies};
ghost use Rattle.svcb_c.specs.declared.status.TheConstants.{HW_OK, HW_E_ROOM, HW_E_MEMORY};

use crate::buffers::put_front;
use crate::faults::read_status;
use crate::records::SvcbPush;
use crate::status::*;
use crate::svcb_reading::{Found, find, is_within};
use registry::{Integer, LongSvcParam, SvcParamKey};
use std::alloc::Global;
use svcb_params::{BufError, PushError, SvcParamsOverlay};
use svcb_spec::Reply;
use svcb_value::UnknownSvcParamRef;
use wire_base::NoMemory;

/// Whether the octets that a push names are there.
fn is_named(octets: &[u8], push: &SvcbPush) -> bool
    ensures { result ≡ is_named octets.now push.now }
{
    is_within(octets, push.start, usize::from(push.len))
}

/// Whether the octets that the pushes name are there.
fn are_named(octets: &[u8], pushes: &[SvcbPush]) -> bool
    ensures { result ≡ list_all (is_named octets.now) pushes.now }
{
    for push in pushes {
        if !is_named(octets, push) {
            return false;
        }
    }
    true
}

/// The octets that a push names.
fn part<'a>(octets: &'a [u8], push: &SvcbPush) -> &'a [u8]
    requires { is_named octets.now push.now ≡ true }
    ensures part { result.now
        ≡ slice_range octets.now push.now.start (push.now.start + push.now.len) }
    ensures few { length result.now < 65536 }
{
    &octets[push.start..push.start + usize::from(push.len)]
}

/// Pushes octets under a key, which may be refused, and replies.
fn push_octets(
    params: &mut SvcParamsOverlay<'_>,
    key: u16,
    octets: &[u8],
) -> Result<Reply, NoMemory>
    requires { length octets.now < 65536 }
    ensures reply { IfOk result
        (λ reply. reply ≡ reply_of_value params.old.builder (Unknown key octets.now)) }
    ensures ok { IfOk result (λ reply. params.new.builder
        ≡ behind_value params.old.builder (Unknown key octets.now) reply) }
{
    let value = match UnknownSvcParamRef::new(SvcParamKey::from(key), octets) {
        Ok(value) => value,
        Err(LongSvcParam) => unreachable!(),
    };
    match params.push(&value) {
        Ok(()) => Ok(Reply::Accepted),
        Err(PushError::DuplicateKey) => Ok(Reply::DuplicateKey),
        Err(PushError::ShortBuf) => Ok(Reply::ShortBuf),
        Err(PushError::NoMemory) => Err(NoMemory),
    }
}

/// Pushes what a push names, which may be refused, and replies.
fn push_named(
    params: &mut SvcParamsOverlay<'_>,
    octets: &[u8],
    push: SvcbPush,
) -> Result<Reply, NoMemory>
    requires { is_named octets.now push ≡ true }
    ensures reply { IfOk result
        (λ reply. reply ≡ reply_of_value params.old.builder (pushed_value octets.now push)) }
    ensures ok { IfOk result (λ reply. params.new.builder
        ≡ behind_value params.old.builder (pushed_value octets.now push) reply) }
{
    push_octets(params, push.key, part(octets, &push))
}

/// Tries the pushes in order, with a reply to each.
fn push_all(
    alloc: Global,
    params: &mut SvcParamsOverlay<'_>,
    octets: &[u8],
    pushes: &[SvcbPush],
) -> Result<Vec<Reply>, NoMemory>
    requires { list_all (is_named octets.now) pushes.now ≡ true }
    ensures replies { IfOk result (λ replies.
        accept params.old.builder.pairs params.old.builder.limit
        (map (pushed_value octets.now) pushes.now)
        ≡ record { pairs = params.new.builder.pairs; replies = replies.items }) }
    ensures count { IfOk result (λ replies. length replies.items ≡ length pushes.now) }
{
    let mut replies = Vec::with_capacity(alloc, pushes.len())?;
    for i in 0..pushes.len() {
        let push = pushes[i];
        if !is_named(octets, &push) {
            unreachable!();
        }
        let reply = push_named(params, octets, push)?;
        replies.push(reply)?;
    }
    Ok(replies)
}

/// Record data of so many octets, its target uncompressed, with these parameters. Its room is made once.
fn compose(
    alloc: Global,
    len: usize,
    found: &Found<'_>,
    params: &SvcParamsOverlay<'_>,
) -> Result<Vec<u8>, NoMemory>
    ensures { IfOk result (λ octets. octets.items
        ≡ rdata found.now.priority found.now.target.labels params.now.builder.pairs) }
{
    let mut octets = Vec::with_capacity(alloc, len)?;
    found.priority.compose(&mut octets)?;
    found.target.compose(&mut octets)?;
    params.compose(&mut octets)?;
    Ok(octets)
}

/// The number of a reply.
fn reply_number(reply: Reply) -> u8
    ensures { result ≡ reply_number reply }
{
    match reply {
        Reply::Accepted => 0,
        Reply::DuplicateKey => 1,
        Reply::ShortBuf => 2,
    }
}

/// The numbers of replies at the front of a buffer.
#[tactic(auto, using(crate::proofs::Filling::put_rules))]
fn put_replies(buffer: &mut [u8], replies: &[Reply])
    requires { length replies.now ≤ length buffer.old }
    ensures { buffer.new ≡ over (map reply_number replies.now) buffer.old }
{
    for i in 0..replies.len() {
        buffer[i] = reply_number(replies[i]);
    }
}

/// Reads the data of an SVCB or HTTPS record in the `len` octets from `start` on, tries the pushes in order within a
/// limit on the octets of all parameters, and hands out the result, with a reply to each push: 0 accepted, 1 its key is
/// there already, 2 over the limit. A push that is refused changes nothing.
#[unsafe(no_mangle)]
#[tactic(auto, using(std::proofs::lemmas::Bool::Decides::nat_tests), unfolding(svcb_spec::specs::Rebuilding::rebuild))]
pub extern "C" fn hw_svcb_rebuild(
    alloc: Global,
    message: &[u8],
    start: usize,
    len: usize,
    pushes: &[SvcbPush],
    octets: &[u8],
    limit: usize,
    target: &mut [u8],
    replies: &mut [u8],
    written: &mut usize,
) -> u32
    ensures status { result ≢ HW_E_MEMORY
        → result
        ≡ rebuild_status message.now start len pushes.now octets.now limit
        (length target.old) (length replies.old) }
    ensures octets { result ≡ HW_OK
        → IsWritten (rebuilt message.now start len pushes.now octets.now limit)
        written.new target.old target.new }
    ensures replies { result ≡ HW_OK
        → AreReplies (rebuilt message.now start len pushes.now octets.now limit)
        replies.old replies.new }
    ensures room { result ≡ HW_E_ROOM
        → NeedsOctets (rebuilt message.now start len pushes.now octets.now limit) written.new }
    ensures kept_target { result ≢ HW_OK → target.new ≡ target.old }
    ensures kept_replies { result ≢ HW_OK → replies.new ≡ replies.old }
    ensures memory { result ≡ HW_E_MEMORY
        → MayWantMemory message.now start len pushes.now octets.now limit
        (length replies.old) }
{
    if !is_within(message, start, len) {
        return HW_E_PLACE;
    }
    if limit >= 0x8000_0000 || replies.len() < pushes.len() || !are_named(octets, pushes) {
        return HW_E_ARGUMENT;
    }
    let found = match find(message, start, len) {
        Ok(found) => found,
        Err(error) => return read_status(error),
    };
    let mut params = match SvcParamsOverlay::new(alloc, &found.params, limit) {
        Ok(params) => params,
        Err(BufError::ShortBuf) => return HW_E_LIMIT,
        Err(BufError::NoMemory) => return HW_E_MEMORY,
    };
    let Ok(given) = push_all(alloc, &mut params, octets, pushes) else {
        return HW_E_MEMORY;
    };
    let rdlen = 2 + usize::from(found.target.compose_len()) + params.len();
    if rdlen > 65535 {
        return HW_E_TOO_LONG;
    }
    *written = rdlen;
    if target.len() < rdlen {
        return HW_E_ROOM;
    }
    let Ok(done) = compose(alloc, rdlen, &found, &params) else {
        return HW_E_MEMORY;
    };
    put_front(target, done.as_slice());
    put_replies(replies, given.as_slice());
    HW_OK
}
