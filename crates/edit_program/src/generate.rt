//! What answers `gen`: how record data that the program makes itself is rebuilt.
ghost use Rattle.std.specs.Prelude.{◌≡◌, ◌+◌, ◌<◌, ◌≤◌, ◌*◌, ◌++◌, length, map, Some, IfOk};
ghost use Rattle.std.specs.List.{count_by, sum};
ghost use Rattle.name_spec.specs.Octets.{be2};
ghost use Rattle.svcb_spec.specs.Params.{pair_wire};
ghost use Rattle.svcb_text.specs.AllValues.{value_of};
ghost use Rattle.svcb_rdata.specs.RebuiltView.{rebuilt_view};
ghost use Rattle.edit_program.specs.Generate.{own_message, own_push, pushes_at, pushes_below, is_accepted, is_duplicate, summary, summary_text, due_of_gen};
ghost use Rattle.input_lines.specs.Report.{done_answer};
ghost use Rattle.input_lines.specs.ReportView.{answer_view};

use crate::edit::refusal_answer;
use input_lines::report::{Answer, Outcome};
use std::alloc::Global;
use std::fmt;
use svcb_rdata::{AllValues, Rebuilt, Reply, SvcParamKey, UnknownSvcParam, rebuild_svcb};
use svcb_value::parameter::put_param;
use wire_base::{NoMemory, Octets};

/// How many parameters the data has at most.
pub const MAX_PARAMS: u16 = 8000;

/// How many parameters are pushed at most, those that are pushed twice counted once.
pub const MAX_PUSHED: u16 = 2000;

/// How many octets the parameters may have.
pub const PARAMS_LIMIT: usize = 65_532;

const _: () = prove!(MAX_PARAMS == 8000);

const _: () = prove!(MAX_PUSHED == 2000);

const _: () = prove!(PARAMS_LIMIT == 65_532);

/// Adds a parameter to the data.
fn put_own_param(message: &mut Vec<u8>, i: u16) -> Result<(), NoMemory>
    requires { i < MAX_PARAMS }
    ensures { IfOk result (λ _.
        message.new.items ≡ message.old.items ++ pair_wire (100 + 8 * i) (Some (be2 i))) }
{
    message.reserve(6)?;
    put_param(message, 100 + 8 * i, &i.to_be_bytes());
    Ok(())
}

/// The data, of so many parameters.
#[tactic(auto, using(crate::proofs::GenLemmas::own_message_steps))]
fn own_message(alloc: Global, count: u16) -> Result<Vec<u8>, NoMemory>
    requires { count ≤ MAX_PARAMS }
    ensures { IfOk result (λ message. message.items ≡ own_message count) }
{
    let mut message = Vec::with_capacity(alloc, 3 + 6 * usize::from(count))?;
    message.extend_from_slice(&[0, 1, 0])?;
    let mut i = 0;
    while i < count {
        put_own_param(&mut message, i)?;
        i += 1;
    }
    Ok(message)
}

/// A value that is pushed.
fn own_push(alloc: Global, j: u16) -> Result<AllValues, NoMemory>
    requires { j < MAX_PUSHED }
    ensures { IfOk result (λ push. value_of push ≡ own_push j) }
{
    let octets = Octets::from_slice(alloc, &j.to_be_bytes())?;
    let param = UnknownSvcParam::new(SvcParamKey::from(101 + 8 * j), octets).unwrap();
    Ok(AllValues::from(param))
}

/// Adds a value that is pushed, twice where its number is divisible by 4.
fn add_push(alloc: Global, pushes: &mut Vec<AllValues>, j: u16) -> Result<(), NoMemory>
    requires { j < MAX_PUSHED }
    ensures { IfOk result (λ _.
        map value_of pushes.new.items ≡ map value_of pushes.old.items ++ pushes_at j) }
{
    pushes.push(own_push(alloc, j)?)?;
    if j % 4 == 0 {
        pushes.push(own_push(alloc, j)?)?;
    }
    Ok(())
}

/// The values that are pushed, of the greatest key first.
fn own_pushes(alloc: Global, count: u16) -> Result<Vec<AllValues>, NoMemory>
    requires { count ≤ MAX_PUSHED }
    ensures { IfOk result (λ pushes. map value_of pushes.items ≡ pushes_below count) }
{
    let mut pushes = Vec::new(alloc);
    let mut left = count;
    while left > 0 {
        left -= 1;
        add_push(alloc, &mut pushes, left)?;
    }
    Ok(pushes)
}

/// How many replies are `Accepted`, and how many `DuplicateKey`.
fn count_replies(replies: &[Reply]) -> (usize, usize)
    ensures accepted { result.0 ≡ count_by is_accepted replies.now }
    ensures duplicate { result.1 ≡ count_by is_duplicate replies.now }
{
    let mut accepted = 0;
    let mut duplicate = 0;
    for reply in replies {
        match reply {
            Reply::Accepted => accepted += 1,
            Reply::DuplicateKey => duplicate += 1,
            Reply::ShortBuf => {}
        }
    }
    (accepted, duplicate)
}

/// The sum of octets.
fn sum_octets(octets: &[u8]) -> u32
    requires { length octets.now ≤ u16.MAX }
    ensures { result ≡ sum octets.now }
{
    let mut sum = 0;
    for octet in octets {
        sum += u32::from(*octet);
    }
    sum
}

/// What a report says of data that was rebuilt.
#[derive(Clone, Copy, Debug)]
struct Summary {
    accepted: usize,
    duplicate: usize,
    octets: usize,
    sum: u32,
}

impl fmt::Display for Summary {
    ghost output = { λ s. Some (summary_text s.accepted s.duplicate s.octets s.sum) };

    fn fmt<W: fmt::Write>(&self, f: &mut fmt::Formatter<W>) -> fmt::Result {
        write!(
            f,
            "accepted {} duplicate {} octets {} sum {}",
            self.accepted, self.duplicate, self.octets, self.sum
        )
    }
}

/// Counts the replies, and counts and sums the octets.
fn summary_of(rebuilt: &Rebuilt) -> Summary
    requires { length rebuilt.now.octets ≤ u16.MAX }
    ensures { summary_text result.accepted result.duplicate result.octets result.sum
        ≡ summary (rebuilt_view rebuilt.now) }
{
    let (accepted, duplicate) = count_replies(rebuilt.replies.as_slice());
    let octets = rebuilt.octets.as_slice();
    Summary {
        accepted,
        duplicate,
        octets: octets.len(),
        sum: sum_octets(octets),
    }
}

/// The answer where the data was rebuilt.
fn summary_answer(alloc: Global, rebuilt: &Rebuilt) -> Result<Answer, NoMemory>
    requires { length rebuilt.now.octets ≤ u16.MAX }
    ensures { IfOk result (λ answer.
        answer_view answer ≡ done_answer (summary (rebuilt_view rebuilt.now))) }
{
    let summary = summary_of(rebuilt);
    Ok(Answer {
        outcome: Outcome::Done,
        report: format!(in alloc; "{summary}\n")?,
    })
}

/// The answer of `gen` to a count. Fails only with `NoMemory`.
pub fn gen_answer(alloc: Global, count: u16) -> Result<Answer, NoMemory>
    ensures { IfOk result (λ answer. answer_view answer ≡ due_of_gen count) }
{
    let count = count.min(MAX_PARAMS);
    let message = own_message(alloc, count)?;
    let pushes = own_pushes(alloc, count.min(MAX_PUSHED))?;
    match rebuild_svcb(alloc, &message, 0, message.len(), &pushes, PARAMS_LIMIT) {
        Ok(rebuilt) => summary_answer(alloc, &rebuilt),
        Err(error) => refusal_answer(alloc, error),
    }
}
