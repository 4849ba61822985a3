//! Record data of SVCB and HTTPS that is read where it stands.

ghost use Rattle.std.specs.Prelude.{◌≡◌, ◌≢◌, ◌+◌, ◌≤◌, ◌<◌, length, nat_lt, nat_le, if◌then◌else◌, Option, None, Ok, ℕ, IfOk};
ghost use Rattle.svcb_spec.specs.Params.{Pairs, pairs_at};
ghost use Rattle.svcb_spec.specs.Records.{read};
ghost use Rattle.wire_base.specs.Faults.{Gives};
ghost use Rattle.svcb_pairs.specs.Parameters.{pairs_in};
ghost use Rattle.svcb_c.specs.Svcb.{target_status, IsSeen, next_status, IsParamAt, IsNext};
ghost use Rattle.svcb_c.specs.declared.status.TheConstants.{HW_OK, HW_E_PLACE};

use crate::buffers::put_name;
use crate::faults::read_status;
use crate::messages::number;
use crate::records::{SvcbParam, SvcbRecord};
use crate::status::{HW_E_PLACE, HW_E_ROOM, HW_E_SHORT, HW_END, HW_OK};
use svcb_params::SvcParamsRef;
use wire_base::{LongRecordData, ParseError, ParsedName, Parser};

/// Whether the `len` octets from `start` on are there. The sum of any two numbers is tested.
pub(crate) fn is_within(octets: &[u8], start: usize, len: usize) -> bool
    ensures { result ≡ nat_le (start + len) (length octets.now) }
{
    start <= octets.len() && len <= octets.len() - start
}

/// Record data that was read, and where its parameters begin.
#[derive(Drop)]
pub(crate) struct Found<'a> {
    pub(crate) priority: u16,
    pub(crate) target: ParsedName<'a>,
    pub(crate) params_start: usize,
    pub(crate) params: SvcParamsRef<'a>,
}

/// Reads the record data in the `len` octets from `start` on. Takes no memory.
#[tactic(auto, using(std::proofs::lemmas::Bool::Decides::nat_tests), unfolding(svcb_spec::specs::Records::read))]
pub(crate) fn find(message: &[u8], start: usize, len: usize) -> Result<Found<'_>, ParseError>
    requires { start + len ≤ length message.now }
    ensures record { Gives
        (λ found. record {
          priority = found.priority;
          labels = found.target.labels;
          pairs = pairs_in found.params.slice.now;
        })
        result (read message.now start len) }
    ensures params { IfOk result (λ found.
        pairs_at message.now (start + len) found.params_start None
        ≡ Ok (pairs_in found.params.slice.now)) }
    ensures few { IfOk result (λ found. length found.params.slice.now < 65536) }
{
    let mut parser = Parser::from_ref(message);
    parser.advance(start)?;
    let mut part = parser.parse_parser(len)?;
    LongRecordData::check_len(part.remaining())?;
    let priority = part.parse_u16()?;
    let target = ParsedName::parse(&mut part)?;
    let params_start = part.pos();
    let params = SvcParamsRef::parse(&mut part)?;
    LongRecordData::check_len(2 + usize::from(target.compose_len()) + params.len())?;
    Ok(Found {
        priority,
        target,
        params_start,
        params,
    })
}

/// The count of parameters.
#[tactic(auto, using(crate::proofs::Filling::few_pairs))]
fn count(params: &SvcParamsRef<'_>) -> u32
    requires { length params.now.slice.now < 65536 }
    ensures { result ≡ length (pairs_in params.now.slice.now) }
{
    // There are at most as many parameters as octets.
    let _octets = params.as_slice();
    let mut count = 0;
    for _param in params.iter_raw() {
        count += 1;
    }
    count
}

/// Reads the data of an SVCB or HTTPS record in the `len` octets from `start` on: its priority, its target uncompressed
/// in the caller's buffer, the count of its parameters, and where they begin. No memory is taken.
#[unsafe(no_mangle)]
pub extern "C" fn hw_svcb_read(
    message: &[u8],
    start: usize,
    len: usize,
    target: &mut [u8],
    seen: &mut SvcbRecord,
) -> u32
    ensures status { result
        ≡ (if nat_lt (length message.now) (start + len) then HW_E_PLACE
        else target_status (read message.now start len) (length target.old)) }
    ensures seen { result ≡ HW_OK
        → IsSeen (read message.now start len) message.now (start + len)
        seen.new target.old target.new }
    ensures kept_target { result ≢ HW_OK → target.new ≡ target.old }
    ensures kept_seen { result ≢ HW_OK → seen.new ≡ seen.old }
{
    if !is_within(message, start, len) {
        return HW_E_PLACE;
    }
    let found = match find(message, start, len) {
        Ok(found) => found,
        Err(error) => return read_status(error),
    };
    if target.len() < usize::from(found.target.compose_len()) {
        return HW_E_ROOM;
    }
    put_name(target, &found.target);
    *seen = SvcbRecord {
        priority: found.priority,
        target_len: found.target.compose_len(),
        params_count: count(&found.params),
        params_start: found.params_start,
    };
    HW_OK
}

/// The parameter at a place, where the record data ends at `end`. The first parameter stands at `params_start` of
/// [`hw_svcb_read`], each other behind the value of the one before it. No memory is taken.
#[unsafe(no_mangle)]
#[tactic(auto, using(crate::proofs::Next::next_rules))]
pub extern "C" fn hw_svcb_next(message: &[u8], end: usize, pos: usize, param: &mut SvcbParam) -> u32
    ensures status { result ≡ next_status message.now end pos }
    ensures param { result ≡ HW_OK → IsParamAt message.now pos param.new }
    ensures kept { result ≢ HW_OK → param.new ≡ param.old }
    // From where `hw_svcb_read` begins, the calls go over the pairs that it read.
    ensures next { (last : Option ℕ) → (pairs : Pairs) → end ≤ length message.now → pos ≤ end
        → pairs_at message.now end pos last ≡ Ok pairs
        → IsNext pairs message.now end result param.new }
{
    if end > message.len() || pos > end {
        return HW_E_PLACE;
    }
    if pos == end {
        return HW_END;
    }
    if end - pos < 4 {
        return HW_E_SHORT;
    }
    let key = number(message, pos);
    let len = number(message, pos + 2);
    if end - pos - 4 < usize::from(len) {
        return HW_E_SHORT;
    }
    *param = SvcbParam {
        key,
        len,
        start: pos + 4,
    };
    HW_OK
}
