//! What an input of `edit` spells.
ghost use Rattle.std.specs.Prelude.{◌≡◌, ◌+◌, ◌^◌, ◌<◌, ◌≤◌, length, drop, map, Some, IfOk, IfErr, OnOk, slice_get, option_and_then};
ghost use Rattle.svcb_text.specs.AllValues.{value_of};
ghost use Rattle.input_lines.specs.Spelling.{line_or_fault, each_line, SpellsAs};
ghost use Rattle.edit_program.specs.Bounds.{data_bounds_of};
ghost use Rattle.edit_program.specs.Faults.{bounds_fault};
ghost use Rattle.edit_program.specs.Pushes.{push_of};
ghost use Rattle.edit_program.specs.Show.{spelled_octets};
ghost use Rattle.edit_program.specs.EditInput.{edit_input_of};
ghost use Rattle.edit_program.specs.EditInputView.{edit_input_view};

use crate::data_bounds::{DataBounds, data_bounds_in};
use crate::pushes::push_in;
use devices::MAX_INPUT;
use input_lines::faults::{InputFault, SpellError};
use input_lines::hexadecimal::octets_line;
use input_lines::lines::Lines;
use std::alloc::Global;
use svcb_rdata::AllValues;
use wire_base::Octets;

/// The least limit that is too large.
const LIMIT_END: u32 = 1 << 31;

/// The number of the first line that pushes.
const FIRST_PUSH: u64 = 3;

/// What an input spells: a message, where record data stands in it, and the values to be pushed.
#[derive(Drop)]
pub struct EditInput {
    pub message: Octets,
    pub bounds: DataBounds,
    pub pushes: Vec<AllValues>,
}

/// Reads the first line.
fn bounds_line(input: &mut Lines<'_>) -> Result<DataBounds, InputFault>
    ensures value { result
        ≡ line_or_fault 1 (option_and_then data_bounds_of (slice_get input.old 0)) }
    ensures rest { input.new ≡ drop 1 input.old }
{
    let line = input.next();
    line.and_then(data_bounds_in).ok_or(InputFault::BadLine(1))
}

/// Tests bounds in a message of so many octets, and their limit.
fn check_bounds(bounds: &DataBounds, message_len: usize) -> Result<(), InputFault>
    ensures fault { IfErr result (λ fault. bounds_fault bounds.now message_len ≡ Some fault) }
    ensures within { OnOk result (bounds.now.start + bounds.now.len ≤ message_len) }
    ensures limit { OnOk result (bounds.now.limit < 2 ^ 31) }
{
    if bounds.start as usize + bounds.len as usize > message_len {
        return Err(InputFault::DataOutsideMessage);
    }
    if bounds.limit >= LIMIT_END {
        return Err(InputFault::LimitTooLarge);
    }
    Ok(())
}

/// Reads the lines from the third on.
fn push_lines(alloc: Global, mut input: Lines<'_>) -> Result<Vec<AllValues>, SpellError>
    requires { length input < 2 ^ 32 }
    ensures { SpellsAs (λ pushes. map value_of pushes.items) result
        (each_line push_of 3 input.entry) }
{
    let mut pushes = Vec::new(alloc);
    let mut number = FIRST_PUSH;
    while let Some(line) = input.next() {
        match push_in(alloc, line)? {
            Some(push) => pushes.push(push)?,
            None => return Err(SpellError::Fault(InputFault::BadLine(number))),
        }
        number += 1;
    }
    Ok(pushes)
}

/// Reads an input of `edit`. `Fault` is the first fault of form in it, and `NoMemory` a failed allocation for what it
/// spells.
pub fn read_edit_input(alloc: Global, input: &[u8]) -> Result<EditInput, SpellError>
    requires { length input.now ≤ MAX_INPUT }
    ensures value { SpellsAs edit_input_view result (edit_input_of input.now) }
    ensures within { IfOk result (λ s. s.bounds.start + s.bounds.len ≤ length s.message) }
    ensures limit { IfOk result (λ s. s.bounds.limit < 2 ^ 31) }
{
    let mut lines = Lines::new(input);
    let bounds = bounds_line(&mut lines)?;
    let message = octets_line(alloc, &mut lines, 2)?;
    check_bounds(&bounds, message.len())?;
    let pushes = push_lines(alloc, lines)?;
    Ok(EditInput {
        message,
        bounds,
        pushes,
    })
}

/// Reads an input of `show`: the octets of its only line. `Fault` is the first fault of form in it, and `NoMemory` a
/// failed allocation for the octets.
pub fn read_octets(alloc: Global, input: &[u8]) -> Result<Octets, SpellError>
    ensures { SpellsAs (λ octets. octets) result (spelled_octets input.now) }
{
    let mut lines = Lines::new(input);
    let octets = octets_line(alloc, &mut lines, 1)?;
    if lines.next().is_some() {
        return Err(SpellError::Fault(InputFault::BadLine(2)));
    }
    Ok(octets)
}
