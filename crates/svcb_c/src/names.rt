//! Names as text, and from text.

ghost use Rattle.std.specs.Prelude.{◌≡◌, ◌≢◌, length, string_bytes, IfOk};
ghost use Rattle.name_spec.specs.Printed.{printed_name_with_dot};
ghost use Rattle.svcb_c.specs.Buffers.{due_status, IsGiven, NeedsRoom};
ghost use Rattle.svcb_c.specs.Names.{name_text_due, name_octets_due};
ghost use Rattle.svcb_c.specs.declared.status.TheConstants.{HW_OK, HW_E_ROOM, HW_E_MEMORY};

use crate::buffers::hand_out;
use crate::faults::read_status;
use crate::status::{HW_E_MEMORY, HW_S_BAD_NAME};
use dns_text::name_from_text;
use std::alloc::Global;
use text_spec::ScanError;
use wire_base::{Name, NoMemory, Octets};

/// The text of a name with its final dot.
fn printed(alloc: Global, name: &Name) -> Result<String, NoMemory>
    ensures { IfOk result (λ text. string_bytes text ≡ printed_name_with_dot name.now) }
{
    Ok(format!(in alloc; "{}", name.fmt_with_dot())?)
}

/// The text of the name that octets wholly are, uncompressed, with its final dot.
#[unsafe(no_mangle)]
pub extern "C" fn hw_name_text(
    alloc: Global,
    octets: &[u8],
    target: &mut [u8],
    written: &mut usize,
) -> u32
    ensures status { result ≢ HW_E_MEMORY
        → result ≡ due_status (name_text_due octets.now) (length target.old) }
    ensures text { result ≡ HW_OK
        → IsGiven (name_text_due octets.now) written.new target.old target.new }
    ensures room { result ≡ HW_E_ROOM → NeedsRoom (name_text_due octets.now) written.new }
    ensures kept { result ≢ HW_OK → target.new ≡ target.old }
{
    let Ok(copy) = Octets::from_slice(alloc, octets) else {
        return HW_E_MEMORY;
    };
    let name = match Name::from_octets(copy) {
        Ok(name) => name,
        Err(error) => return read_status(error),
    };
    match printed(alloc, &name) {
        Ok(text) => hand_out(text.as_bytes(), target, written),
        Err(NoMemory) => HW_E_MEMORY,
    }
}

/// The octets of the name that a text spells, which is the one token of an entry.
#[unsafe(no_mangle)]
pub extern "C" fn hw_name_scan(
    alloc: Global,
    text: &[u8],
    target: &mut [u8],
    written: &mut usize,
) -> u32
    ensures status { result ≢ HW_E_MEMORY
        → result ≡ due_status (name_octets_due text.now) (length target.old) }
    ensures octets { result ≡ HW_OK
        → IsGiven (name_octets_due text.now) written.new target.old target.new }
    ensures room { result ≡ HW_E_ROOM → NeedsRoom (name_octets_due text.now) written.new }
    ensures kept { result ≢ HW_OK → target.new ≡ target.old }
{
    match name_from_text(alloc, text) {
        Ok(name) => hand_out(name.as_slice(), target, written),
        Err(ScanError::NoMemory) => HW_E_MEMORY,
        Err(_) => HW_S_BAD_NAME,
    }
}
