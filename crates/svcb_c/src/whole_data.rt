//! Record data of any type that octets wholly are.

ghost use Rattle.std.specs.Prelude.{◌≡◌, ◌+◌, ◌≤◌, length, IfOk, IsOk};
ghost use Rattle.record_spec.specs.UnionReading.{union_read};
ghost use Rattle.rdata_union.specs.Views.{data_of_all};
ghost use Rattle.rdata_union.specs.WholeData.{part_of, GivesWhole};

use rdata_union::AllRecordData;
use std::alloc::Global;
use wire_base::{ParseError, Parser, Rtype, ShortInput};

/// A parser of the `len` octets from `start` on.
fn part(message: &[u8], start: usize, len: usize) -> Result<Parser<'_>, ShortInput>
    requires { start + len ≤ length message.now }
    ensures part { IfOk result (λ part. part ≡ part_of message.now start len) }
    ensures within { IsOk result }
{
    let mut parser = Parser::from_ref(message);
    parser.advance(start)?;
    parser.parse_parser(len)
}

/// The data that the `len` octets from `start` on wholly are under the number of a type.
pub(crate) fn read_data(
    alloc: Global,
    rtype: Rtype,
    message: &[u8],
    start: usize,
    len: usize,
) -> Result<AllRecordData, ParseError>
    requires { start + len ≤ length message.now }
    ensures { GivesWhole data_of_all result (start + len)
        (union_read rtype (part_of message.now start len)) }
{
    let mut part = part(message, start, len)?;
    AllRecordData::parse_whole(alloc, rtype, &mut part)
}
