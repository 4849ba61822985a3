//! The first line of an input of `edit`: where record data stands in a message, and a limit.
ghost use Rattle.std.specs.Prelude.{◌≡◌};
ghost use Rattle.edit_program.specs.Bounds.{data_bounds_of};

use input_lines::lines::Pieces;
use input_lines::numbers::number;

/// Where record data stands in a message, and how long its parameters may become, in octets.
#[derive(Clone, Copy, Debug, PartialEq, Eq)]
pub struct DataBounds {
    pub start: u32,
    pub len: u32,
    pub limit: u32,
}

/// Reads `START LEN LIMIT`.
pub fn data_bounds_in(line: &[u8]) -> Option<DataBounds>
    ensures { result ≡ data_bounds_of line.now }
{
    let mut words = Pieces::new(line, b' ');
    let bounds = DataBounds {
        start: number(words.next()?)?,
        len: number(words.next()?)?,
        limit: number(words.next()?)?,
    };
    match words.next() {
        Some(_) => None,
        None => Some(bounds),
    }
}
