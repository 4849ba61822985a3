//! The octets of fixed fields.

ghost use Rattle.std.specs.Prelude.{◌≡◌, ◌≤◌, [], ◌∷◌, ◌++◌, take};
ghost use Rattle.std.specs.Int.{bytes_high_first};

use std::marker::Model;

/// The octets of the fixed fields of a record, in wire order. They are at most 6, so no memory is taken for them.
/// Contracts see the list of them.
#[derive(Debug, Drop)]
pub struct FieldOctets {
    octets: [u8; 6],
    len: usize,
}

impl Model for FieldOctets {
    ghost use Rattle.std.specs.Prelude.{List, ℕ, ◌≤◌, take};

    ghost Value = { List ℕ };

    ghost view = { λ found. take found.len found.octets };

    ghost invariant = { λ found. found.len ≤ 6 };
}

impl FieldOctets {
    /// The first `len` of these octets.
    pub(crate) fn first_of(octets: [u8; 6], len: usize) -> FieldOctets
        requires { len ≤ 6 }
        ensures { result ≡ take len octets }
    {
        FieldOctets { octets, len }
    }

    /// A number of two octets, the high one first, and two more octets.
    pub(crate) fn from_u16(number: u16, first: u8, second: u8) -> FieldOctets
        ensures { result ≡ bytes_high_first 2 number ++ first ∷ second ∷ [] }
    {
        let [high, low] = number.to_be_bytes();
        FieldOctets::first_of([high, low, first, second, 0, 0], 4)
    }

    /// A number of four octets, the highest one first, and two more octets.
    pub(crate) fn from_u32(number: u32, first: u8, second: u8) -> FieldOctets
        ensures { result ≡ bytes_high_first 4 number ++ first ∷ second ∷ [] }
    {
        let [a, b, c, d] = number.to_be_bytes();
        FieldOctets::first_of([a, b, c, d, first, second], 6)
    }

    /// The octets.
    pub fn as_slice(&self) -> &[u8]
        ensures { result.now ≡ self.now }
    {
        &self.octets[..self.len]
    }
}
