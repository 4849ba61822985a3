//! Serial numbers of zones.

ghost use Rattle.std.specs.Prelude.{◌≡◌, Some};
ghost use Rattle.std.specs.Fmt.{decimal};

use std::fmt;
use std::marker::Model;

/// The serial number of a zone (RFC 1035, section 3.3.13), a number of 32 bits. Serial numbers are compared as numbers
/// here, and not as RFC 1982 says which of two zones is the newer one.
#[derive(Clone, Copy, Debug, PartialEq, Eq, PartialOrd, Ord, Hash)]
pub struct Serial(u32);

impl Model for Serial {
    ghost use Rattle.std.specs.Prelude.{ℕ, ◌<◌, ◌^◌};

    ghost Value = { ℕ };

    ghost view = { λ serial. serial.0 };

    ghost invariant = { λ serial. serial.0 < 2 ^ 32 };

    ghost inverse = { λ number. record { 0 = number } };
}

impl Serial {
    /// The serial number of that value.
    pub fn from_int(value: u32) -> Serial
        ensures { result ≡ value }
    {
        Serial(value)
    }

    /// The number.
    pub fn into_int(self) -> u32
        ensures { result ≡ self }
    {
        self.0
    }
}

/// The decimal number.
impl fmt::Display for Serial {
    ghost output = { λ serial. Some (decimal serial) };

    fn fmt<W: fmt::Write>(&self, f: &mut fmt::Formatter<W>) -> fmt::Result {
        let number = self.0;
        write!(f, "{number}")
    }
}
