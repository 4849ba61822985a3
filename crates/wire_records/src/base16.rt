//! Octets printed in base16.

ghost use Rattle.std.specs.Prelude.{◌≡◌, ◌*◌, Some, length, if◌then◌else◌};
ghost use Rattle.hex.specs.Hex.{encode_with, lower_digits, upper_digits};
ghost use Rattle.wire_records.specs.Texts.{base16_in};

use std::{fmt, str};

const UPPER_DIGITS: &[u8; 16] = b"0123456789ABCDEF";

const LOWER_DIGITS: &[u8; 16] = b"0123456789abcdef";

/// How many octets are printed at a time.
const CHUNK_LEN: usize = 64;

/// Octets in base16 (RFC 4648, section 8), printed without a copy: with the digits `A` to `F` where `is_upper` is true,
/// and with `a` to `f` elsewhere.
#[derive(Clone, Copy, Debug)]
pub struct Base16<'a> {
    /// The octets.
    pub octets: &'a [u8],
    /// Whether the digits are in upper case.
    pub is_upper: bool,
}

impl fmt::Display for Base16<'_> {
    ghost output = { λ digits. Some (base16_in digits.is_upper digits.octets.now) };

    fn fmt<W: fmt::Write>(&self, f: &mut fmt::Formatter<W>) -> fmt::Result {
        let table = digits_in(self.is_upper);
        let mut buffer = [0u8; 2 * CHUNK_LEN];
        for chunk in self.octets.chunks(CHUNK_LEN) {
            let len = 2 * chunk.len();
            write_digits(chunk, table, &mut buffer[..len]);
            let Ok(text) = str::from_utf8(&buffer[..len]) else {
                unreachable!();
            };
            f.write_str(text)?;
        }
        Ok(())
    }
}

/// The digits in that case, by their numbers.
fn digits_in(is_upper: bool) -> &'static [u8; 16]
    ensures { result.now ≡ if is_upper then upper_digits else lower_digits }
{
    if is_upper { UPPER_DIGITS } else { LOWER_DIGITS }
}

/// Writes the two digits of each octet.
fn write_digits(octets: &[u8], table: &[u8; 16], digits: &mut [u8])
    requires { length digits.old ≡ 2 * length octets.now }
    ensures { digits.new ≡ encode_with table.now octets.now }
{
    for i in 0..octets.len() {
        let octet = octets[i];
        digits[2 * i] = table[usize::from(octet / 16)];
        digits[2 * i + 1] = table[usize::from(octet % 16)];
    }
}
