//! Decimal numbers.
ghost use Rattle.std.specs.Prelude.{◌≡◌};
ghost use Rattle.input_lines.specs.Numbers.{decimal_number};

/// The most digits of a number.
const MAX_DIGITS: usize = 10;

/// Reads one to ten digits, of a number that fits 32 bits.
pub fn number(text: &[u8]) -> Option<u32>
    ensures { result ≡ decimal_number text.now }
{
    if text.is_empty() || text.len() > MAX_DIGITS {
        return None;
    }
    // Ten digits have at most 34 bits.
    let mut number: u64 = 0;
    for i in 0..text.len() {
        if !text[i].is_ascii_digit() {
            return None;
        }
        number = number * 10 + u64::from(text[i] - b'0');
    }
    u32::try_from(number).ok()
}
