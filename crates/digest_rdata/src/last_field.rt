//! The text of the last field of record data.

ghost use Rattle.std.specs.Prelude.{Some};
ghost use Rattle.text_spec.specs.Encodings.{base64_text};
ghost use Rattle.record_spec.specs.Texts.{last_printed};

use base64::display::Base64Display;
use base64::engine::general_purpose::STANDARD;
use record_spec::Encoding;
use std::fmt;
use wire_records::Base16;

/// The last field of a record's data as `Display` prints it: a key, a digest or a certificate.
#[derive(Clone, Copy, Debug)]
pub struct EncodedOctets<'a> {
    /// The octets of the field.
    pub octets: &'a [u8],
    /// How they are written.
    pub encoding: Encoding,
    /// Whether the text stands between `( ` and ` )`.
    pub in_brackets: bool,
}

/// The octets bare, with base16 in lower case, or in brackets, with base16 in upper case.
impl fmt::Display for EncodedOctets<'_> {
    ghost output = { λ text. Some (last_printed text.encoding text.in_brackets text.octets.now) };

    fn fmt<W: fmt::Write>(&self, f: &mut fmt::Formatter<W>) -> fmt::Result {
        let octets = self.octets;
        let is_upper = self.in_brackets;
        match (self.encoding, self.in_brackets) {
            (Encoding::Base16, false) => write!(f, "{}", Base16 { octets, is_upper }),
            (Encoding::Base16, true) => write!(f, "( {} )", Base16 { octets, is_upper }),
            (Encoding::Base64, false) => write!(f, "{}", Base64(octets)),
            (Encoding::Base64, true) => write!(f, "( {} )", Base64(octets)),
        }
    }
}

/// Octets in base64 with padding (RFC 4648, section 4).
#[derive(Clone, Copy)]
struct Base64<'a>(&'a [u8]);

impl fmt::Display for Base64<'_> {
    ghost output = { λ text. Some (base64_text text.0.now) };

    fn fmt<W: fmt::Write>(&self, f: &mut fmt::Formatter<W>) -> fmt::Result {
        write!(f, "{}", Base64Display::new(self.0, &STANDARD))
    }
}
