//! The documents of addresses, and of record data of any type.

ghost use Rattle.std.specs.Prelude.{[], ◌∷◌, length, codes};
ghost use Rattle.std.specs.Fmt.{decimal};
ghost use Rattle.name_spec.specs.Addresses.{ipv4_text, ipv6_text};
ghost use Rattle.text_spec.specs.Encodings.{base16_text};
ghost use Rattle.text_spec.specs.Layouts.{Token};
ghost use Rattle.text_spec.specs.LayoutLaws.{document-tokens};
ghost use Rattle.text_spec.specs.Documents.{unknown_items};

use crate::formatter::Formatter;
use crate::zonefile::ZonefileFmt;
use wire_base::NoMemory;
use wire_records::{A, Aaaa, UnknownRecordData};

/// A token: the text of the address.
impl ZonefileFmt for A {
    ghost document = { λ address. Token (ipv4_text address) ∷ [] };

    ghost is_document = { λ address. document-tokens (ipv4_text address ∷ []) };

    fn fmt_zone(&self, f: &mut Formatter) -> Result<(), NoMemory> {
        f.write_display(self)
    }
}

/// A token: the text of the address.
impl ZonefileFmt for Aaaa {
    ghost document = { λ address. Token (ipv6_text address) ∷ [] };

    ghost is_document = { λ address. document-tokens (ipv6_text address ∷ []) };

    fn fmt_zone(&self, f: &mut Formatter) -> Result<(), NoMemory> {
        f.write_display(self)
    }
}

/// Tokens (RFC 3597, section 5): the marker `\#`, the count of octets, and the octets in base16, where there are any.
impl ZonefileFmt for UnknownRecordData {
    ghost document = { λ unknown. unknown_items unknown.octets };

    ghost is_document = { λ unknown. document-tokens
        (codes "\\#" ∷ decimal (length unknown.octets) ∷ base16_text unknown.octets ∷ []) };

    fn fmt_zone(&self, f: &mut Formatter) -> Result<(), NoMemory> {
        let octets = self.octets();
        f.write_token(b"\\#")?;
        f.write_decimal(octets.len() as u32)?;
        f.write_base16(octets)
    }
}
