//! Configurations of Encrypted ClientHello.

ghost use Rattle.std.specs.Prelude.{◌≡◌, ◌<◌, codes, refl};
ghost use Rattle.svcb_spec.specs.Values as values;
ghost use Rattle.text_spec.specs.Encodings.{base64_text};
ghost use Rattle.svcb_value.specs.PrintingLaws.{with_base64};

use crate::opaque::{OpaqueType, OpaqueValue};
use crate::opaque_ref::OpaqueRef;
use base64::display::Base64Display;
use base64::engine::general_purpose::STANDARD;
use registry::SvcParamKey;
use std::fmt;

/// The type of `ech` (key 5 of RFC 9460, section 14.3.2): the configurations with which a client encrypts its
/// ClientHello, an ECHConfigList.
///
/// Its octets are not interpreted. Their text is base64 with padding (RFC 4648, section 4).
#[derive(Debug)]
pub struct EchType;

impl OpaqueType for EchType {
    ghost key = { 5 };

    ghost value = { values.Ech };

    ghost text = { base64_text };

    ghost belongs = { λ octets. refl };

    ghost encodes = { λ octets. refl };

    ghost has_items = { λ octets. tt };

    ghost prints = { with_base64 (codes "ech") };

    const NAME: &'static str = "Ech";

    fn key() -> SvcParamKey {
        SvcParamKey::ECH
    }

    fn write_text<W: fmt::Write>(octets: &[u8], f: &mut fmt::Formatter<W>) -> fmt::Result {
        write!(f, "{}", Base64Display::new(octets, &STANDARD))
    }
}

/// The value of `ech`: any octets, at most 65,535.
pub type Ech = OpaqueValue<EchType>;

/// A view of the value of `ech`, which borrows the octets.
pub type EchRef<'a> = OpaqueRef<'a, EchType>;
