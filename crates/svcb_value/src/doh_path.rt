//! Paths of DNS over HTTPS.

ghost use Rattle.std.specs.Prelude.{◌≡◌, ◌<◌, codes, length, IfOk, refl};
ghost use Rattle.svcb_spec.specs.Values as values;
ghost use Rattle.svcb_spec.specs.BuildingValues.{IsBuilt};
ghost use Rattle.svcb_spec.specs.PrintedValues.{utf8_or_printed};
ghost use Rattle.svcb_value.specs.PrintingLaws.{with_utf8};

use crate::opaque::{OpaqueType, OpaqueValue};
use crate::opaque_ref::OpaqueRef;
use registry::{BuildValueError, LongSvcParam, SvcParamKey};
use std::alloc::Global;
use std::{fmt, str};
use wire_base::{Octets, PrintedOctets};

/// The type of `dohpath` (RFC 9461, section 5), the path of a DNS over HTTPS server: a URI template in UTF-8.
///
/// The text of a value is the template. Octets that are not UTF-8 are values too; [`PrintedOctets`] prints them.
#[derive(Debug)]
pub struct DohPathType;

impl OpaqueType for DohPathType {
    ghost key = { 7 };

    ghost value = { values.DohPath };

    ghost text = { utf8_or_printed };

    ghost belongs = { λ octets. refl };

    ghost encodes = { λ octets. refl };

    ghost has_items = { λ octets. tt };

    ghost prints = { with_utf8 (codes "dohpath") };

    const NAME: &'static str = "DohPath";

    fn key() -> SvcParamKey {
        SvcParamKey::DOHPATH
    }

    fn write_text<W: fmt::Write>(octets: &[u8], f: &mut fmt::Formatter<W>) -> fmt::Result {
        match str::from_utf8(octets) {
            Ok(template) => write!(f, "{template}"),
            Err(_) => write!(f, "{}", PrintedOctets::new(octets)),
        }
    }
}

/// The value of `dohpath`: at most 65,535 octets, which are a URI template if they are UTF-8.
pub type DohPath = OpaqueValue<DohPathType>;

/// A view of the value of `dohpath`, which borrows the octets.
pub type DohPathRef<'a> = OpaqueRef<'a, DohPathType>;

impl OpaqueValue<DohPathType> {
    /// The value of a text.
    ///
    /// `LongSvcParam`: the text has more than 65,535 octets. It is refused before memory is taken. `NoMemory`:
    /// allocation failed.
    pub fn from_text(alloc: Global, text: &str) -> Result<DohPath, BuildValueError>
        ensures value { IfOk result (λ value. value ≡ values.DohPath text.now) }
        ensures answer { IsBuilt result (length text.now) }
    {
        LongSvcParam::check_len(text.len())?;
        let octets = Octets::from_slice(alloc, text.as_bytes())?;
        Ok(OpaqueValue::from_octets(octets)?)
    }
}
