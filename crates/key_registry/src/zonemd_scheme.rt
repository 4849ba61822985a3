//! Numbers of the registry `ZONEMD Schemes`.

ghost use Rattle.std.specs.Prelude.{refl, codes};
ghost use Rattle.key_registry.specs.Tables.{zonemd_schemes};

use crate::octet_number::{OctetNumber, Registry};
use registry::CommentName;
use std::marker::PhantomData;

/// How a ZONEMD record collates the zone (RFC 8976, section 2.2.2).
pub type ZonemdScheme = OctetNumber<ZonemdSchemes>;

/// The registry of [`ZonemdScheme`].
#[derive(Debug)]
pub struct ZonemdSchemes;

/// The numbers that have a name.
impl ZonemdScheme {
    /// One digest of the whole zone (RFC 8976, section 3.3.1).
    pub const SIMPLE: ZonemdScheme = OctetNumber(1, PhantomData);
}

const ROWS: [(u8, &str); 1] = [(ZonemdScheme::SIMPLE.0, "SIMPLE")];

impl Registry for ZonemdSchemes {
    ghost COMMENT = { codes "scheme" };

    ghost rows = { zonemd_schemes };

    ghost one_line = { refl };

    ghost table = { refl };

    const TYPE_NAME: &'static str = "ZonemdScheme";

    const COMMENT: CommentName = CommentName("scheme");

    fn rows() -> &'static [(u8, &'static str)] {
        // each constant has the number that its name stands for
        prove!(ZonemdScheme::SIMPLE.0 == 1);
        &ROWS
    }
}
