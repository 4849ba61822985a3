//! The record types that share this record data.

ghost use Rattle.std.specs.Prelude.{ℕ};

use wire_base::Rtype;

/// A record type whose data is that of SVCB (RFC 9460, sections 2 and 9).
pub trait SvcVariant {
    /// The number of the record type.
    ghost RTYPE: { ℕ };

    /// The record type.
    const RTYPE: Rtype;

    /// What `Debug` calls data of this record type.
    const NAME: &'static str;
}

/// SVCB, the service binding of any protocol (RFC 9460, section 14.1: type 64).
#[derive(Clone, Copy, Debug, PartialEq, Eq, Hash)]
pub struct SvcbVariant;

/// HTTPS, the service binding of HTTP (RFC 9460, section 14.2: type 65).
#[derive(Clone, Copy, Debug, PartialEq, Eq, Hash)]
pub struct HttpsVariant;

impl SvcVariant for SvcbVariant {
    ghost RTYPE = { 64 };

    const RTYPE: Rtype = Rtype::SVCB;

    const NAME: &'static str = "Svcb";
}

impl SvcVariant for HttpsVariant {
    ghost RTYPE = { 65 };

    const RTYPE: Rtype = Rtype::HTTPS;

    const NAME: &'static str = "Https";
}
