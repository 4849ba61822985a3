//! Types of records.

ghost use Rattle.std.specs.Prelude.{◌≡◌};

use std::marker::Model;

/// The type of a record (RFC 1035, section 3.2.2), a number of 16 bits. Types are ordered by their numbers.
#[derive(Clone, Copy, Debug, PartialEq, Eq, PartialOrd, Ord, Hash)]
pub struct Rtype(u16);

impl Model for Rtype {
    ghost use Rattle.std.specs.Prelude.{ℕ, ◌<◌, ◌^◌};

    ghost Value = { ℕ };

    ghost view = { λ rtype. rtype.0 };

    ghost invariant = { λ rtype. rtype.0 < 2 ^ 16 };

    ghost inverse = { λ number. record { 0 = number } };
}

impl Rtype {
    /// An IPv4 address (RFC 1035, section 3.4.1).
    pub const A: Rtype = Rtype(1);

    /// An IPv6 address (RFC 3596, section 2.1).
    pub const AAAA: Rtype = Rtype(28);

    /// The fingerprint of a key of a host (RFC 4255, section 3).
    pub const SSHFP: Rtype = Rtype(44);

    /// A key for IPsec (RFC 4025, section 2).
    pub const IPSECKEY: Rtype = Rtype(45);

    /// A certificate of a TLS service (RFC 6698, section 2).
    pub const TLSA: Rtype = Rtype(52);

    /// A digest of a key for the parent zone (RFC 7344, section 3.1).
    pub const CDS: Rtype = Rtype(59);

    /// A key for the parent zone (RFC 7344, section 3.2).
    pub const CDNSKEY: Rtype = Rtype(60);

    /// An OpenPGP key (RFC 7929, section 2).
    pub const OPENPGPKEY: Rtype = Rtype(61);

    /// A digest of a zone (RFC 8976, section 2).
    pub const ZONEMD: Rtype = Rtype(63);

    /// A service and its parameters (RFC 9460, section 14.1).
    pub const SVCB: Rtype = Rtype(64);

    /// An HTTPS service and its parameters (RFC 9460, section 14.2).
    pub const HTTPS: Rtype = Rtype(65);

    /// The type with a number.
    pub fn from_int(value: u16) -> Rtype
        ensures { result ≡ value }
    {
        // each constant is the type with the number of its registry entry
        prove!(Rtype::A.0 == 1);
        prove!(Rtype::AAAA.0 == 28);
        prove!(Rtype::SSHFP.0 == 44);
        prove!(Rtype::IPSECKEY.0 == 45);
        prove!(Rtype::TLSA.0 == 52);
        prove!(Rtype::CDS.0 == 59);
        prove!(Rtype::CDNSKEY.0 == 60);
        prove!(Rtype::OPENPGPKEY.0 == 61);
        prove!(Rtype::ZONEMD.0 == 63);
        prove!(Rtype::SVCB.0 == 64);
        prove!(Rtype::HTTPS.0 == 65);
        Rtype(value)
    }

    /// The number.
    pub fn to_int(self) -> u16
        ensures { result ≡ self }
    {
        self.0
    }
}
