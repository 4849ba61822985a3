//! Numbers of the registry `TLSA Matching Types`.

ghost use Rattle.std.specs.Prelude.{refl, codes};
ghost use Rattle.key_registry.specs.Tables.{tlsa_matching_types};

use crate::octet_number::{OctetNumber, Registry};
use registry::CommentName;
use std::marker::PhantomData;

/// How a TLSA record holds what it matches (RFC 6698, section 2.1.3; its names are those of RFC 7218).
pub type TlsaMatchingType = OctetNumber<TlsaMatchingTypes>;

/// The registry of [`TlsaMatchingType`].
#[derive(Debug)]
pub struct TlsaMatchingTypes;

/// The numbers that have a name.
impl TlsaMatchingType {
    /// The octets themselves (RFC 6698, section 2.1.3).
    pub const FULL: TlsaMatchingType = OctetNumber(0, PhantomData);

    /// Their SHA-256 digest (RFC 6698, section 2.1.3).
    pub const SHA2_256: TlsaMatchingType = OctetNumber(1, PhantomData);

    /// Their SHA-512 digest (RFC 6698, section 2.1.3).
    pub const SHA2_512: TlsaMatchingType = OctetNumber(2, PhantomData);

    /// Private use (RFC 6698, section 7.4).
    pub const PRIVMATCH: TlsaMatchingType = OctetNumber(255, PhantomData);
}

const ROWS: [(u8, &str); 4] = [
    (TlsaMatchingType::FULL.0, "Full"),
    (TlsaMatchingType::SHA2_256.0, "SHA2-256"),
    (TlsaMatchingType::SHA2_512.0, "SHA2-512"),
    (TlsaMatchingType::PRIVMATCH.0, "PrivMatch"),
];

impl Registry for TlsaMatchingTypes {
    ghost COMMENT = { codes "matching type" };

    ghost rows = { tlsa_matching_types };

    ghost one_line = { refl };

    ghost table = { refl };

    const TYPE_NAME: &'static str = "TlsaMatchingType";

    const COMMENT: CommentName = CommentName("matching type");

    fn rows() -> &'static [(u8, &'static str)] {
        // each constant has the number that its name stands for
        prove!(TlsaMatchingType::FULL.0 == 0);
        prove!(TlsaMatchingType::SHA2_256.0 == 1);
        prove!(TlsaMatchingType::SHA2_512.0 == 2);
        prove!(TlsaMatchingType::PRIVMATCH.0 == 255);
        &ROWS
    }
}
