//! Numbers of the registry `TLSA Selectors`.

ghost use Rattle.std.specs.Prelude.{refl, codes};
ghost use Rattle.key_registry.specs.Tables.{tlsa_selectors};

use crate::octet_number::{OctetNumber, Registry};
use registry::CommentName;
use std::marker::PhantomData;

/// The part of a certificate that a TLSA record matches (RFC 6698, section 2.1.2; its names are those of RFC 7218).
pub type TlsaSelector = OctetNumber<TlsaSelectors>;

/// The registry of [`TlsaSelector`].
#[derive(Debug)]
pub struct TlsaSelectors;

/// The numbers that have a name.
impl TlsaSelector {
    /// The whole certificate (RFC 6698, section 2.1.2).
    pub const CERT: TlsaSelector = OctetNumber(0, PhantomData);

    /// The certificate's SubjectPublicKeyInfo (RFC 6698, section 2.1.2).
    pub const SPKI: TlsaSelector = OctetNumber(1, PhantomData);

    /// Private use (RFC 6698, section 7.3).
    pub const PRIVSEL: TlsaSelector = OctetNumber(255, PhantomData);
}

const ROWS: [(u8, &str); 3] = [
    (TlsaSelector::CERT.0, "Cert"),
    (TlsaSelector::SPKI.0, "SPKI"),
    (TlsaSelector::PRIVSEL.0, "PrivSel"),
];

impl Registry for TlsaSelectors {
    ghost COMMENT = { codes "selector" };

    ghost rows = { tlsa_selectors };

    ghost one_line = { refl };

    ghost table = { refl };

    const TYPE_NAME: &'static str = "TlsaSelector";

    const COMMENT: CommentName = CommentName("selector");

    fn rows() -> &'static [(u8, &'static str)] {
        // each constant has the number that its name stands for
        prove!(TlsaSelector::CERT.0 == 0);
        prove!(TlsaSelector::SPKI.0 == 1);
        prove!(TlsaSelector::PRIVSEL.0 == 255);
        &ROWS
    }
}
