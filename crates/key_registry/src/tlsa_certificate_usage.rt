//! Numbers of the registry `TLSA Certificate Usages`.

ghost use Rattle.std.specs.Prelude.{refl, codes};
ghost use Rattle.key_registry.specs.Tables.{tlsa_certificate_usages};

use crate::octet_number::{OctetNumber, Registry};
use registry::CommentName;
use std::marker::PhantomData;

/// How a TLSA record's certificate is matched (RFC 6698, section 2.1.1; its names are those of RFC 7218).
pub type TlsaCertificateUsage = OctetNumber<TlsaCertificateUsages>;

/// The registry of [`TlsaCertificateUsage`].
#[derive(Debug)]
pub struct TlsaCertificateUsages;

/// The numbers that have a name.
impl TlsaCertificateUsage {
    /// An authority's certificate, which the chain to a public root goes through (RFC 6698, section 2.1.1).
    pub const PKIX_TA: TlsaCertificateUsage = OctetNumber(0, PhantomData);

    /// The service's certificate, which has a chain to a public root (RFC 6698, section 2.1.1).
    pub const PKIX_EE: TlsaCertificateUsage = OctetNumber(1, PhantomData);

    /// A trust anchor of the domain's own (RFC 6698, section 2.1.1).
    pub const DANE_TA: TlsaCertificateUsage = OctetNumber(2, PhantomData);

    /// The service's certificate, whatever its chain (RFC 6698, section 2.1.1).
    pub const DANE_EE: TlsaCertificateUsage = OctetNumber(3, PhantomData);

    /// Private use (RFC 6698, section 7.2).
    pub const PRIVCERT: TlsaCertificateUsage = OctetNumber(255, PhantomData);
}

const ROWS: [(u8, &str); 5] = [
    (TlsaCertificateUsage::PKIX_TA.0, "PKIX-TA"),
    (TlsaCertificateUsage::PKIX_EE.0, "PKIX-EE"),
    (TlsaCertificateUsage::DANE_TA.0, "DANE-TA"),
    (TlsaCertificateUsage::DANE_EE.0, "DANE-EE"),
    (TlsaCertificateUsage::PRIVCERT.0, "PrivCert"),
];

impl Registry for TlsaCertificateUsages {
    ghost COMMENT = { codes "certificate usage type" };

    ghost rows = { tlsa_certificate_usages };

    ghost one_line = { refl };

    ghost table = { refl };

    const TYPE_NAME: &'static str = "TlsaCertificateUsage";

    const COMMENT: CommentName = CommentName("certificate usage type");

    fn rows() -> &'static [(u8, &'static str)] {
        // each constant has the number that its name stands for
        prove!(TlsaCertificateUsage::PKIX_TA.0 == 0);
        prove!(TlsaCertificateUsage::PKIX_EE.0 == 1);
        prove!(TlsaCertificateUsage::DANE_TA.0 == 2);
        prove!(TlsaCertificateUsage::DANE_EE.0 == 3);
        prove!(TlsaCertificateUsage::PRIVCERT.0 == 255);
        &ROWS
    }
}
