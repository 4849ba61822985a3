//! Numbers of the registry `DNS Security Algorithm Numbers`.

ghost use Rattle.std.specs.Prelude.{refl, codes};
ghost use Rattle.key_registry.specs.Tables.{security_algorithms};

use crate::octet_number::{OctetNumber, Registry};
use registry::CommentName;
use std::marker::PhantomData;

/// An algorithm of DNSSEC (RFC 4034, appendix A.1).
pub type SecurityAlgorithm = OctetNumber<SecurityAlgorithms>;

/// The registry of [`SecurityAlgorithm`].
#[derive(Debug)]
pub struct SecurityAlgorithms;

/// The numbers that have a name.
impl SecurityAlgorithm {
    /// No algorithm: asks the parent to delete the DS records (RFC 8078).
    pub const DELETE: SecurityAlgorithm = OctetNumber(0, PhantomData);

    /// RSA/MD5 (RFC 3110). It must not sign any more (RFC 8624).
    pub const RSAMD5: SecurityAlgorithm = OctetNumber(1, PhantomData);

    /// Diffie-Hellman (RFC 2539).
    pub const DH: SecurityAlgorithm = OctetNumber(2, PhantomData);

    /// DSA/SHA-1 (RFC 2536).
    pub const DSA: SecurityAlgorithm = OctetNumber(3, PhantomData);

    /// RSA/SHA-1 (RFC 3110).
    pub const RSASHA1: SecurityAlgorithm = OctetNumber(5, PhantomData);

    /// DSA/SHA-1 in a zone with NSEC3 (RFC 5155).
    pub const DSA_NSEC3_SHA1: SecurityAlgorithm = OctetNumber(6, PhantomData);

    /// RSA/SHA-1 in a zone with NSEC3 (RFC 5155).
    pub const RSASHA1_NSEC3_SHA1: SecurityAlgorithm = OctetNumber(7, PhantomData);

    /// RSA/SHA-256 (RFC 5702).
    pub const RSASHA256: SecurityAlgorithm = OctetNumber(8, PhantomData);

    /// RSA/SHA-512 (RFC 5702).
    pub const RSASHA512: SecurityAlgorithm = OctetNumber(10, PhantomData);

    /// GOST R 34.10-2001 (RFC 5933).
    pub const ECC_GOST: SecurityAlgorithm = OctetNumber(12, PhantomData);

    /// ECDSA on the curve P-256 with SHA-256 (RFC 6605).
    pub const ECDSAP256SHA256: SecurityAlgorithm = OctetNumber(13, PhantomData);

    /// ECDSA on the curve P-384 with SHA-384 (RFC 6605).
    pub const ECDSAP384SHA384: SecurityAlgorithm = OctetNumber(14, PhantomData);

    /// Ed25519 (RFC 8080).
    pub const ED25519: SecurityAlgorithm = OctetNumber(15, PhantomData);

    /// Ed448 (RFC 8080).
    pub const ED448: SecurityAlgorithm = OctetNumber(16, PhantomData);

    /// SM2 signatures with SM3 digests (RFC 9563).
    pub const SM2SM3: SecurityAlgorithm = OctetNumber(17, PhantomData);

    /// ML-DSA-44, the signatures of FIPS 204 (IANA's registry).
    pub const MLDSA44: SecurityAlgorithm = OctetNumber(18, PhantomData);

    /// GOST R 34.10-2012 (RFC 9558).
    pub const ECC_GOST12: SecurityAlgorithm = OctetNumber(23, PhantomData);

    /// Reserved for keys that stand elsewhere (RFC 4034, appendix A.1).
    pub const INDIRECT: SecurityAlgorithm = OctetNumber(252, PhantomData);

    /// A private algorithm that a domain name names (RFC 4034, appendix A.1.1).
    pub const PRIVATEDNS: SecurityAlgorithm = OctetNumber(253, PhantomData);

    /// A private algorithm that an object identifier names (RFC 4034, appendix A.1.1).
    pub const PRIVATEOID: SecurityAlgorithm = OctetNumber(254, PhantomData);
}

const ROWS: [(u8, &str); 20] = [
    (SecurityAlgorithm::DELETE.0, "DELETE"),
    (SecurityAlgorithm::RSAMD5.0, "RSAMD5"),
    (SecurityAlgorithm::DH.0, "DH"),
    (SecurityAlgorithm::DSA.0, "DSA"),
    (SecurityAlgorithm::RSASHA1.0, "RSASHA1"),
    (SecurityAlgorithm::DSA_NSEC3_SHA1.0, "DSA-NSEC3-SHA1"),
    (
        SecurityAlgorithm::RSASHA1_NSEC3_SHA1.0,
        "RSASHA1-NSEC3-SHA1",
    ),
    (SecurityAlgorithm::RSASHA256.0, "RSASHA256"),
    (SecurityAlgorithm::RSASHA512.0, "RSASHA512"),
    (SecurityAlgorithm::ECC_GOST.0, "ECC-GOST"),
    (SecurityAlgorithm::ECDSAP256SHA256.0, "ECDSAP256SHA256"),
    (SecurityAlgorithm::ECDSAP384SHA384.0, "ECDSAP384SHA384"),
    (SecurityAlgorithm::ED25519.0, "ED25519"),
    (SecurityAlgorithm::ED448.0, "ED448"),
    (SecurityAlgorithm::SM2SM3.0, "SM2SM3"),
    (SecurityAlgorithm::MLDSA44.0, "MLDSA44"),
    (SecurityAlgorithm::ECC_GOST12.0, "ECC-GOST12"),
    (SecurityAlgorithm::INDIRECT.0, "INDIRECT"),
    (SecurityAlgorithm::PRIVATEDNS.0, "PRIVATEDNS"),
    (SecurityAlgorithm::PRIVATEOID.0, "PRIVATEOID"),
];

impl Registry for SecurityAlgorithms {
    ghost COMMENT = { codes "algorithm" };

    ghost rows = { security_algorithms };

    ghost one_line = { refl };

    ghost table = { refl };

    const TYPE_NAME: &'static str = "SecurityAlgorithm";

    const COMMENT: CommentName = CommentName("algorithm");

    fn rows() -> &'static [(u8, &'static str)] {
        // each constant has the number that its name stands for
        prove!(SecurityAlgorithm::DELETE.0 == 0);
        prove!(SecurityAlgorithm::RSAMD5.0 == 1);
        prove!(SecurityAlgorithm::DH.0 == 2);
        prove!(SecurityAlgorithm::DSA.0 == 3);
        prove!(SecurityAlgorithm::RSASHA1.0 == 5);
        prove!(SecurityAlgorithm::DSA_NSEC3_SHA1.0 == 6);
        prove!(SecurityAlgorithm::RSASHA1_NSEC3_SHA1.0 == 7);
        prove!(SecurityAlgorithm::RSASHA256.0 == 8);
        prove!(SecurityAlgorithm::RSASHA512.0 == 10);
        prove!(SecurityAlgorithm::ECC_GOST.0 == 12);
        prove!(SecurityAlgorithm::ECDSAP256SHA256.0 == 13);
        prove!(SecurityAlgorithm::ECDSAP384SHA384.0 == 14);
        prove!(SecurityAlgorithm::ED25519.0 == 15);
        prove!(SecurityAlgorithm::ED448.0 == 16);
        prove!(SecurityAlgorithm::SM2SM3.0 == 17);
        prove!(SecurityAlgorithm::MLDSA44.0 == 18);
        prove!(SecurityAlgorithm::ECC_GOST12.0 == 23);
        prove!(SecurityAlgorithm::INDIRECT.0 == 252);
        prove!(SecurityAlgorithm::PRIVATEDNS.0 == 253);
        prove!(SecurityAlgorithm::PRIVATEOID.0 == 254);
        &ROWS
    }
}
