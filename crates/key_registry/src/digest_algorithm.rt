//! Numbers of the registry `Digest Algorithms`.

ghost use Rattle.std.specs.Prelude.{refl, codes};
ghost use Rattle.key_registry.specs.Tables.{digest_algorithms};

use crate::octet_number::{OctetNumber, Registry};
use registry::CommentName;
use std::marker::PhantomData;

/// The algorithm of a digest of a DNSSEC key (RFC 4034, section 5.1.3).
pub type DigestAlgorithm = OctetNumber<DigestAlgorithms>;

/// The registry of [`DigestAlgorithm`].
#[derive(Debug)]
pub struct DigestAlgorithms;

/// The numbers that have a name.
impl DigestAlgorithm {
    /// SHA-1 (RFC 3658).
    pub const SHA1: DigestAlgorithm = OctetNumber(1, PhantomData);

    /// SHA-256 (RFC 4509).
    pub const SHA256: DigestAlgorithm = OctetNumber(2, PhantomData);

    /// GOST R 34.11-94 (RFC 5933).
    pub const GOST: DigestAlgorithm = OctetNumber(3, PhantomData);

    /// SHA-384 (RFC 6605).
    pub const SHA384: DigestAlgorithm = OctetNumber(4, PhantomData);

    /// GOST R 34.11-2012 (RFC 9558).
    pub const GOST_R_34_11_2012: DigestAlgorithm = OctetNumber(5, PhantomData);

    /// SM3 (RFC 9563).
    pub const SM3: DigestAlgorithm = OctetNumber(6, PhantomData);
}

const ROWS: [(u8, &str); 6] = [
    (DigestAlgorithm::SHA1.0, "SHA-1"),
    (DigestAlgorithm::SHA256.0, "SHA-256"),
    (DigestAlgorithm::GOST.0, "GOST R 34.11-94"),
    (DigestAlgorithm::SHA384.0, "SHA-384"),
    (DigestAlgorithm::GOST_R_34_11_2012.0, "GOST R 34.11-2012"),
    (DigestAlgorithm::SM3.0, "SM3"),
];

impl Registry for DigestAlgorithms {
    ghost COMMENT = { codes "digest type" };

    ghost rows = { digest_algorithms };

    ghost one_line = { refl };

    ghost table = { refl };

    const TYPE_NAME: &'static str = "DigestAlgorithm";

    const COMMENT: CommentName = CommentName("digest type");

    fn rows() -> &'static [(u8, &'static str)] {
        // each constant has the number that its name stands for
        prove!(DigestAlgorithm::SHA1.0 == 1);
        prove!(DigestAlgorithm::SHA256.0 == 2);
        prove!(DigestAlgorithm::GOST.0 == 3);
        prove!(DigestAlgorithm::SHA384.0 == 4);
        prove!(DigestAlgorithm::GOST_R_34_11_2012.0 == 5);
        prove!(DigestAlgorithm::SM3.0 == 6);
        &ROWS
    }
}
