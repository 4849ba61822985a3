//! Numbers of the registry `SSHFP RR Types for public key algorithms`.

ghost use Rattle.std.specs.Prelude.{refl, codes};
ghost use Rattle.key_registry.specs.Tables.{sshfp_algorithms};

use crate::octet_number::{OctetNumber, Registry};
use registry::CommentName;
use std::marker::PhantomData;

/// The algorithm of an SSHFP record's key (RFC 4255, section 3.1.1).
pub type SshfpAlgorithm = OctetNumber<SshfpAlgorithms>;

/// The registry of [`SshfpAlgorithm`].
#[derive(Debug)]
pub struct SshfpAlgorithms;

/// The numbers that have a name.
impl SshfpAlgorithm {
    /// Reserved (RFC 4255, section 3.1.1).
    pub const RESERVED: SshfpAlgorithm = OctetNumber(0, PhantomData);

    /// RSA (RFC 4255, section 3.1.1).
    pub const RSA: SshfpAlgorithm = OctetNumber(1, PhantomData);

    /// DSA (RFC 4255, section 3.1.1).
    pub const DSA: SshfpAlgorithm = OctetNumber(2, PhantomData);

    /// ECDSA (RFC 6594).
    pub const ECDSA: SshfpAlgorithm = OctetNumber(3, PhantomData);

    /// Ed25519 (RFC 7479).
    pub const ED25519: SshfpAlgorithm = OctetNumber(4, PhantomData);

    /// Ed448 (RFC 8709).
    pub const ED448: SshfpAlgorithm = OctetNumber(6, PhantomData);
}

const ROWS: [(u8, &str); 6] = [
    (SshfpAlgorithm::RESERVED.0, "Reserved"),
    (SshfpAlgorithm::RSA.0, "RSA"),
    (SshfpAlgorithm::DSA.0, "DSA"),
    (SshfpAlgorithm::ECDSA.0, "ECDSA"),
    (SshfpAlgorithm::ED25519.0, "Ed25519"),
    (SshfpAlgorithm::ED448.0, "Ed448"),
];

impl Registry for SshfpAlgorithms {
    ghost COMMENT = { codes "public key algorithm" };

    ghost rows = { sshfp_algorithms };

    ghost one_line = { refl };

    ghost table = { refl };

    const TYPE_NAME: &'static str = "SshfpAlgorithm";

    const COMMENT: CommentName = CommentName("public key algorithm");

    fn rows() -> &'static [(u8, &'static str)] {
        // each constant has the number that its name stands for
        prove!(SshfpAlgorithm::RESERVED.0 == 0);
        prove!(SshfpAlgorithm::RSA.0 == 1);
        prove!(SshfpAlgorithm::DSA.0 == 2);
        prove!(SshfpAlgorithm::ECDSA.0 == 3);
        prove!(SshfpAlgorithm::ED25519.0 == 4);
        prove!(SshfpAlgorithm::ED448.0 == 6);
        &ROWS
    }
}
