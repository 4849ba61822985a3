//! Numbers of the registry `SSHFP RR Types for fingerprint types`.

ghost use Rattle.std.specs.Prelude.{refl, codes};
ghost use Rattle.key_registry.specs.Tables.{sshfp_types};

use crate::octet_number::{OctetNumber, Registry};
use registry::CommentName;
use std::marker::PhantomData;

/// The algorithm of an SSHFP record's fingerprint (RFC 4255, section 3.1.2).
pub type SshfpType = OctetNumber<SshfpTypes>;

/// The registry of [`SshfpType`].
#[derive(Debug)]
pub struct SshfpTypes;

/// The numbers that have a name.
impl SshfpType {
    /// Reserved (RFC 4255, section 3.1.2).
    pub const RESERVED: SshfpType = OctetNumber(0, PhantomData);

    /// SHA-1 (RFC 4255, section 3.1.2).
    pub const SHA1: SshfpType = OctetNumber(1, PhantomData);

    /// SHA-256 (RFC 6594).
    pub const SHA256: SshfpType = OctetNumber(2, PhantomData);
}

const ROWS: [(u8, &str); 3] = [
    (SshfpType::RESERVED.0, "Reserved"),
    (SshfpType::SHA1.0, "SHA-1"),
    (SshfpType::SHA256.0, "SHA-256"),
];

impl Registry for SshfpTypes {
    ghost COMMENT = { codes "fingerprint type" };

    ghost rows = { sshfp_types };

    ghost one_line = { refl };

    ghost table = { refl };

    const TYPE_NAME: &'static str = "SshfpType";

    const COMMENT: CommentName = CommentName("fingerprint type");

    fn rows() -> &'static [(u8, &'static str)] {
        // each constant has the number that its name stands for
        prove!(SshfpType::RESERVED.0 == 0);
        prove!(SshfpType::SHA1.0 == 1);
        prove!(SshfpType::SHA256.0 == 2);
        &ROWS
    }
}
