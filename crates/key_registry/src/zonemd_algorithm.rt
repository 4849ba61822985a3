//! Numbers of the registry `ZONEMD Hash Algorithms`.

ghost use Rattle.std.specs.Prelude.{refl, codes};
ghost use Rattle.key_registry.specs.Tables.{zonemd_algorithms};

use crate::octet_number::{OctetNumber, Registry};
use registry::CommentName;
use std::marker::PhantomData;

/// The algorithm of a ZONEMD record's digest (RFC 8976, section 2.2.3).
pub type ZonemdAlgorithm = OctetNumber<ZonemdAlgorithms>;

/// The registry of [`ZonemdAlgorithm`].
#[derive(Debug)]
pub struct ZonemdAlgorithms;

/// The numbers that have a name.
impl ZonemdAlgorithm {
    /// SHA-384 (RFC 8976, section 2.2.3).
    pub const SHA384: ZonemdAlgorithm = OctetNumber(1, PhantomData);

    /// SHA-512 (RFC 8976, section 2.2.3).
    pub const SHA512: ZonemdAlgorithm = OctetNumber(2, PhantomData);
}

const ROWS: [(u8, &str); 2] = [
    (ZonemdAlgorithm::SHA384.0, "SHA384"),
    (ZonemdAlgorithm::SHA512.0, "SHA512"),
];

impl Registry for ZonemdAlgorithms {
    ghost COMMENT = { codes "hash algorithm" };

    ghost rows = { zonemd_algorithms };

    ghost one_line = { refl };

    ghost table = { refl };

    const TYPE_NAME: &'static str = "ZonemdAlgorithm";

    const COMMENT: CommentName = CommentName("hash algorithm");

    fn rows() -> &'static [(u8, &'static str)] {
        // each constant has the number that its name stands for
        prove!(ZonemdAlgorithm::SHA384.0 == 1);
        prove!(ZonemdAlgorithm::SHA512.0 == 2);
        &ROWS
    }
}
