//! Numbers of the registry `IPSECKEY Algorithm Type`.

ghost use Rattle.std.specs.Prelude.{refl, codes};
ghost use Rattle.key_registry.specs.Tables.{ipseckey_algorithms};

use crate::octet_number::{OctetNumber, Registry};
use registry::CommentName;
use std::marker::PhantomData;

/// The algorithm of an IPSECKEY record's key (RFC 4025, section 2.4).
pub type IpseckeyAlgorithm = OctetNumber<IpseckeyAlgorithms>;

/// The registry of [`IpseckeyAlgorithm`].
#[derive(Debug)]
pub struct IpseckeyAlgorithms;

/// The numbers that have a name.
impl IpseckeyAlgorithm {
    /// There is no key (RFC 4025, section 2.4).
    pub const NONE: IpseckeyAlgorithm = OctetNumber(0, PhantomData);

    /// A DSA key in the form of RFC 2536 (RFC 4025, section 2.4).
    pub const DSA: IpseckeyAlgorithm = OctetNumber(1, PhantomData);

    /// An RSA key in the form of RFC 3110 (RFC 4025, section 2.4).
    pub const RSA: IpseckeyAlgorithm = OctetNumber(2, PhantomData);

    /// An ECDSA key in the form of RFC 6605 (IANA's registry).
    pub const ECDSA: IpseckeyAlgorithm = OctetNumber(3, PhantomData);

    /// An EdDSA key in the form of RFC 8080 (RFC 9373).
    pub const EDDSA: IpseckeyAlgorithm = OctetNumber(4, PhantomData);
}

const ROWS: [(u8, &str); 5] = [
    (IpseckeyAlgorithm::NONE.0, "NONE"),
    (IpseckeyAlgorithm::DSA.0, "DSA"),
    (IpseckeyAlgorithm::RSA.0, "RSA"),
    (IpseckeyAlgorithm::ECDSA.0, "ECDSA"),
    (IpseckeyAlgorithm::EDDSA.0, "EdDSA"),
];

impl Registry for IpseckeyAlgorithms {
    ghost COMMENT = { codes "ipseckey algorithm" };

    ghost rows = { ipseckey_algorithms };

    ghost one_line = { refl };

    ghost table = { refl };

    const TYPE_NAME: &'static str = "IpseckeyAlgorithm";

    const COMMENT: CommentName = CommentName("ipseckey algorithm");

    fn rows() -> &'static [(u8, &'static str)] {
        // each constant has the number that its name stands for
        prove!(IpseckeyAlgorithm::NONE.0 == 0);
        prove!(IpseckeyAlgorithm::DSA.0 == 1);
        prove!(IpseckeyAlgorithm::RSA.0 == 2);
        prove!(IpseckeyAlgorithm::ECDSA.0 == 3);
        prove!(IpseckeyAlgorithm::EDDSA.0 == 4);
        &ROWS
    }
}
