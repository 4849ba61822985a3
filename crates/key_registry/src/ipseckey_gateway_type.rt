//! Numbers of the registry `IPSECKEY Gateway Type`.

ghost use Rattle.std.specs.Prelude.{refl, codes};
ghost use Rattle.key_registry.specs.Tables.{ipseckey_gateway_types};

use crate::octet_number::{OctetNumber, Registry};
use registry::CommentName;
use std::marker::PhantomData;

/// The form of an IPSECKEY record's gateway (RFC 4025, section 2.3).
pub type IpseckeyGatewayType = OctetNumber<IpseckeyGatewayTypes>;

/// The registry of [`IpseckeyGatewayType`].
#[derive(Debug)]
pub struct IpseckeyGatewayTypes;

/// The numbers that have a name.
impl IpseckeyGatewayType {
    /// There is no gateway (RFC 4025, section 2.3).
    pub const NONE: IpseckeyGatewayType = OctetNumber(0, PhantomData);

    /// An IPv4 address (RFC 4025, section 2.3).
    pub const IPV4: IpseckeyGatewayType = OctetNumber(1, PhantomData);

    /// An IPv6 address (RFC 4025, section 2.3).
    pub const IPV6: IpseckeyGatewayType = OctetNumber(2, PhantomData);

    /// A domain name, uncompressed (RFC 4025, section 2.3).
    pub const NAME: IpseckeyGatewayType = OctetNumber(3, PhantomData);
}

const ROWS: [(u8, &str); 4] = [
    (IpseckeyGatewayType::NONE.0, "NONE"),
    (IpseckeyGatewayType::IPV4.0, "IPV4"),
    (IpseckeyGatewayType::IPV6.0, "IPV6"),
    (IpseckeyGatewayType::NAME.0, "NAME"),
];

impl Registry for IpseckeyGatewayTypes {
    ghost COMMENT = { codes "ipseckey gateway type" };

    ghost rows = { ipseckey_gateway_types };

    ghost one_line = { refl };

    ghost table = { refl };

    const TYPE_NAME: &'static str = "IpseckeyGatewayType";

    const COMMENT: CommentName = CommentName("ipseckey gateway type");

    fn rows() -> &'static [(u8, &'static str)] {
        // each constant has the number that its name stands for
        prove!(IpseckeyGatewayType::NONE.0 == 0);
        prove!(IpseckeyGatewayType::IPV4.0 == 1);
        prove!(IpseckeyGatewayType::IPV6.0 == 2);
        prove!(IpseckeyGatewayType::NAME.0 == 3);
        &ROWS
    }
}
