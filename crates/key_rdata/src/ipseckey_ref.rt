//! Record data of IPSECKEY in a message.

ghost use Rattle.std.specs.Prelude.{◌≡◌, ◌≤◌, IfOk};
ghost use Rattle.wire_base.specs.Faults.{Gives};
ghost use Rattle.record_spec.specs.Ipseckeys.{ipseckey_len};
ghost use Rattle.record_spec.specs.IpseckeyWire.{ipseckey_read};
ghost use Rattle.key_rdata.specs.IpseckeyView.{ipseckey_of_ref};

use crate::gateway_ref::GatewayRef;
use crate::ipseckey::{Ipseckey, lacks_key};
use key_registry::{IpseckeyAlgorithm, IpseckeyGatewayType};
use std::alloc::Global;
use wire_base::{LongRecordData, NoMemory, Octets, ParseError, Parser};

/// The data of an IPSECKEY record in a message, which stays where it is.
#[derive(Debug, Drop)]
pub(crate) struct IpseckeyRef<'a> {
    precedence: u8,
    algorithm: IpseckeyAlgorithm,
    gateway: GatewayRef<'a>,
    key: &'a [u8],
}

impl<'a> IpseckeyRef<'a> {
    /// Reads the data in place, in all octets before the end of the data. On an error the parser stands anywhere
    /// within the data.
    fn read(parser: &mut Parser<'a>) -> Result<IpseckeyRef<'a>, ParseError>
        ensures answer { Gives
            (λ found. record { value = ipseckey_of_ref found; next = parser.old.end })
            result (ipseckey_read parser.old) }
        ensures fits { IfOk result (λ found. ipseckey_len (ipseckey_of_ref found) ≤ 65535) }
        ensures within { parser.new ≡ record parser.old { pos = parser.new.pos } }
    {
        let remaining = parser.remaining();
        let precedence = parser.parse_u8()?;
        let gateway_type = IpseckeyGatewayType::from(parser.parse_u8()?);
        let algorithm = IpseckeyAlgorithm::from(parser.parse_u8()?);
        let gateway = GatewayRef::read(parser, gateway_type)?;
        let key = parser.remaining_octets();
        if lacks_key(algorithm, key) {
            return Err(ParseError::ShortInput);
        }
        LongRecordData::check_len(remaining)?;
        Ok(IpseckeyRef {
            precedence,
            algorithm,
            gateway,
            key,
        })
    }

    /// The data in all octets before the end of the data. The parser stays.
    pub(crate) fn peek(parser: &Parser<'a>) -> Result<IpseckeyRef<'a>, ParseError>
        ensures answer { Gives
            (λ found. record { value = ipseckey_of_ref found; next = parser.now.end })
            result (ipseckey_read parser.now) }
        ensures fits { IfOk result (λ found. ipseckey_len (ipseckey_of_ref found) ≤ 65535) }
    {
        IpseckeyRef::read(&mut parser.fork())
    }

    /// The same data by itself.
    ///
    /// Fails only with `NoMemory`: allocation failed.
    pub(crate) fn to_owned_data(&self, alloc: Global) -> Result<Ipseckey, NoMemory>
        requires { ipseckey_len (ipseckey_of_ref self.now) ≤ 65535 }
        ensures { IfOk result (λ owned. owned ≡ ipseckey_of_ref self.now) }
    {
        let gateway = self.gateway.to_gateway(alloc)?;
        let key = Octets::from_slice(alloc, self.key)?;
        Ok(Ipseckey::new(self.precedence, self.algorithm, gateway, key))
    }
}
