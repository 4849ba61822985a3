//! Gateways of IPSECKEY records in a message.

ghost use Rattle.std.specs.Prelude.{◌≡◌, ◌+◌, length, IfOk};
ghost use Rattle.name_spec.specs.Names.{name_wire};
ghost use Rattle.wire_base.specs.Faults.{Gives};
ghost use Rattle.record_spec.specs.Ipseckeys.{NameGateway, gateway_wire};
ghost use Rattle.record_spec.specs.IpseckeyWire.{gateway_read};
ghost use Rattle.key_rdata.specs.GatewayView.{gateway_of, gateway_of_ref};

use crate::gateway::IpseckeyGateway;
use key_registry::IpseckeyGatewayType;
use std::alloc::Global;
use wire_base::{NoMemory, ParseError, ParsedName, Parser};
use wire_records::{A, Aaaa};

/// A gateway in a message, whose name stays where it is. No pointer was followed to read it.
#[derive(Debug, Drop)]
pub(crate) enum GatewayRef<'a> {
    None,
    Ipv4(A),
    Ipv6(Aaaa),
    Name(ParsedName<'a>),
}

impl<'a> GatewayRef<'a> {
    /// Reads the gateway of that type in place. On an error the parser stands anywhere within the data.
    pub(crate) fn read(
        parser: &mut Parser<'a>,
        gateway_type: IpseckeyGatewayType,
    ) -> Result<GatewayRef<'a>, ParseError>
        ensures answer { Gives
            (λ found. record { value = gateway_of_ref found; next = parser.new.pos })
            result (gateway_read gateway_type parser.old) }
        ensures len { IfOk result (λ found. parser.old.pos
            + length (gateway_wire (gateway_of_ref found)) ≡ parser.new.pos) }
        ensures within { parser.new ≡ record parser.old { pos = parser.new.pos } }
    {
        match u8::from(gateway_type) {
            0 => Ok(GatewayRef::None),
            1 => Ok(GatewayRef::Ipv4(A::parse(parser)?)),
            2 => Ok(GatewayRef::Ipv6(Aaaa::parse(parser)?)),
            3 => Ok(GatewayRef::Name(read_name(parser)?)),
            _ => Err(ParseError::Form),
        }
    }

    /// The same gateway by itself.
    ///
    /// Fails only with `NoMemory`: allocation failed.
    pub(crate) fn to_gateway(&self, alloc: Global) -> Result<IpseckeyGateway, NoMemory>
        ensures { IfOk result (λ owned. gateway_of owned ≡ gateway_of_ref self.now) }
    {
        match self {
            GatewayRef::None => Ok(IpseckeyGateway::None),
            GatewayRef::Ipv4(address) => Ok(IpseckeyGateway::Ipv4(*address)),
            GatewayRef::Ipv6(address) => Ok(IpseckeyGateway::Ipv6(*address)),
            GatewayRef::Name(name) => Ok(IpseckeyGateway::Name(name.to_name(alloc)?)),
        }
    }
}

/// The uncompressed name at the parser's place. On an error the parser stands anywhere within the data.
fn read_name<'a>(parser: &mut Parser<'a>) -> Result<ParsedName<'a>, ParseError>
    ensures answer { Gives
        (λ name. record { value = NameGateway name.labels; next = parser.new.pos })
        result (gateway_read 3 parser.old) }
    ensures len { IfOk result (λ name. parser.old.pos
        + length (name_wire name.labels) ≡ parser.new.pos) }
    ensures within { parser.new ≡ record parser.old { pos = parser.new.pos } }
{
    let name = ParsedName::parse(parser)?;
    if name.is_compressed() {
        return Err(ParseError::Form);
    }
    Ok(name)
}
