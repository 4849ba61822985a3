//! Gateways of IPSECKEY records.

ghost use Rattle.std.specs.Prelude.{◌≡◌, ◌↔◌, ◌==◌, ◌≤◌, ◌+◌, ◌++◌, length, vec_len, vec_capacity, Err, IfOk, OnOk, OnErr, IsErrOf};
ghost use Rattle.name_spec.specs.AddressLaws.{AreOctets};
ghost use Rattle.name_spec.specs.Octets.{Short, Form};
ghost use Rattle.wire_base.specs.declared.errors.ParseError.TheVariants as errors;
ghost use Rattle.wire_base.specs.Faults.{GivesCopy};
ghost use Rattle.record_spec.specs.Ipseckeys.{gateway_type, gateway_wire, IsGateway};
ghost use Rattle.record_spec.specs.IpseckeyWire.{gateway_read};
ghost use Rattle.key_rdata.specs.GatewayView.{gateway_of};
ghost use Rattle.key_rdata.specs.OctetsComparing.{octets_cmp};

use crate::gateway_ref::GatewayRef;
use key_registry::IpseckeyGatewayType;
use std::alloc::Global;
use std::cmp::Ordering;
use wire_base::{CanonicalOrd, Name, NoMemory, ParseError, Parser};
use wire_records::{A, Aaaa};

/// What an IPSECKEY record names as the gateway to which a tunnel may be created (RFC 4025, section 2.5).
///
/// Gateways of different types are unequal, and have no order between them. Names are compared with ASCII case
/// ignored.
#[derive(Debug, Drop)]
pub enum IpseckeyGateway {
    /// There is none.
    None,
    /// The gateway has an IPv4 address.
    Ipv4(A),
    /// The gateway has an IPv6 address.
    Ipv6(Aaaa),
    /// The gateway has a name, which is uncompressed in the data.
    Name(Name),
}

impl IpseckeyGateway {
    /// The type (RFC 4025, section 2.3).
    pub(crate) fn gateway_type(&self) -> IpseckeyGatewayType
        ensures { result ≡ gateway_type (gateway_of self.now) }
    {
        match self {
            Self::None => IpseckeyGatewayType::NONE,
            Self::Ipv4(_) => IpseckeyGatewayType::IPV4,
            Self::Ipv6(_) => IpseckeyGatewayType::IPV6,
            Self::Name(_) => IpseckeyGatewayType::NAME,
        }
    }

    /// Whether this is the type.
    pub fn is_correct_gateway_type(&self, gwt: IpseckeyGatewayType) -> bool
        ensures { result ≡ (gateway_type (gateway_of self.now) == gwt) }
    {
        self.gateway_type() == gwt
    }

    /// The count of octets in the data.
    #[tactic(auto, using(text_spec::proofs::OctetParts::labels_octets))]
    pub fn rdlen(&self) -> u16
        ensures len { result ≡ length (gateway_wire (gateway_of self.now)) }
        ensures fits { result ≤ 255 }
        ensures is_gateway { IsGateway (gateway_of self.now) }
    {
        match self {
            Self::None => 0,
            Self::Ipv4(address) => count_octets(&address.addr().octets()),
            Self::Ipv6(address) => count_octets(&address.addr().octets()),
            Self::Name(name) => count_octets(name.as_slice()),
        }
    }

    /// Reads the gateway of that type at the parser's place (RFC 4025, section 2.5), and copies it: no octets for
    /// type 0, 4 or 16 octets for 1 and 2, a name for 3.
    ///
    /// The first of these errors that applies is returned, and the parser is then unchanged.
    ///
    /// - `Form`: the type is over 3.
    /// - `ShortInput`: an octet of an address or a name is missing.
    /// - `Form`: the name has that fault, as [`ParsedName::parse`](wire_base::ParsedName::parse) says, or a pointer was
    ///   followed to read it.
    /// - `NoMemory`: the gateway has no fault, but allocation failed.
    pub fn parse(
        alloc: Global,
        parser: &mut Parser<'_>,
        gateway_type: IpseckeyGatewayType,
    ) -> Result<IpseckeyGateway, ParseError>
        ensures answer { GivesCopy
            (λ found. record { value = gateway_of found; next = parser.new.pos })
            result (gateway_read gateway_type parser.old) }
        ensures ok { OnOk result (parser.new ≡ record parser.old { pos = parser.new.pos }) }
        ensures err { OnErr result (parser.new ≡ parser.old) }

        // Each fault by itself.
        ensures short_input { IsErrOf result errors.ShortInput
            ↔ (gateway_read gateway_type parser.old ≡ Err Short) }
        ensures form { IsErrOf result errors.Form
            ↔ (gateway_read gateway_type parser.old ≡ Err Form) }
    {
        let mut ahead = parser.fork();
        let gateway = GatewayRef::read(&mut ahead, gateway_type)?.to_gateway(alloc)?;
        *parser = ahead;
        Ok(gateway)
    }

    /// A copy.
    ///
    /// Fails only with `NoMemory`: allocation failed.
    pub fn try_clone(&self, alloc: Global) -> Result<IpseckeyGateway, NoMemory>
        ensures { IfOk result (λ copy. copy ≡ self.now) }
    {
        match self {
            Self::None => Ok(Self::None),
            Self::Ipv4(address) => Ok(Self::Ipv4(*address)),
            Self::Ipv6(address) => Ok(Self::Ipv6(*address)),
            Self::Name(name) => Ok(Self::Name(name.try_clone(alloc)?)),
        }
    }

    /// Appends the octets, for which there is room.
    pub(crate) fn append(&self, target: &mut Vec<u8>)
        requires { vec_len target.old + length (gateway_wire (gateway_of self.now))
            ≤ vec_capacity target.old }
        ensures octets { target.new.items
            ≡ target.old.items ++ gateway_wire (gateway_of self.now) }
        ensures capacity { vec_capacity target.old ≤ vec_capacity target.new }
    {
        match self {
            Self::None => {}
            Self::Ipv4(address) => {
                target.extend_from_slice(&address.addr().octets()).unwrap();
            }
            Self::Ipv6(address) => {
                target.extend_from_slice(&address.addr().octets()).unwrap();
            }
            Self::Name(name) => target.extend_from_slice(name.as_slice()).unwrap(),
        }
    }

    /// Compares the octets; by types, where these differ.
    pub(crate) fn octets_cmp(&self, other: &IpseckeyGateway) -> Ordering
        ensures { result ≡ octets_cmp (gateway_of self.now) (gateway_of other.now) }
    {
        match (self, other) {
            (Self::None, Self::None) => Ordering::Equal,
            (Self::Ipv4(address), Self::Ipv4(other)) => { address.canonical_cmp(other) }
            (Self::Ipv6(address), Self::Ipv6(other)) => { address.canonical_cmp(other) }
            (Self::Name(name), Self::Name(other)) => { name.as_slice().cmp(other.as_slice()) }
            _ => self.gateway_type().cmp(&other.gateway_type()),
        }
    }
}

/// The count of octets.
#[tactic(auto, using(text_spec::proofs::EncodingTexts::AreOctets_from))]
fn count_octets(octets: &[u8]) -> u16
    requires { length octets.now ≤ 255 }
    ensures len { result ≡ length octets.now }
    ensures octets { AreOctets octets.now }
{
    octets.len() as u16
}
