//! Record data of IPSECKEY.

ghost use Rattle.std.specs.Prelude.{◌≡◌, ◌==◌, ◌≤◌, ◌<◌, ◌↔◌, length, Some, Err, refl, IfOk, OnOk, OnErr, IsErrOf};
ghost use Rattle.name_spec.specs.Octets.{Short, Form};
ghost use Rattle.wire_base.specs.Faults.{GivesCopy};
ghost use Rattle.wire_base.specs.Moving.{TakesAll};
ghost use Rattle.wire_base.specs.declared.errors.ParseError.TheVariants as errors;
ghost use Rattle.record_spec.specs.Ipseckeys as spec;
ghost use Rattle.record_spec.specs.Ipseckeys.{gateway_type, lacks_key, ipseckey_wire, ipseckey_len};
ghost use Rattle.record_spec.specs.IpseckeyWire.{ipseckey_read};
ghost use Rattle.key_rdata.specs.GatewayView.{gateway_of};
ghost use Rattle.key_rdata.specs.IpseckeyView.{ipseckey_of};
ghost use Rattle.digest_rdata.specs.Making.{MakesData};

use crate::gateway::IpseckeyGateway;
use crate::ipseckey_ref::IpseckeyRef;
use key_registry::{IpseckeyAlgorithm, IpseckeyGatewayType};
use std::alloc::Global;
use std::cmp::Ordering;
use std::marker::Model;
use wire_base::{
    CanonicalOrd, ComposeRecordData, LongRecordData, NoMemory, Octets, ParseError, ParseRecordData,
    Parser, RecordData, Rtype,
};

/// The data of an IPSECKEY record (RFC 4025, section 2): a key for IPsec, and the gateway to which a tunnel may be
/// created, at most 65,535 octets in all. Its type number goes with the gateway: [`IpseckeyGateway`] has a variant for
/// each, so the two agree. Contracts see the fields.
///
/// To read it where it stands in a message, and its gateway:
///
/// ```
/// use key_rdata::{Ipseckey, IpseckeyGateway};
/// use std::alloc::Global;
/// use wire_base::{Ipv4Addr, ParseError, Parser};
///
/// fn ipv4_gateway(alloc: Global, parser: &mut Parser<'_>) -> Result<Option<Ipv4Addr>, ParseError> {
///     let data = Ipseckey::parse(alloc, parser)?;
///     match data.gateway() {
///         IpseckeyGateway::Ipv4(address) => Ok(Some(address.addr())),
///         _ => Ok(None),
///     }
/// }
/// ```
///
/// Data is compared by its fields in wire order: the numbers as such, an address and the key octet by octet, the name
/// of a gateway in the order of names, ASCII case ignored.
#[derive(Debug, Drop)]
pub struct Ipseckey {
    precedence: u8,
    algorithm: IpseckeyAlgorithm,
    gateway: IpseckeyGateway,
    key: Octets,
}

impl Model for Ipseckey {
    ghost use Rattle.record_spec.specs.Ipseckeys as spec;
    ghost use Rattle.key_rdata.specs.IpseckeyView.{ipseckey_of};

    ghost Value = { spec.Ipseckey };

    ghost view = { λ d. ipseckey_of d.precedence d.algorithm d.gateway d.key };

    ghost invariant = { λ d. spec.IsIpseckey
        (ipseckey_of d.precedence d.algorithm d.gateway d.key) };
}

impl Ipseckey {
    /// The data of its fields, which have at most 65,535 octets in all. No memory is taken.
    pub fn new(
        precedence: u8,
        algorithm: IpseckeyAlgorithm,
        gateway: IpseckeyGateway,
        key: Octets,
    ) -> Ipseckey
        requires { ipseckey_len (ipseckey_of precedence algorithm gateway key) ≤ 65535 }
        ensures { result ≡ ipseckey_of precedence algorithm gateway key }
    {
        fields_fit(precedence, algorithm, &gateway, key.as_slice());
        Ipseckey {
            precedence,
            algorithm,
            gateway,
            key,
        }
    }

    /// The data of its fields. No memory is taken.
    ///
    /// `LongRecordData`: it would have more than 65,535 octets. The gateway and the key are then dropped.
    pub fn try_new(
        precedence: u8,
        algorithm: IpseckeyAlgorithm,
        gateway: IpseckeyGateway,
        key: Octets,
    ) -> Result<Ipseckey, LongRecordData>
        ensures { MakesData (ipseckey_of precedence algorithm gateway key)
            (ipseckey_len (ipseckey_of precedence algorithm gateway key)) result }
    {
        LongRecordData::check_append_len(3 + usize::from(gateway.rdlen()), key.len())?;
        Ok(Ipseckey::new(precedence, algorithm, gateway, key))
    }

    /// Reads the data in all octets before the end of the data, and copies it (RFC 4025, section 2).
    ///
    /// The first of these errors that applies is returned, and the parser is then unchanged. All but the last are found
    /// before memory is taken.
    ///
    /// - `ShortInput`: the precedence, the gateway's type or the algorithm is missing.
    /// - `ShortInput`, `Form`: the gateway has a fault, as [`IpseckeyGateway::parse`] says.
    /// - `ShortInput`: the key has no octets, and the algorithm isn't `NONE`.
    /// - `Form`: the data has more than 65,535 octets.
    /// - `NoMemory`: the data has no fault, but allocation failed.
    pub fn parse(alloc: Global, parser: &mut Parser<'_>) -> Result<Ipseckey, ParseError>
        ensures answer { GivesCopy (λ found. record { value = found; next = parser.old.end })
            result (ipseckey_read parser.old) }
        ensures takes { TakesAll parser.old parser.new result }

        // Each fault of the data by itself.
        ensures short_input { IsErrOf result errors.ShortInput
            ↔ (ipseckey_read parser.old ≡ Err Short) }
        ensures form { IsErrOf result errors.Form ↔ (ipseckey_read parser.old ≡ Err Form) }
    {
        let found = IpseckeyRef::peek(parser)?;
        let owned = found.to_owned_data(alloc)?;
        parser.advance_to_end();
        Ok(owned)
    }

    /// The precedence: gateways with a lower one are tried first (RFC 4025, section 2.2).
    pub fn precedence(&self) -> u8
        ensures { result ≡ self.now.precedence }
    {
        self.precedence
    }

    /// The type of the gateway (RFC 4025, section 2.3).
    pub fn gateway_type(&self) -> IpseckeyGatewayType
        ensures { result ≡ gateway_type self.now.gateway }
    {
        self.gateway.gateway_type()
    }

    /// The algorithm of the key (RFC 4025, section 2.4).
    pub fn algorithm(&self) -> IpseckeyAlgorithm
        ensures { result ≡ self.now.algorithm }
    {
        self.algorithm
    }

    /// The gateway (RFC 4025, section 2.5).
    pub fn gateway(&self) -> &IpseckeyGateway
        ensures { gateway_of result.now ≡ self.now.gateway }
    {
        &self.gateway
    }

    /// The key (RFC 4025, section 2.6).
    pub fn key(&self) -> &Octets
        ensures { result.now ≡ self.now.key }
    {
        &self.key
    }

    /// A copy.
    ///
    /// Fails only with `NoMemory`: allocation failed.
    pub fn try_clone(&self, alloc: Global) -> Result<Ipseckey, NoMemory>
        ensures { IfOk result (λ copy. copy ≡ self.now) }
    {
        let gateway = self.gateway.try_clone(alloc)?;
        let key = self.key.try_clone(alloc)?;
        Ok(Ipseckey::new(self.precedence, self.algorithm, gateway, key))
    }

    /// The count of octets.
    fn len(&self) -> u16
        ensures len { result ≡ ipseckey_len self.now }
        ensures is_data { spec.IsIpseckey self.now }
    {
        3 + self.gateway.rdlen() + self.key.len() as u16
    }
}

/// Whether a key is missing: only the algorithm `NONE` goes without one (RFC 4025, section 2.4).
pub(crate) fn lacks_key(algorithm: IpseckeyAlgorithm, key: &[u8]) -> bool
    ensures { result ≡ lacks_key algorithm key.now }
{
    key.is_empty() && algorithm != IpseckeyAlgorithm::NONE
}

/// Does nothing, and says that fields of at most 65,535 octets are data.
#[tactic(auto, using(text_spec::proofs::EncodingTexts::AreOctets_from))]
fn fields_fit(precedence: u8, algorithm: IpseckeyAlgorithm, gateway: &IpseckeyGateway, key: &[u8])
    requires { ipseckey_len (ipseckey_of precedence algorithm gateway.now key.now) ≤ 65535 }
    ensures { spec.IsIpseckey (ipseckey_of precedence algorithm gateway.now key.now) }
{
    let _algorithm = u8::from(algorithm);
    let _rdlen = gateway.rdlen();
}

impl RecordData for Ipseckey {
    ghost rtype_of = { λ _. 45 };

    fn rtype(&self) -> Rtype {
        Rtype::IPSECKEY
    }
}

impl ComposeRecordData for Ipseckey {
    ghost octets = { ipseckey_wire };

    fn rdlen(&self, _compress: bool) -> Option<u16>
        ensures len { result ≡ Some (length (ipseckey_wire self.now)) }
        ensures is_data { spec.IsIpseckey self.now }
    {
        Some(self.len())
    }

    fn compose_rdata(&self, target: &mut Vec<u8>) -> Result<(), NoMemory> {
        target.reserve(usize::from(self.len()))?;
        let numbers = [
            self.precedence,
            u8::from(self.gateway_type()),
            u8::from(self.algorithm),
        ];
        target.extend_from_slice(&numbers).unwrap();
        self.gateway.append(target);
        target.extend_from_slice(self.key.as_slice()).unwrap();
        Ok(())
    }

    /// The case of a gateway's name stays in canonical form, so these are the octets of `compose_rdata`.
    fn compose_canonical_rdata(&self, target: &mut Vec<u8>) -> Result<(), NoMemory> {
        self.compose_rdata(target)
    }

    ghost by_type = { λ _. refl };
}

impl ParseRecordData for Ipseckey {
    ghost Seen = { spec.Ipseckey };

    ghost seen = { λ found. found };

    ghost takes = { λ rtype. rtype == 45 };

    ghost reads = { λ _. ipseckey_read };

    fn parse_rdata(
        alloc: Global,
        rtype: Rtype,
        parser: &mut Parser<'_>,
    ) -> Result<Option<Ipseckey>, ParseError> {
        if rtype != Rtype::IPSECKEY {
            return Ok(None);
        }
        let found = Ipseckey::parse(alloc, parser)?;
        Ok(Some(found))
    }
}

/// By the octets that are composed: precedence, the gateway's type, algorithm, then the gateway's octets, the case of
/// a name included, then the key.
impl CanonicalOrd for Ipseckey {
    ghost group = { λ _. 45 };

    ghost canonical = { ipseckey_wire };

    fn canonical_cmp(&self, other: &Ipseckey) -> Ordering {
        let type_order = self
            .gateway
            .gateway_type()
            .cmp(&other.gateway.gateway_type());
        self.precedence
            .cmp(&other.precedence)
            .then(type_order)
            .then(self.algorithm.cmp(&other.algorithm))
            .then(self.gateway.octets_cmp(&other.gateway))
            .then(self.key.cmp(&other.key))
    }
}
