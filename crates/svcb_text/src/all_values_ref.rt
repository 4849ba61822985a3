//! Views of values of every type.

ghost use Rattle.std.specs.Prelude.{◌≡◌, ◌≤◌, length, IfOk};

use crate::all_values::AllValues;
use crate::whole_value::parse_wholly;
use registry::{ComposeSvcParamValue, ParseSvcParamValue, SvcParamKey, SvcParamValue};
use std::alloc::Global;
use std::fmt;
use svcb_list::{AlpnRef, Ipv4HintRef, Ipv6HintRef, MandatoryRef, TlsSupportedGroupsRef};
use svcb_value::{DohPathRef, EchRef, NoDefaultAlpn, Ohttp, Port, UnknownSvcParamRef};
use wire_base::{NoMemory, ParseError, Parser};

/// A view of a value of any key, which borrows the octets. Equality compares the variant, the key and the octets.
#[derive(Clone, Copy, Debug, PartialEq, Eq, Hash)]
pub enum AllValuesRef<'a> {
    /// The keys that a client must know.
    Mandatory(MandatoryRef<'a>),
    /// The protocols that a server speaks.
    Alpn(AlpnRef<'a>),
    /// The protocols of `alpn` are the only ones.
    NoDefaultAlpn(NoDefaultAlpn),
    /// A port.
    Port(Port),
    /// A configuration of Encrypted ClientHello.
    Ech(EchRef<'a>),
    /// Addresses of IPv4.
    Ipv4Hint(Ipv4HintRef<'a>),
    /// Addresses of IPv6.
    Ipv6Hint(Ipv6HintRef<'a>),
    /// A path of DNS over HTTPS.
    DohPath(DohPathRef<'a>),
    /// The service is reached by Oblivious HTTP.
    Ohttp(Ohttp),
    /// Groups of TLS.
    TlsSupportedGroups(TlsSupportedGroupsRef<'a>),
    /// A value that is any octets, under any key.
    Unknown(UnknownSvcParamRef<'a>),
}

impl<'a> AllValuesRef<'a> {
    ghost use Rattle.svcb_spec.specs.ReadingValues.{value_in};
    ghost use Rattle.svcb_text.specs.AllValues.{value_of};
    ghost use Rattle.svcb_text.specs.AllValuesRef.{seen_view};

    /// The value of octets under a key, which never fails: of the key's type where all of the octets are such a value,
    /// and else the octets without a type. At most 65,535 octets are allowed (RFC 9460, section 2.2). No memory is
    /// taken.
    pub fn parse_any(key: SvcParamKey, slice: &'a [u8]) -> AllValuesRef<'a>
        requires fits { length slice.now ≤ 65535 }
        ensures { seen_view result ≡ value_in key slice.now }
    {
        let unknown = UnknownSvcParamRef::new(key, slice).unwrap();
        match parse_wholly(key, slice) {
            Ok(Some(value)) => value,
            Ok(None) => AllValuesRef::Unknown(unknown),
            Err(_) => AllValuesRef::Unknown(unknown),
        }
    }

    /// An owned copy. Fails only with `NoMemory`.
    pub fn to_owned_data(&self, alloc: Global) -> Result<AllValues, NoMemory>
        ensures { IfOk result (λ value. value_of value ≡ seen_view self.now) }
    {
        match self {
            AllValuesRef::Mandatory(view) => Ok(AllValues::Mandatory(view.to_owned_data(alloc)?)),
            AllValuesRef::Alpn(view) => Ok(AllValues::Alpn(view.to_owned_data(alloc)?)),
            AllValuesRef::NoDefaultAlpn(value) => Ok(AllValues::NoDefaultAlpn(*value)),
            AllValuesRef::Port(value) => Ok(AllValues::Port(*value)),
            AllValuesRef::Ech(view) => Ok(AllValues::Ech(view.to_owned_data(alloc)?)),
            AllValuesRef::Ipv4Hint(view) => Ok(AllValues::Ipv4Hint(view.to_owned_data(alloc)?)),
            AllValuesRef::Ipv6Hint(view) => Ok(AllValues::Ipv6Hint(view.to_owned_data(alloc)?)),
            AllValuesRef::DohPath(view) => Ok(AllValues::DohPath(view.to_owned_data(alloc)?)),
            AllValuesRef::Ohttp(value) => Ok(AllValues::Ohttp(*value)),
            AllValuesRef::TlsSupportedGroups(view) => Ok(AllValues::TlsSupportedGroups(
                view.to_owned_data(alloc)?,
            )),
            AllValuesRef::Unknown(view) => Ok(AllValues::Unknown(view.to_owned_data(alloc)?)),
        }
    }
}

impl<'a> SvcParamValue for AllValuesRef<'a> {
    ghost use Rattle.std.specs.Prelude.{◌≡◌, ◌<◌};
    ghost use Rattle.svcb_spec.specs.Values.{key_of};
    ghost use Rattle.svcb_text.specs.AllValuesRef.{seen_view};

    ghost key_of = { λ view. key_of (seen_view view) };

    fn key(&self) -> SvcParamKey
        ensures key { result ≡ key_of (seen_view self.now) }
        ensures in_range { key_of (seen_view self.now) < 65536 }
    {
        match self {
            AllValuesRef::Mandatory(view) => view.key(),
            AllValuesRef::Alpn(view) => view.key(),
            AllValuesRef::NoDefaultAlpn(view) => view.key(),
            AllValuesRef::Port(view) => view.key(),
            AllValuesRef::Ech(view) => view.key(),
            AllValuesRef::Ipv4Hint(view) => view.key(),
            AllValuesRef::Ipv6Hint(view) => view.key(),
            AllValuesRef::DohPath(view) => view.key(),
            AllValuesRef::Ohttp(view) => view.key(),
            AllValuesRef::TlsSupportedGroups(view) => view.key(),
            AllValuesRef::Unknown(view) => view.key(),
        }
    }
}

/// Every key is taken. Octets under the key of a type must be a value of that type; under another key any octets are.
impl<'a> ParseSvcParamValue<'a> for AllValuesRef<'a> {
    ghost use Rattle.std.specs.Prelude.{true};
    ghost use Rattle.svcb_spec.specs.Values.{Value};
    ghost use Rattle.svcb_spec.specs.ReadingValues.{take_value};
    ghost use Rattle.svcb_text.specs.AllValuesRef.{seen_view};

    ghost Seen = { Value };

    ghost seen = { seen_view };

    ghost takes = { λ _. true };

    ghost reads = { take_value };

    fn parse_value(
        key: SvcParamKey,
        parser: &mut Parser<'a>,
    ) -> Result<Option<AllValuesRef<'a>>, ParseError> {
        match key {
            SvcParamKey::MANDATORY => Ok(Some(AllValuesRef::Mandatory(MandatoryRef::parse(
                parser,
            )?))),
            SvcParamKey::ALPN => Ok(Some(AllValuesRef::Alpn(AlpnRef::parse(parser)?))),
            SvcParamKey::NO_DEFAULT_ALPN => Ok(Some(AllValuesRef::NoDefaultAlpn(
                NoDefaultAlpn::parse(parser)?,
            ))),
            SvcParamKey::PORT => Ok(Some(AllValuesRef::Port(Port::parse(parser)?))),
            SvcParamKey::IPV4HINT => Ok(Some(AllValuesRef::Ipv4Hint(Ipv4HintRef::parse(parser)?))),
            SvcParamKey::ECH => Ok(Some(AllValuesRef::Ech(EchRef::parse(parser)?))),
            SvcParamKey::IPV6HINT => Ok(Some(AllValuesRef::Ipv6Hint(Ipv6HintRef::parse(parser)?))),
            SvcParamKey::DOHPATH => Ok(Some(AllValuesRef::DohPath(DohPathRef::parse(parser)?))),
            SvcParamKey::OHTTP => Ok(Some(AllValuesRef::Ohttp(Ohttp::parse(parser)?))),
            SvcParamKey::TLS_SUPPORTED_GROUPS => Ok(Some(AllValuesRef::TlsSupportedGroups(
                TlsSupportedGroupsRef::parse(parser)?,
            ))),
            _ => Ok(Some(AllValuesRef::Unknown(UnknownSvcParamRef::parse(key, parser)?))),
        }
    }
}

impl<'a> ComposeSvcParamValue for AllValuesRef<'a> {
    ghost use Rattle.svcb_spec.specs.Values.{encode, IsValue};
    ghost use Rattle.svcb_text.specs.AllValuesRef.{seen_view};

    ghost octets = { λ view. encode (seen_view view) };

    fn compose_len(&self) -> u16
        ensures len { result ≡ length (encode (seen_view self.now)) }
        ensures value { IsValue (seen_view self.now) }
    {
        match self {
            AllValuesRef::Mandatory(view) => view.compose_len(),
            AllValuesRef::Alpn(view) => view.compose_len(),
            AllValuesRef::NoDefaultAlpn(view) => view.compose_len(),
            AllValuesRef::Port(view) => view.compose_len(),
            AllValuesRef::Ech(view) => view.compose_len(),
            AllValuesRef::Ipv4Hint(view) => view.compose_len(),
            AllValuesRef::Ipv6Hint(view) => view.compose_len(),
            AllValuesRef::DohPath(view) => view.compose_len(),
            AllValuesRef::Ohttp(view) => view.compose_len(),
            AllValuesRef::TlsSupportedGroups(view) => view.compose_len(),
            AllValuesRef::Unknown(view) => view.compose_len(),
        }
    }

    fn compose_value(&self, target: &mut Vec<u8>) -> Result<(), NoMemory> {
        match self {
            AllValuesRef::Mandatory(view) => view.compose_value(target),
            AllValuesRef::Alpn(view) => view.compose_value(target),
            AllValuesRef::NoDefaultAlpn(view) => view.compose_value(target),
            AllValuesRef::Port(view) => view.compose_value(target),
            AllValuesRef::Ech(view) => view.compose_value(target),
            AllValuesRef::Ipv4Hint(view) => view.compose_value(target),
            AllValuesRef::Ipv6Hint(view) => view.compose_value(target),
            AllValuesRef::DohPath(view) => view.compose_value(target),
            AllValuesRef::Ohttp(view) => view.compose_value(target),
            AllValuesRef::TlsSupportedGroups(view) => view.compose_value(target),
            AllValuesRef::Unknown(view) => view.compose_value(target),
        }
    }
}

/// The text of the value that is viewed.
impl<'a> fmt::Display for AllValuesRef<'a> {
    ghost use Rattle.std.specs.Prelude.{Some};
    ghost use Rattle.svcb_spec.specs.PrintedValues.{value_printed};
    ghost use Rattle.svcb_text.specs.AllValuesRef.{seen_view};

    ghost output = { λ view. Some (value_printed (seen_view view)) };

    fn fmt<W: fmt::Write>(&self, f: &mut fmt::Formatter<W>) -> fmt::Result {
        match self {
            AllValuesRef::Mandatory(view) => write!(f, "{view}"),
            AllValuesRef::Alpn(view) => write!(f, "{view}"),
            AllValuesRef::NoDefaultAlpn(value) => write!(f, "{value}"),
            AllValuesRef::Port(value) => write!(f, "{value}"),
            AllValuesRef::Ech(view) => write!(f, "{view}"),
            AllValuesRef::Ipv4Hint(view) => write!(f, "{view}"),
            AllValuesRef::Ipv6Hint(view) => write!(f, "{view}"),
            AllValuesRef::DohPath(view) => write!(f, "{view}"),
            AllValuesRef::Ohttp(value) => write!(f, "{value}"),
            AllValuesRef::TlsSupportedGroups(view) => write!(f, "{view}"),
            AllValuesRef::Unknown(view) => write!(f, "{view}"),
        }
    }
}
