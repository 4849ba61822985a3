//! Values of every type.

ghost use Rattle.std.specs.Prelude.{◌≡◌, length, IfOk};

use crate::all_values_ref::AllValuesRef;
use registry::{ComposeSvcParamValue, SvcParamKey, SvcParamValue};
use std::alloc::Global;
use std::fmt;
use svcb_list::{Alpn, Ipv4Hint, Ipv6Hint, Mandatory, TlsSupportedGroups};
use svcb_value::{DohPath, Ech, NoDefaultAlpn, Ohttp, Port, UnknownSvcParam};
use wire_base::NoMemory;

/// A value of any key: of the key's type, where the library has one, and else any octets.
///
/// Made of one type's value by `From`, read by [`AllValuesRef`], or scanned by [`scan_param`](crate::scan_param).
/// Equality compares the variant, the key and the octets.
///
/// ```
/// let value = scan_param(alloc, b"alpn=h2,h3")?;
/// // value.key() is `SvcParamKey::ALPN`; the value is `AllValues::Alpn`, and is printed as `alpn=h2,h3`
/// let other = scan_param(alloc, b"key667=hello")?;
/// // other is `AllValues::Unknown`, whose octets are `hello`
/// ```
#[derive(Debug, PartialEq, Eq, Hash, Drop)]
pub enum AllValues {
    /// The keys that a client must know.
    Mandatory(Mandatory),
    /// The protocols that a server speaks.
    Alpn(Alpn),
    /// The protocols of `alpn` are the only ones.
    NoDefaultAlpn(NoDefaultAlpn),
    /// A port.
    Port(Port),
    /// A configuration of Encrypted ClientHello.
    Ech(Ech),
    /// Addresses of IPv4.
    Ipv4Hint(Ipv4Hint),
    /// Addresses of IPv6.
    Ipv6Hint(Ipv6Hint),
    /// A path of DNS over HTTPS.
    DohPath(DohPath),
    /// The service is reached by Oblivious HTTP.
    Ohttp(Ohttp),
    /// Groups of TLS.
    TlsSupportedGroups(TlsSupportedGroups),
    /// A value that is any octets, under any key.
    Unknown(UnknownSvcParam),
}

impl AllValues {
    ghost use Rattle.svcb_text.specs.AllValues.{value_of};
    ghost use Rattle.svcb_text.specs.AllValuesRef.{seen_view};

    /// A view of the same value. No memory is taken.
    pub fn for_ref(&self) -> AllValuesRef<'_>
        ensures { seen_view result ≡ value_of self.now }
    {
        match self {
            AllValues::Mandatory(value) => AllValuesRef::Mandatory(value.for_ref()),
            AllValues::Alpn(value) => AllValuesRef::Alpn(value.for_ref()),
            AllValues::NoDefaultAlpn(value) => AllValuesRef::NoDefaultAlpn(*value),
            AllValues::Port(value) => AllValuesRef::Port(*value),
            AllValues::Ech(value) => AllValuesRef::Ech(value.for_ref()),
            AllValues::Ipv4Hint(value) => AllValuesRef::Ipv4Hint(value.for_ref()),
            AllValues::Ipv6Hint(value) => AllValuesRef::Ipv6Hint(value.for_ref()),
            AllValues::DohPath(value) => AllValuesRef::DohPath(value.for_ref()),
            AllValues::Ohttp(value) => AllValuesRef::Ohttp(*value),
            AllValues::TlsSupportedGroups(value) => AllValuesRef::TlsSupportedGroups(
                value.for_ref(),
            ),
            AllValues::Unknown(value) => AllValuesRef::Unknown(value.for_ref()),
        }
    }

    /// A copy. Fails only with `NoMemory`.
    pub fn try_clone(&self, alloc: Global) -> Result<AllValues, NoMemory>
        ensures { IfOk result (λ value. value_of value ≡ value_of self.now) }
    {
        match self {
            AllValues::Mandatory(value) => Ok(AllValues::Mandatory(value.try_clone(alloc)?)),
            AllValues::Alpn(value) => Ok(AllValues::Alpn(value.try_clone(alloc)?)),
            AllValues::NoDefaultAlpn(value) => Ok(AllValues::NoDefaultAlpn(*value)),
            AllValues::Port(value) => Ok(AllValues::Port(*value)),
            AllValues::Ech(value) => Ok(AllValues::Ech(value.try_clone(alloc)?)),
            AllValues::Ipv4Hint(value) => Ok(AllValues::Ipv4Hint(value.try_clone(alloc)?)),
            AllValues::Ipv6Hint(value) => Ok(AllValues::Ipv6Hint(value.try_clone(alloc)?)),
            AllValues::DohPath(value) => Ok(AllValues::DohPath(value.try_clone(alloc)?)),
            AllValues::Ohttp(value) => Ok(AllValues::Ohttp(*value)),
            AllValues::TlsSupportedGroups(value) => Ok(AllValues::TlsSupportedGroups(
                value.try_clone(alloc)?,
            )),
            AllValues::Unknown(value) => Ok(AllValues::Unknown(value.try_clone(alloc)?)),
        }
    }
}

impl SvcParamValue for AllValues {
    ghost use Rattle.std.specs.Prelude.{◌≡◌, ◌<◌};
    ghost use Rattle.svcb_spec.specs.Values.{key_of};
    ghost use Rattle.svcb_text.specs.AllValues.{value_of};

    ghost key_of = { λ value. key_of (value_of value) };

    fn key(&self) -> SvcParamKey
        ensures key { result ≡ key_of (value_of self.now) }
        ensures in_range { key_of (value_of self.now) < 65536 }
    {
        match self {
            AllValues::Mandatory(value) => value.key(),
            AllValues::Alpn(value) => value.key(),
            AllValues::NoDefaultAlpn(value) => value.key(),
            AllValues::Port(value) => value.key(),
            AllValues::Ech(value) => value.key(),
            AllValues::Ipv4Hint(value) => value.key(),
            AllValues::Ipv6Hint(value) => value.key(),
            AllValues::DohPath(value) => value.key(),
            AllValues::Ohttp(value) => value.key(),
            AllValues::TlsSupportedGroups(value) => value.key(),
            AllValues::Unknown(value) => value.key(),
        }
    }
}

impl ComposeSvcParamValue for AllValues {
    ghost use Rattle.svcb_spec.specs.Values.{encode, IsValue};
    ghost use Rattle.svcb_text.specs.AllValues.{value_of};

    ghost octets = { λ value. encode (value_of value) };

    fn compose_len(&self) -> u16
        ensures len { result ≡ length (encode (value_of self.now)) }
        ensures value { IsValue (value_of self.now) }
    {
        match self {
            AllValues::Mandatory(value) => value.compose_len(),
            AllValues::Alpn(value) => value.compose_len(),
            AllValues::NoDefaultAlpn(value) => value.compose_len(),
            AllValues::Port(value) => value.compose_len(),
            AllValues::Ech(value) => value.compose_len(),
            AllValues::Ipv4Hint(value) => value.compose_len(),
            AllValues::Ipv6Hint(value) => value.compose_len(),
            AllValues::DohPath(value) => value.compose_len(),
            AllValues::Ohttp(value) => value.compose_len(),
            AllValues::TlsSupportedGroups(value) => value.compose_len(),
            AllValues::Unknown(value) => value.compose_len(),
        }
    }

    fn compose_value(&self, target: &mut Vec<u8>) -> Result<(), NoMemory> {
        match self {
            AllValues::Mandatory(value) => value.compose_value(target),
            AllValues::Alpn(value) => value.compose_value(target),
            AllValues::NoDefaultAlpn(value) => value.compose_value(target),
            AllValues::Port(value) => value.compose_value(target),
            AllValues::Ech(value) => value.compose_value(target),
            AllValues::Ipv4Hint(value) => value.compose_value(target),
            AllValues::Ipv6Hint(value) => value.compose_value(target),
            AllValues::DohPath(value) => value.compose_value(target),
            AllValues::Ohttp(value) => value.compose_value(target),
            AllValues::TlsSupportedGroups(value) => value.compose_value(target),
            AllValues::Unknown(value) => value.compose_value(target),
        }
    }
}

/// The text of a view of the value.
impl fmt::Display for AllValues {
    ghost use Rattle.std.specs.Prelude.{Some};
    ghost use Rattle.svcb_spec.specs.PrintedValues.{value_printed};
    ghost use Rattle.svcb_text.specs.AllValues.{value_of};

    ghost output = { λ value. Some (value_printed (value_of value)) };

    fn fmt<W: fmt::Write>(&self, f: &mut fmt::Formatter<W>) -> fmt::Result {
        write!(f, "{}", self.for_ref())
    }
}
