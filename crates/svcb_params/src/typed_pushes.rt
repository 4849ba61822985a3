//! Pushes of values by their items.

ghost use Rattle.std.specs.Prelude.{◌≡◌, ◌*◌, length, IfOk};
ghost use Rattle.svcb_spec.specs.Values as values;
ghost use Rattle.svcb_pairs.specs.Pushing.{PushesValue, IsPushAnswer};
ghost use Rattle.svcb_params.specs.ValueFaults.{len_fault, groups_len_fault, alpn_fault, IsPushValueAnswer, IsPushAlpnAnswer, IsAlpnBuilt};

use crate::builder::SvcParamsBuilder;
use crate::errors::{PushAlpnError, PushValueError};
use registry::{LongSvcParam, SvcParamKey};
use std::alloc::Global;
use svcb_list::{
    Alpn, AlpnBuilder, BuildAlpnError, Ipv4Hint, Ipv6Hint, Mandatory, TlsSupportedGroups,
};
use svcb_pairs::PushError;
use svcb_value::{DohPath, Ech, NoDefaultAlpn, Ohttp, Port};
use wire_base::{Ipv4Addr, Ipv6Addr, Octets};

/// The value of protocols in order. Refused by the first fault, else only when allocation fails.
fn alpn_of(alloc: Global, protocols: &[Octets]) -> Result<Alpn, BuildAlpnError>
    ensures value { IfOk result (λ value. value ≡ values.Alpn protocols.now) }
    ensures answer { IsAlpnBuilt result (alpn_fault protocols.now) }
{
    let mut builder = AlpnBuilder::empty(alloc);
    for protocol in protocols {
        builder.push(protocol.as_slice())?;
    }
    Ok(builder.freeze())
}

impl SvcParamsBuilder {
    /// Adds `no-default-alpn` (RFC 9460, section 7.1.1).
    ///
    /// Refused as [`push`](Self::push) is; the builder is then unchanged.
    pub fn no_default_alpn(&mut self) -> Result<(), PushError>
        ensures { PushesValue self.old self.new values.NoDefaultAlpn result (IsPushAnswer result) }
    {
        self.push(&NoDefaultAlpn)
    }

    /// Adds `port` (RFC 9460, section 7.2).
    ///
    /// Refused as [`push`](Self::push) is; the builder is then unchanged.
    pub fn port(&mut self, port: u16) -> Result<(), PushError>
        ensures { PushesValue self.old self.new (values.Port port) result (IsPushAnswer result) }
    {
        self.push(&Port::new(port))
    }

    /// Adds `ohttp` (RFC 9540, section 4).
    ///
    /// Refused as [`push`](Self::push) is; the builder is then unchanged.
    pub fn ohttp(&mut self) -> Result<(), PushError>
        ensures { PushesValue self.old self.new values.Ohttp result (IsPushAnswer result) }
    {
        self.push(&Ohttp)
    }

    /// Adds `ech` (RFC 9460, section 14.3.2), the octets of an ECHConfigList.
    ///
    /// `LongSvcParam`: it has more than 65,535 octets. Else refused as [`push`](Self::push) is. The builder is then
    /// unchanged.
    pub fn ech(&mut self, ech: &[u8]) -> Result<(), PushValueError>
        ensures { PushesValue self.old self.new (values.Ech ech.now) result
            (IsPushValueAnswer result (len_fault (length ech.now))) }
    {
        LongSvcParam::check_len(ech.len())?;
        let octets = Octets::from_slice(self.alloc(), ech)?;
        self.push(&Ech::from_octets(octets)?)?;
        Ok(())
    }

    /// Adds `dohpath` (RFC 9461, section 5).
    ///
    /// `LongSvcParam`: the template has more than 65,535 octets. Else refused as [`push`](Self::push) is. The builder
    /// is then unchanged.
    pub fn dohpath(&mut self, template: &str) -> Result<(), PushValueError>
        ensures { PushesValue self.old self.new (values.DohPath template.now) result
            (IsPushValueAnswer result (len_fault (length template.now))) }
    {
        self.push(&DohPath::from_text(self.alloc(), template)?)?;
        Ok(())
    }

    /// Adds `mandatory` (RFC 9460, section 8), two octets a key.
    ///
    /// `LongSvcParam`: there are more than 32,767 keys. Else refused as [`push`](Self::push) is. The builder is then
    /// unchanged.
    pub fn mandatory(&mut self, keys: &[SvcParamKey]) -> Result<(), PushValueError>
        ensures { PushesValue self.old self.new (values.Mandatory keys.now) result
            (IsPushValueAnswer result (len_fault (length keys.now * 2))) }
    {
        self.push(&Mandatory::from_keys(self.alloc(), keys)?)?;
        Ok(())
    }

    /// Adds `ipv4hint` (RFC 9460, section 7.3), four octets an address.
    ///
    /// `LongSvcParam`: there are more than 16,383 addresses. Else refused as [`push`](Self::push) is. The builder is
    /// then unchanged.
    pub fn ipv4hint(&mut self, addrs: &[Ipv4Addr]) -> Result<(), PushValueError>
        ensures { PushesValue self.old self.new (values.Ipv4Hint addrs.now) result
            (IsPushValueAnswer result (len_fault (length addrs.now * 4))) }
    {
        self.push(&Ipv4Hint::from_addrs(self.alloc(), addrs)?)?;
        Ok(())
    }

    /// Adds `ipv6hint` (RFC 9460, section 7.3), 16 octets an address.
    ///
    /// `LongSvcParam`: there are more than 4,095 addresses. Else refused as [`push`](Self::push) is. The builder is
    /// then unchanged.
    pub fn ipv6hint(&mut self, addrs: &[Ipv6Addr]) -> Result<(), PushValueError>
        ensures { PushesValue self.old self.new (values.Ipv6Hint addrs.now) result
            (IsPushValueAnswer result (len_fault (length addrs.now * 16))) }
    {
        self.push(&Ipv6Hint::from_addrs(self.alloc(), addrs)?)?;
        Ok(())
    }

    /// Adds `tls-supported-groups` (IANA's registry), two octets a group.
    ///
    /// `EmptyValue`: there are no groups. `LongSvcParam`: there are more than 32,767. Else refused as
    /// [`push`](Self::push) is. The builder is then unchanged.
    pub fn tls_supported_groups(&mut self, groups: &[u16]) -> Result<(), PushValueError>
        ensures { PushesValue self.old self.new (values.TlsSupportedGroups groups.now) result
            (IsPushValueAnswer result (groups_len_fault (length groups.now * 2))) }
    {
        self.push(&TlsSupportedGroups::from_keys(self.alloc(), groups)?)?;
        Ok(())
    }

    /// Adds `alpn` (RFC 9460, section 7.1), whose value is empty where there are no protocols.
    ///
    /// The first fault of the protocols in their order refuses them; a failed allocation may come before it.
    /// `InvalidProtocol`: a name has no octets or more than 255. `LongSvcParam`: with this protocol and its octet of
    /// length the value would have more than 65,535 octets. Else refused as [`push`](Self::push) is. The builder is
    /// then unchanged.
    pub fn alpn(&mut self, protocols: &[Octets]) -> Result<(), PushAlpnError>
        ensures { PushesValue self.old self.new (values.Alpn protocols.now) result
            (IsPushAlpnAnswer result (alpn_fault protocols.now)) }
    {
        self.push(&alpn_of(self.alloc(), protocols)?)?;
        Ok(())
    }
}
