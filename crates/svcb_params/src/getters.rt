//! The values of the types that have a key of their own, each read from the octets under its key. There is none where
//! the key is absent, and none where the octets are not wholly a value of the type, whatever the octets under other
//! keys are. None of these calls takes memory.

ghost use Rattle.std.specs.Prelude.{◌≡◌, is_some};
ghost use Rattle.svcb_spec.specs.Values as values;
ghost use Rattle.svcb_spec.specs.ReadingValues.{numbers, parts, protocols};
ghost use Rattle.svcb_params.specs.ParamsView.{seen_params};
ghost use Rattle.svcb_params.specs.Items.{typed_at, IsTypedAt};

use crate::params::SvcParams;
use crate::params_ref::SvcParamsRef;
use crate::value_iter::first_of;
use svcb_list::{AlpnRef, Ipv4HintRef, Ipv6HintRef, MandatoryRef, TlsSupportedGroupsRef};
use svcb_value::{DohPathRef, EchRef, NoDefaultAlpn, Ohttp, Port};

impl<'a> SvcParamsRef<'a> {
    /// The keys that a client must know (RFC 9460, section 8).
    ///
    /// None: the key is absent, or the octets under it are not wholly such a value.
    pub fn mandatory(&self) -> Option<MandatoryRef<'a>>
        ensures { IsTypedAt 0 (seen_params self.now) result
            (λ view. values.Mandatory (numbers view.slice.now)) }
    {
        first_of(*self)
    }

    /// The protocols that the server speaks (RFC 9460, section 7.1).
    ///
    /// None: the key is absent, or the octets under it are not wholly such a value.
    pub fn alpn(&self) -> Option<AlpnRef<'a>>
        ensures { IsTypedAt 1 (seen_params self.now) result
            (λ view. values.Alpn (protocols view.slice.now)) }
    {
        first_of(*self)
    }

    /// Whether the protocols of `alpn` are the only ones (RFC 9460, section 7.1.1).
    ///
    /// False: the key is absent, or octets stand under it.
    pub fn no_default_alpn(&self) -> bool
        ensures { result ≡ is_some (typed_at 2 (seen_params self.now)) }
    {
        first_of::<NoDefaultAlpn>(*self).is_some()
    }

    /// The port to use (RFC 9460, section 7.2).
    ///
    /// None: the key is absent, or the octets under it are not wholly such a value.
    pub fn port(&self) -> Option<Port>
        ensures { IsTypedAt 3 (seen_params self.now) result values.Port }
    {
        first_of(*self)
    }

    /// Addresses of IPv4 (RFC 9460, section 7.3).
    ///
    /// None: the key is absent, or the octets under it are not wholly such a value.
    pub fn ipv4hint(&self) -> Option<Ipv4HintRef<'a>>
        ensures { IsTypedAt 4 (seen_params self.now) result
            (λ view. values.Ipv4Hint (parts 4 view.slice.now)) }
    {
        first_of(*self)
    }

    /// The configuration of Encrypted ClientHello (RFC 9460, section 14.3.2).
    ///
    /// None: the key is absent, or the octets under it are not wholly such a value.
    pub fn ech(&self) -> Option<EchRef<'a>>
        ensures { IsTypedAt 5 (seen_params self.now) result (λ view. values.Ech view.slice.now) }
    {
        first_of(*self)
    }

    /// Addresses of IPv6 (RFC 9460, section 7.3).
    ///
    /// None: the key is absent, or the octets under it are not wholly such a value.
    pub fn ipv6hint(&self) -> Option<Ipv6HintRef<'a>>
        ensures { IsTypedAt 6 (seen_params self.now) result
            (λ view. values.Ipv6Hint (parts 16 view.slice.now)) }
    {
        first_of(*self)
    }

    /// The path of DNS over HTTPS (RFC 9461, section 5).
    ///
    /// None: the key is absent, or the octets under it are not wholly such a value.
    pub fn dohpath(&self) -> Option<DohPathRef<'a>>
        ensures { IsTypedAt 7 (seen_params self.now) result
            (λ view. values.DohPath view.slice.now) }
    {
        first_of(*self)
    }

    /// Whether the service is reached by Oblivious HTTP (RFC 9540, section 4).
    ///
    /// False: the key is absent, or octets stand under it.
    pub fn ohttp(&self) -> bool
        ensures { result ≡ is_some (typed_at 8 (seen_params self.now)) }
    {
        first_of::<Ohttp>(*self).is_some()
    }

    /// The groups for key exchange in TLS that the server supports (IANA's registry).
    ///
    /// None: the key is absent, or the octets under it are not wholly such a value.
    pub fn tls_supported_groups(&self) -> Option<TlsSupportedGroupsRef<'a>>
        ensures { IsTypedAt 9 (seen_params self.now) result
            (λ view. values.TlsSupportedGroups (numbers view.slice.now)) }
    {
        first_of(*self)
    }
}

impl SvcParams {
    /// The keys that a client must know (RFC 9460, section 8).
    ///
    /// None: the key is absent, or the octets under it are not wholly such a value.
    pub fn mandatory(&self) -> Option<MandatoryRef<'_>>
        ensures { IsTypedAt 0 self.now result (λ view. values.Mandatory (numbers view.slice.now)) }
    {
        self.for_slice().mandatory()
    }

    /// The protocols that the server speaks (RFC 9460, section 7.1).
    ///
    /// None: the key is absent, or the octets under it are not wholly such a value.
    pub fn alpn(&self) -> Option<AlpnRef<'_>>
        ensures { IsTypedAt 1 self.now result (λ view. values.Alpn (protocols view.slice.now)) }
    {
        self.for_slice().alpn()
    }

    /// Whether the protocols of `alpn` are the only ones (RFC 9460, section 7.1.1).
    ///
    /// False: the key is absent, or octets stand under it.
    pub fn no_default_alpn(&self) -> bool
        ensures { result ≡ is_some (typed_at 2 self.now) }
    {
        self.for_slice().no_default_alpn()
    }

    /// The port to use (RFC 9460, section 7.2).
    ///
    /// None: the key is absent, or the octets under it are not wholly such a value.
    pub fn port(&self) -> Option<Port>
        ensures { IsTypedAt 3 self.now result values.Port }
    {
        self.for_slice().port()
    }

    /// Addresses of IPv4 (RFC 9460, section 7.3).
    ///
    /// None: the key is absent, or the octets under it are not wholly such a value.
    pub fn ipv4hint(&self) -> Option<Ipv4HintRef<'_>>
        ensures { IsTypedAt 4 self.now result (λ view. values.Ipv4Hint (parts 4 view.slice.now)) }
    {
        self.for_slice().ipv4hint()
    }

    /// The configuration of Encrypted ClientHello (RFC 9460, section 14.3.2).
    ///
    /// None: the key is absent, or the octets under it are not wholly such a value.
    pub fn ech(&self) -> Option<EchRef<'_>>
        ensures { IsTypedAt 5 self.now result (λ view. values.Ech view.slice.now) }
    {
        self.for_slice().ech()
    }

    /// Addresses of IPv6 (RFC 9460, section 7.3).
    ///
    /// None: the key is absent, or the octets under it are not wholly such a value.
    pub fn ipv6hint(&self) -> Option<Ipv6HintRef<'_>>
        ensures { IsTypedAt 6 self.now result (λ view. values.Ipv6Hint (parts 16 view.slice.now)) }
    {
        self.for_slice().ipv6hint()
    }

    /// The path of DNS over HTTPS (RFC 9461, section 5).
    ///
    /// None: the key is absent, or the octets under it are not wholly such a value.
    pub fn dohpath(&self) -> Option<DohPathRef<'_>>
        ensures { IsTypedAt 7 self.now result (λ view. values.DohPath view.slice.now) }
    {
        self.for_slice().dohpath()
    }

    /// Whether the service is reached by Oblivious HTTP (RFC 9540, section 4).
    ///
    /// False: the key is absent, or octets stand under it.
    pub fn ohttp(&self) -> bool
        ensures { result ≡ is_some (typed_at 8 self.now) }
    {
        self.for_slice().ohttp()
    }

    /// The groups for key exchange in TLS that the server supports (IANA's registry).
    ///
    /// None: the key is absent, or the octets under it are not wholly such a value.
    pub fn tls_supported_groups(&self) -> Option<TlsSupportedGroupsRef<'_>>
        ensures { IsTypedAt 9 self.now result
            (λ view. values.TlsSupportedGroups (numbers view.slice.now)) }
    {
        self.for_slice().tls_supported_groups()
    }
}
