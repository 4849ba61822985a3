//! Keys of service parameters.

ghost use Rattle.std.specs.Prelude.{◌≡◌, ◌^◌, ◌<◌, [], ◌∷◌, Some, refl};
ghost use Rattle.std.specs.Result.{result_ok};
ghost use Rattle.registry.specs.Texts.{generic_key, spelled_key, printed_key};
ghost use Rattle.registry.specs.Keys.{parameter_keys};
ghost use Rattle.registry.specs.KeyLaws.{spelled_key-printed_key};

use crate::integer::Integer;
use crate::number::{CommentName, IanaNumber, find_mnemonic, is_same};
use std::fmt;
use std::marker::Model;
use std::str::FromStr;
use thiserror::Error;

/// The key of a service parameter (RFC 9460, section 14.3.2), a number of 16 bits. Keys are ordered by their numbers.
#[derive(Clone, Copy, Debug, PartialEq, Eq, PartialOrd, Ord, Hash)]
pub struct SvcParamKey(u16);

/// A text is no key of a service parameter: neither a mnemonic nor `key` and a number up to 65,535.
#[derive(Clone, Copy, Debug, PartialEq, Eq, Error)]
#[error("unknown key")]
pub struct FromStrError;

impl Model for SvcParamKey {
    ghost use Rattle.std.specs.Prelude.{ℕ, ◌<◌, ◌^◌};

    ghost Value = { ℕ };

    ghost view = { λ key. key.0 };

    ghost invariant = { λ key. key.0 < 2 ^ 16 };

    ghost inverse = { λ number. record { 0 = number } };
}

/// The keys that have a name (RFC 9460, section 14.3.2, and IANA's registry of Service Parameter Keys after it), and
/// the range for private use.
impl SvcParamKey {
    /// The keys that a client must know to use the record (RFC 9460, section 8).
    pub const MANDATORY: SvcParamKey = SvcParamKey(0);

    /// The protocols of the service beside the default (RFC 9460, section 7.1).
    pub const ALPN: SvcParamKey = SvcParamKey(1);

    /// The default protocol isn't spoken (RFC 9460, section 7.1).
    pub const NO_DEFAULT_ALPN: SvcParamKey = SvcParamKey(2);

    /// The port of the service (RFC 9460, section 7.2).
    pub const PORT: SvcParamKey = SvcParamKey(3);

    /// IPv4 addresses of the service (RFC 9460, section 7.3).
    pub const IPV4HINT: SvcParamKey = SvcParamKey(4);

    /// Configurations of Encrypted ClientHello (RFC 9460, section 14.3.2).
    pub const ECH: SvcParamKey = SvcParamKey(5);

    /// IPv6 addresses of the service (RFC 9460, section 7.3).
    pub const IPV6HINT: SvcParamKey = SvcParamKey(6);

    /// The path of DNS over HTTPS (RFC 9461, section 5).
    pub const DOHPATH: SvcParamKey = SvcParamKey(7);

    /// The service is reached by Oblivious HTTP (RFC 9540, section 4).
    pub const OHTTP: SvcParamKey = SvcParamKey(8);

    /// The groups for key exchange in TLS (IANA's registry).
    pub const TLS_SUPPORTED_GROUPS: SvcParamKey = SvcParamKey(9);

    /// The path of DNS over CoAP (IANA's registry).
    pub const DOCPATH: SvcParamKey = SvcParamKey(10);

    /// The service tells of its provisioning domain (IANA's registry).
    pub const PVD: SvcParamKey = SvcParamKey(11);

    /// The key `oots` of IANA's registry.
    pub const OOTS: SvcParamKey = SvcParamKey(12);

    /// The first number for private use (RFC 9460, section 14.3.2).
    pub const PRIVATE_RANGE_BEGIN: u16 = 65280;

    /// The last number for private use (RFC 9460, section 14.3.2).
    pub const PRIVATE_RANGE_END: u16 = 65534;

    /// The key that is reserved as invalid (RFC 9460, section 14.3.2). It has no mnemonic.
    pub const INVALID: SvcParamKey = SvcParamKey(65535);

    // The key that is written as `key` and its number.
    fn from_generic(text: &[u8]) -> Option<SvcParamKey>
        ensures { result ≡ generic_key text.now }
    {
        let (front, number) = text.split_at_checked(3)?;
        if !is_same(front, b"key") {
            return None;
        }
        u16::from_text(number).map(SvcParamKey::from)
    }
}

const ROWS: [(u16, &str); 13] = [
    (SvcParamKey::MANDATORY.0, "mandatory"),
    (SvcParamKey::ALPN.0, "alpn"),
    (SvcParamKey::NO_DEFAULT_ALPN.0, "no-default-alpn"),
    (SvcParamKey::PORT.0, "port"),
    (SvcParamKey::IPV4HINT.0, "ipv4hint"),
    (SvcParamKey::ECH.0, "ech"),
    (SvcParamKey::IPV6HINT.0, "ipv6hint"),
    (SvcParamKey::DOHPATH.0, "dohpath"),
    (SvcParamKey::OHTTP.0, "ohttp"),
    (SvcParamKey::TLS_SUPPORTED_GROUPS.0, "tls-supported-groups"),
    (SvcParamKey::DOCPATH.0, "docpath"),
    (SvcParamKey::PVD.0, "pvd"),
    (SvcParamKey::OOTS.0, "oots"),
];

impl IanaNumber for SvcParamKey {
    type Int = u16;

    const COMPOSE_LEN: u16 = 2;

    // comments name no keys
    const COMMENT: CommentName = CommentName("");

    ghost COMPOSE_LEN = { 2 };

    ghost COMMENT = { [] };

    ghost number = { λ key. key };

    ghost rows = { parameter_keys };

    ghost reads = { spelled_key parameter_keys };

    ghost prints = { printed_key parameter_keys };

    ghost same = { λ x y equal. equal };

    ghost len = { refl };

    ghost one_line = { refl };

    ghost table = { refl };

    ghost displays = { λ x. refl };

    ghost reads_back = { spelled_key-printed_key parameter_keys refl };

    fn rows<'a>() -> &'a [(u16, &'static str)] {
        // each constant has the number that its name stands for
        prove!(SvcParamKey::MANDATORY.0 == 0);
        prove!(SvcParamKey::ALPN.0 == 1);
        prove!(SvcParamKey::NO_DEFAULT_ALPN.0 == 2);
        prove!(SvcParamKey::PORT.0 == 3);
        prove!(SvcParamKey::IPV4HINT.0 == 4);
        prove!(SvcParamKey::ECH.0 == 5);
        prove!(SvcParamKey::IPV6HINT.0 == 6);
        prove!(SvcParamKey::DOHPATH.0 == 7);
        prove!(SvcParamKey::OHTTP.0 == 8);
        prove!(SvcParamKey::TLS_SUPPORTED_GROUPS.0 == 9);
        prove!(SvcParamKey::DOCPATH.0 == 10);
        prove!(SvcParamKey::PVD.0 == 11);
        prove!(SvcParamKey::OOTS.0 == 12);
        prove!(SvcParamKey::PRIVATE_RANGE_BEGIN == 65280);
        prove!(SvcParamKey::PRIVATE_RANGE_END == 65534);
        prove!(SvcParamKey::INVALID.0 == 65535);
        &ROWS
    }

    fn from_int(value: u16) -> SvcParamKey {
        SvcParamKey(value)
    }

    fn to_int(self) -> u16 {
        self.0
    }

    fn from_bytes(bytes: &[u8]) -> Option<SvcParamKey> {
        SvcParamKey::from_mnemonic(bytes).or_else(|| SvcParamKey::from_generic(bytes))
    }
}

/// The mnemonic, else `key` and the number (RFC 9460, section 2.1).
impl fmt::Display for SvcParamKey {
    ghost output = { λ key. Some (printed_key parameter_keys key) };

    fn fmt<W: fmt::Write>(&self, f: &mut fmt::Formatter<W>) -> fmt::Result {
        let number = self.0;
        match find_mnemonic(&ROWS, number) {
            Some(mnemonic) => write!(f, "{mnemonic}"),
            None => write!(f, "key{number}"),
        }
    }
}

/// A mnemonic in any case, else `key` in any case and a number text of at most 65,535: as `from_bytes`. Fails exactly
/// for other texts.
impl FromStr for SvcParamKey {
    type Err = FromStrError;

    ghost from_str_gives = { λ text result. result_ok result ≡ spelled_key parameter_keys text };

    fn from_str(text: &str) -> Result<SvcParamKey, FromStrError> {
        SvcParamKey::from_bytes(text.as_bytes()).ok_or(FromStrError)
    }
}

/// The key of a number.
impl From<u16> for SvcParamKey {
    ghost from_gives = { λ number key. key ≡ number };

    fn from(number: u16) -> SvcParamKey {
        SvcParamKey(number)
    }
}

/// The key's number, which is below 2^16.
impl From<SvcParamKey> for u16 {
    ghost from_gives = { λ key number. (number ≡ key) × (number < 2 ^ 16) };

    fn from(key: SvcParamKey) -> u16 {
        key.0
    }
}

/// The key's number, which is below 2^16.
impl From<&SvcParamKey> for u16 {
    ghost from_gives = { λ key number. (number ≡ key.now) × (number < 2 ^ 16) };

    fn from(key: &SvcParamKey) -> u16 {
        key.0
    }
}
