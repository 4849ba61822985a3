//! Internet addresses.

ghost use Rattle.std.specs.Prelude.{◌≡◌, Some, length};
ghost use Rattle.name_spec.specs.Addresses.{ipv4_of, ipv6_of, ipv4_text, ipv6_text};

use std::marker::Model;
use std::{fmt, net};

/// An address of so many octets, seen as these octets, the first one first. Addresses are ordered octet by octet.
#[derive(Clone, Copy, Debug, PartialEq, Eq, PartialOrd, Ord, Hash)]
pub struct Address<const N: usize>([u8; N]);

/// An IPv4 address (RFC 791, section 3.2), of four octets.
pub type Ipv4Addr = Address<4>;

/// An IPv6 address (RFC 4291, section 2), of 16 octets.
pub type Ipv6Addr = Address<16>;

impl<const N: usize> Model for Address<N> {
    ghost use Rattle.std.specs.Prelude.{◌≡◌, List, ℕ, length};

    ghost Value = { List ℕ };

    ghost view = { λ address. address.0 };

    ghost invariant = { λ address. length address.0 ≡ N };

    ghost inverse = { λ octets. record { 0 = octets } };
}

impl<const N: usize> Address<N> {
    /// The address of these octets.
    pub fn new(octets: [u8; N]) -> Address<N>
        ensures { result ≡ octets.entry }
    {
        Address(octets)
    }

    /// The octets.
    pub fn octets(self) -> [u8; N]
        ensures octets { result ≡ self.entry }
        ensures len { length result ≡ N }
    {
        self.0
    }
}

impl<const N: usize> From<[u8; N]> for Address<N> {
    ghost from_gives = { λ octets address. address ≡ octets };

    fn from(octets: [u8; N]) -> Address<N> {
        Address(octets)
    }
}

impl Ipv4Addr {
    /// The address that a text spells: four decimal numbers of at most 255 with dots between them, none with a leading
    /// zero, as `192.0.2.1`. None exactly for other texts.
    pub fn from_bytes(text: &[u8]) -> Option<Ipv4Addr>
        ensures { result ≡ ipv4_of text.now }
    {
        match net::Ipv4Addr::parse_ascii(text) {
            Ok(address) => Some(Address(address.octets())),
            Err(_) => None,
        }
    }
}

/// Four decimal numbers with dots between them, as `192.0.2.1`.
impl fmt::Display for Ipv4Addr {
    ghost output = { λ address. Some (ipv4_text address) };

    fn fmt<W: fmt::Write>(&self, f: &mut fmt::Formatter<W>) -> fmt::Result {
        let address = net::Ipv4Addr::from_octets(self.0);
        write!(f, "{address}")
    }
}

impl Ipv6Addr {
    /// The address that a text spells (RFC 4291, section 2.2): eight groups of one to four hexadecimal digits with
    /// colons between them, as `2001:db8:0:0:0:0:0:1`. `::` may stand once for one group of zeros or more, as
    /// `2001:db8::1`, and the last two groups may be an IPv4 text, as `::ffff:192.0.2.1`. None exactly for other texts.
    pub fn from_bytes(text: &[u8]) -> Option<Ipv6Addr>
        ensures { result ≡ ipv6_of text.now }
    {
        match net::Ipv6Addr::parse_ascii(text) {
            Ok(address) => Some(Address(address.octets())),
            Err(_) => None,
        }
    }
}

/// The text of RFC 5952, section 4: groups in lower case with no leading zeros, and `::` for the first of the longest
/// runs of two groups of zeros or more, as `2001:db8::1`. An IPv4-mapped address ends in an IPv4 text (section 5), as
/// `::ffff:192.0.2.1`.
impl fmt::Display for Ipv6Addr {
    ghost output = { λ address. Some (ipv6_text address) };

    fn fmt<W: fmt::Write>(&self, f: &mut fmt::Formatter<W>) -> fmt::Result {
        let address = net::Ipv6Addr::from_octets(self.0);
        write!(f, "{address}")
    }
}
