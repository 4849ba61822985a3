//! How the octets of IPSECKEY data compare with others.

ghost use Rattle.std.specs.Prelude.{◌≡◌, ◌++◌};
ghost use Rattle.std.specs.Ordering.{nat_cmp};
ghost use Rattle.std.specs.Cmp.Lexicographic.{slice_cmp};
ghost use Rattle.record_spec.specs.Ipseckeys.{gateway_wire, ipseckey_wire};
ghost use Rattle.digest_rdata.specs.Prefixes.{ComparesPrefix};
ghost use Rattle.key_rdata.specs.GatewayView.{gateway_of};

use crate::gateway::IpseckeyGateway;
use crate::ipseckey::Ipseckey;
use digest_rdata::prefix_cmp;
use std::cmp::Ordering;

impl Ipseckey {
    /// The order of the data's octets against others, as those of data of the same type that is held as octets. No
    /// memory is taken.
    pub fn octets_cmp(&self, octets: &[u8]) -> Ordering
        ensures { result ≡ slice_cmp nat_cmp (ipseckey_wire self.now) octets.now }
    {
        let numbers = [
            self.precedence(),
            u8::from(self.gateway_type()),
            u8::from(self.algorithm()),
        ];
        let (by_numbers, octets) = prefix_cmp(&numbers, octets);
        by_numbers.then(gateway_key_cmp(self.gateway(), self.key().as_slice(), octets))
    }
}

/// The order of the octets of a gateway and a key against others.
fn gateway_key_cmp(gateway: &IpseckeyGateway, key: &[u8], octets: &[u8]) -> Ordering
    ensures { result ≡ slice_cmp nat_cmp
        (gateway_wire (gateway_of gateway.now) ++ key.now) octets.now }
{
    let (by_gateway, octets) = gateway_prefix_cmp(gateway, octets);
    by_gateway.then(key.cmp(octets))
}

/// The order of the octets of a gateway against others, and what the rest of them is compared with next.
fn gateway_prefix_cmp<'a>(gateway: &IpseckeyGateway, octets: &'a [u8]) -> (Ordering, &'a [u8])
    ensures { ComparesPrefix (gateway_wire (gateway_of gateway.now)) octets.now
        result.0 result.1.now }
{
    match gateway {
        IpseckeyGateway::None => (Ordering::Equal, octets),
        IpseckeyGateway::Ipv4(address) => prefix_cmp(&address.addr().octets(), octets),
        IpseckeyGateway::Ipv6(address) => prefix_cmp(&address.addr().octets(), octets),
        IpseckeyGateway::Name(name) => prefix_cmp(name.as_slice(), octets),
    }
}
