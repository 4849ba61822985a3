//! How gateways are compared.

ghost use Rattle.std.specs.Prelude.{◌≡◌};
ghost use Rattle.record_spec.specs.IpseckeyComparing.{gateway_cmp};
ghost use Rattle.key_rdata.specs.GatewayView.{gateway_of};

use crate::gateway::IpseckeyGateway;
use std::cmp::Ordering;
use std::hash::{Hash, Hasher};

/// The type, and the address or, with ASCII case ignored, the name.
impl PartialEq for IpseckeyGateway {
    ghost use Rattle.std.specs.Ordering.{on};
    ghost use Rattle.std.specs.Cmp.{on_per, partial_equiv_from_equiv};
    ghost use Rattle.record_spec.specs.IpseckeyComparing.{is_same_gateway};
    ghost use Rattle.key_rdata.specs.GatewayView.{gateway_of};
    ghost use Rattle.record_spec.specs.IpseckeyOrders.{gateway_equivalence};

    ghost eq = { on gateway_of is_same_gateway };

    ghost laws = { on_per gateway_of (partial_equiv_from_equiv gateway_equivalence) };

    fn eq(&self, other: &IpseckeyGateway) -> bool {
        match (self, other) {
            (Self::None, Self::None) => true,
            (Self::Ipv4(address), Self::Ipv4(other)) => address == other,
            (Self::Ipv6(address), Self::Ipv6(other)) => address == other,
            (Self::Name(name), Self::Name(other)) => name.name_eq(other),
            _ => false,
        }
    }
}

impl Eq for IpseckeyGateway {
    ghost use Rattle.std.specs.Cmp.{on_equiv};
    ghost use Rattle.key_rdata.specs.GatewayView.{gateway_of};
    ghost use Rattle.record_spec.specs.IpseckeyOrders.{gateway_equivalence};

    ghost laws = { on_equiv gateway_of gateway_equivalence };
}

/// None exactly between gateways of different types. Else by the address, or by the name in the order of names, ASCII
/// case ignored.
impl PartialOrd for IpseckeyGateway {
    ghost use Rattle.std.specs.Ordering.{on};
    ghost use Rattle.std.specs.Cmp.{on_po};
    ghost use Rattle.record_spec.specs.IpseckeyComparing.{gateway_partial_cmp};
    ghost use Rattle.key_rdata.specs.GatewayView.{gateway_of};
    ghost use Rattle.record_spec.specs.IpseckeyOrders.{gateway_partial_order};

    ghost partial_cmp = { on gateway_of gateway_partial_cmp };

    ghost laws = { on_po gateway_of gateway_partial_order };

    fn partial_cmp(&self, other: &IpseckeyGateway) -> Option<Ordering> {
        match (self, other) {
            (Self::None, Self::None) => Some(Ordering::Equal),
            (Self::Ipv4(address), Self::Ipv4(other)) => { Some(address.cmp(other)) }
            (Self::Ipv6(address), Self::Ipv6(other)) => { Some(address.cmp(other)) }
            (Self::Name(name), Self::Name(other)) => { Some(name.name_cmp(other)) }
            _ => None,
        }
    }
}

/// The type, and the address or the name's octets in lower case.
impl Hash for IpseckeyGateway {
    ghost use Rattle.record_spec.specs.IpseckeyComparing.{gateway_hash_input, same_gateway_hash_input};
    ghost use Rattle.key_rdata.specs.GatewayView.{gateway_of};

    ghost hash_input = { λ gateway. gateway_hash_input (gateway_of gateway) };

    ghost respects_eq = { λ g h. same_gateway_hash_input (gateway_of g) (gateway_of h) };

    fn hash<H: Hasher>(&self, state: &mut H) {
        self.gateway_type().hash(state);
        match self {
            Self::None => {}
            Self::Ipv4(address) => address.hash(state),
            Self::Ipv6(address) => address.hash(state),
            Self::Name(name) => name.hash(state),
        }
    }
}

impl IpseckeyGateway {
    /// Compares gateways; by types, where these differ.
    pub(crate) fn type_first_cmp(&self, other: &IpseckeyGateway) -> Ordering
        ensures { result ≡ gateway_cmp (gateway_of self.now) (gateway_of other.now) }
    {
        match self.partial_cmp(other) {
            Some(order) => order,
            None => self.gateway_type().cmp(&other.gateway_type()),
        }
    }
}
