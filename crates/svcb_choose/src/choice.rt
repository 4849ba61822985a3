//! What is chosen.

ghost use Rattle.std.specs.Prelude.{◌≡◌};

use std::marker::Model;
use wire_base::{Name, Octets};

/// What a client does next for an owner.
#[derive(Debug, Drop)]
pub enum Choice {
    /// Ask for the records of this name in place of the owner's (RFC 9460, section 2.4.2).
    Alias(Name),
    /// There is no service (RFC 9460, section 2.5.1).
    Unavailable,
    /// Try these in order; there may be none.
    Endpoints(Endpoints),
}

/// Where a service is reached, as one record tells.
#[derive(Debug, Drop)]
pub struct Endpoint {
    /// The place of the record among those given, from 0.
    pub index: usize,
    /// The name whose addresses are to be looked up.
    pub target: Name,
    /// The port. None: the port of the owner's scheme.
    pub port: Option<u16>,
    /// The protocols that may be spoken.
    pub protocols: Protocols,
}

/// Endpoints in the order in which they are to be tried, which contracts see as a list.
#[derive(Debug, Drop)]
pub struct Endpoints {
    items: Vec<Endpoint>,
}

impl Model for Endpoints {
    ghost use Rattle.std.specs.Prelude.{List};
    ghost use Rattle.svcb_choose.specs.declared.choice.Endpoint.{Endpoint};

    ghost Value = { List Endpoint };

    ghost view = { λ endpoints. endpoints.items.items };
}

impl Endpoints {
    /// The endpoints of a vector.
    pub(crate) fn from_vec(items: Vec<Endpoint>) -> Endpoints
        ensures { result ≡ items.items }
    {
        Endpoints { items }
    }

    /// The endpoints.
    pub fn as_slice(&self) -> &[Endpoint]
        ensures { result.now ≡ self.now }
    {
        self.items.as_slice()
    }
}

/// Names of protocols (ALPN, RFC 7301), the preferred one first, which contracts see as a list.
#[derive(Debug, Drop)]
pub struct Protocols {
    items: Vec<Octets>,
}

impl Model for Protocols {
    ghost use Rattle.std.specs.Prelude.{List, ℕ};

    ghost Value = { List (List ℕ) };

    ghost view = { λ protocols. protocols.items.items };
}

impl Protocols {
    /// The protocols of a vector.
    pub(crate) fn from_vec(items: Vec<Octets>) -> Protocols
        ensures { result ≡ items.items }
    {
        Protocols { items }
    }

    /// The protocols.
    pub fn as_slice(&self) -> &[Octets]
        ensures { result.now ≡ self.now }
    {
        self.items.as_slice()
    }
}
