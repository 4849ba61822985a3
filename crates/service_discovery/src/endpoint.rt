//! What a client takes from an HTTPS record beside the endpoint that was chosen.

ghost use Rattle.std.specs.Prelude.{◌≡◌, option_map, IfOk};
ghost use Rattle.hollywhist.specs.Values as values;
ghost use Rattle.hollywhist.specs.Items.{typed_at};

use crate::weight::Weight;
use hollywhist::base::net::Ipv4Addr;
use hollywhist::rdata::svcb::Https;
use hollywhist::rdata::svcb::value::Port;
use std::alloc::{AllocError, Global};

/// Where to connect, as a record in service mode says it.
#[derive(Debug, Drop)]
pub struct Endpoint {
    /// The port, where the record names one.
    pub port: Option<Port>,
    /// Addresses to try before those of the target are looked up (RFC 9460, section 7.3).
    pub ipv4_hints: Vec<Ipv4Addr>,
    /// The weight, a value of this example's own.
    pub weight: Option<Weight>,
}

impl Endpoint {
    /// Reads the parameters, whose values are typed. A value that its type refuses counts as absent. Fails only where
    /// allocation for the addresses does.
    pub fn new(alloc: Global, found: &Https) -> Result<Endpoint, AllocError>
        ensures { IfOk result (λ endpoint.
            option_map values.Port endpoint.port ≡ typed_at 3 found.now.pairs) }
    {
        let params = found.params();
        let mut ipv4_hints = Vec::new(alloc);
        if let Some(hint) = params.ipv4hint() {
            ipv4_hints = hint.iter().collect(alloc)?;
        }
        Ok(Endpoint {
            port: params.port(),
            ipv4_hints,
            weight: params.first::<Weight>(),
        })
    }
}
