//! Gateways as text.

ghost use Rattle.std.specs.Prelude.{◌↔◌, ◌<◌, Some, IsErrOf};
ghost use Rattle.text_spec.specs.Scanning.{Scan, Scans};
ghost use Rattle.record_spec.specs.IpseckeyTexts.{gateway_text, gateway_document, scan_gateway};
ghost use Rattle.record_spec.specs.DocumentLaws.{document-gateway};
ghost use Rattle.key_rdata.specs.GatewayView.{gateway_of};

use crate::gateway::IpseckeyGateway;
use dns_text::{Formatter, Scanner, ZonefileFmt, scan_a, scan_aaaa};
use key_registry::IpseckeyGatewayType;
use std::alloc::Global;
use std::fmt;
use text_spec::ScanError;
use wire_base::NoMemory;

impl IpseckeyGateway {
    /// The gateway of that type that the next token spells (RFC 4025, section 3.1): a dot for type 0, an address for
    /// 1 and 2, a name for 3.
    ///
    /// The scanner is unchanged after each of these errors.
    ///
    /// - `UnknownGateway`: the type is over 3, whatever tokens are left.
    /// - `EndOfEntry`: no token is left.
    /// - `WrongGateway`, `BadAddress`, `BadName`: the token is no dot, no such address or no name.
    /// - `NoMemory`: allocation failed.
    pub fn scan<S: Scanner>(
        alloc: Global,
        scanner: &mut S,
        gateway_type: IpseckeyGatewayType,
    ) -> Result<IpseckeyGateway, ScanError>
        ensures scans { Scans gateway_of (scan_gateway gateway_type)
            (S.scan scanner.old) (S.scan scanner.new) result }
        ensures unknown { IsErrOf result ScanError.UnknownGateway ↔ (3 < gateway_type) }
    {
        match u8::from(gateway_type) {
            0 => scan_dot(alloc, scanner),
            1 => Ok(Self::Ipv4(scan_a(alloc, scanner)?)),
            2 => Ok(Self::Ipv6(scan_aaaa(alloc, scanner)?)),
            3 => Ok(Self::Name(scanner.scan_name(alloc)?)),
            _ => Err(ScanError::UnknownGateway),
        }
    }
}

/// The dot that stands for no gateway.
fn scan_dot<S: Scanner>(alloc: Global, scanner: &mut S) -> Result<IpseckeyGateway, ScanError>
    ensures { Scans gateway_of (scan_gateway 0) (S.scan scanner.old) (S.scan scanner.new) result }
{
    let place = scanner.taken();
    let text = scanner.scan_octets(alloc)?;
    let outcome = match text.as_slice() {
        b"." => Ok(IpseckeyGateway::None),
        _ => Err(ScanError::WrongGateway),
    };
    scanner.rewind_unless_ok(place, outcome)
}

/// A dot where there is none, the text of an address, or a name with its final dot.
impl fmt::Display for IpseckeyGateway {
    ghost output = { λ gateway. Some (gateway_text (gateway_of gateway)) };

    fn fmt<W: fmt::Write>(&self, f: &mut fmt::Formatter<W>) -> fmt::Result {
        match self {
            Self::None => write!(f, "."),
            Self::Ipv4(address) => write!(f, "{address}"),
            Self::Ipv6(address) => write!(f, "{address}"),
            Self::Name(name) => write!(f, "{}", name.fmt_with_dot()),
        }
    }
}

/// A token: the text of the gateway.
impl ZonefileFmt for IpseckeyGateway {
    ghost document = { λ gateway. gateway_document (gateway_of gateway) };

    ghost is_document = { λ gateway. document-gateway (gateway_of gateway) };

    fn fmt_zone(&self, f: &mut Formatter) -> Result<(), NoMemory> {
        f.write_display(self)
    }
}
