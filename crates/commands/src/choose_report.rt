//! The report of a choice.
ghost use Rattle.std.specs.Prelude.{◌≡◌, ◌++◌, Some, string_bytes, IfOk};
ghost use Rattle.commands.specs.ChooseReport.{port_text, protocols_text, endpoint_text, endpoint_lines, choice_report};

use std::alloc::Global;
use std::fmt;
use svcb_choose::{Choice, Endpoint};
use svcb_list::{AlpnType, ListItems};
use wire_base::{NoMemory, Octets};

/// A port, or `-` where there is none.
#[derive(Clone, Copy)]
struct PortText(Option<u16>);

impl fmt::Display for PortText {
    ghost output = { λ text. Some (port_text text.0) };

    fn fmt<W: fmt::Write>(&self, f: &mut fmt::Formatter<W>) -> fmt::Result {
        match self.0 {
            Some(port) => write!(f, "{port}"),
            None => write!(f, "-"),
        }
    }
}

/// Protocols with commas between them, or `-` where there is none.
#[derive(Clone, Copy)]
struct ProtocolsText<'a>(&'a [Octets]);

impl<'a> fmt::Display for ProtocolsText<'a> {
    ghost output = { λ text. Some (protocols_text text.0.now) };

    fn fmt<W: fmt::Write>(&self, f: &mut fmt::Formatter<W>) -> fmt::Result {
        let Some((first, others)) = self.0.split_first() else {
            return write!(f, "-");
        };
        AlpnType::write_item(first.as_slice(), f)?;
        for protocol in others {
            write!(f, ",")?;
            AlpnType::write_item(protocol.as_slice(), f)?;
        }
        Ok(())
    }
}

/// An endpoint, its place counted from 1.
#[derive(Clone, Copy)]
struct EndpointText<'a>(&'a Endpoint);

impl<'a> fmt::Display for EndpointText<'a> {
    ghost output = { λ text. Some (endpoint_text text.0.now) };

    fn fmt<W: fmt::Write>(&self, f: &mut fmt::Formatter<W>) -> fmt::Result {
        let place = self.0.index as u128 + 1;
        let target = self.0.target.fmt_with_dot();
        let port = PortText(self.0.port);
        let protocols = ProtocolsText(self.0.protocols.as_slice());
        write!(f, "endpoint {place} {target} {port} {protocols}")
    }
}

/// A line for each endpoint. Fails only with `NoMemory`.
fn endpoint_lines(alloc: Global, endpoints: &[Endpoint]) -> Result<String, NoMemory>
    ensures { IfOk result (λ report. string_bytes report ≡ endpoint_lines endpoints.now) }
{
    let mut report = String::new(alloc);
    for endpoint in endpoints {
        let text = EndpointText(endpoint);
        writeln!(report, "{text}")?;
    }
    Ok(report)
}

/// The report of a choice. Fails only with `NoMemory`.
pub fn choice_report(alloc: Global, chosen: &Choice) -> Result<String, NoMemory>
    ensures { IfOk result (λ report. string_bytes report ≡ choice_report chosen.now) }
{
    match chosen {
        Choice::Alias(target) => {
            let target = target.fmt_with_dot();
            Ok(format!(in alloc; "alias {target}\n")?)
        }
        Choice::Unavailable => Ok(String::from_str(alloc, "unavailable\n")?),
        Choice::Endpoints(endpoints) => {
            let endpoints = endpoints.as_slice();
            if endpoints.is_empty() {
                return Ok(String::from_str(alloc, "none\n")?);
            }
            endpoint_lines(alloc, endpoints)
        }
    }
}
