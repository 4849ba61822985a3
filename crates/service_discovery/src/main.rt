//! A client of service discovery, as an example of the libraries: it reads the answer to an HTTPS query in hexadecimal
//! and prints where to connect, the endpoint to try first at the top.
#![tactic(auto)]

mod answer;
mod cache;
mod endpoint;
mod weight;

use answer::{asked_name, canonical_name, https_records};
use anyhow::{Context, Result, bail};
use endpoint::Endpoint;
use hollywhist::base::message::Message;
use hollywhist::base::{Octets, PrintedOctets};
use hollywhist::choosing::{self, Choice, choose, priorities_ascend};
use hollywhist::rdata::svcb::{Https, SvcParamKey};
use std::alloc::Global;
use std::io;

/// The keys that this client understands.
const UNDERSTOOD: [u16; 4] = [1, 2, 3, 4];

/// The protocol that HTTPS has by itself (RFC 9460, section 9).
const DEFAULT_PROTOCOL: &[u8] = b"http/1.1";

/// Prints an address of each hint, and what else the record says of its endpoint.
fn print_endpoint(rt: &impl Print, endpoint: &Endpoint) -> io::Result<()> {
    if let Some(port) = endpoint.port {
        println!(rt; "port {}", port.port())?;
    }
    for address in &endpoint.ipv4_hints {
        println!(rt; "address {address}")?;
    }
    if let Some(weight) = endpoint.weight {
        println!(rt; "weight {}", weight.0)?;
    }
    Ok(())
}

/// Prints an endpoint that was chosen: its target and its protocols.
fn print_chosen(rt: &impl Print, chosen: &choosing::Endpoint) -> io::Result<()> {
    println!(rt; "endpoint {}", chosen.target.fmt_with_dot())?;
    for protocol in chosen.protocols.as_slice() {
        println!(rt; "protocol {}", PrintedOctets::new(protocol.as_slice()))?;
    }
    Ok(())
}

/// The keys that this client understands.
fn understood_keys(alloc: Global) -> Result<Vec<SvcParamKey>> {
    Ok(
        UNDERSTOOD
            .iter()
            .map(|key| SvcParamKey::from(*key))
            .collect(alloc)?,
    )
}

fn main(rt: HostRuntime) -> Result<()> {
    let alloc = rt.alloc();
    let mut line = String::new(alloc);
    rt.read_line(&mut line)?;
    let octets = hex::decode(alloc, line.trim())?;
    let message = Message::from_octets(&octets).context("reading the header")?;
    let asked = asked_name(alloc, &message)?;
    let owner = canonical_name(alloc, &message, asked)?;
    let records = https_records(alloc, &message, &owner)?;
    if !priorities_ascend(&records) {
        bail!("records in disorder");
    }
    let defaults = [Octets::from_slice(alloc, DEFAULT_PROTOCOL)?];
    match choose(alloc, &owner, &records, &understood_keys(alloc)?, &defaults)? {
        Choice::Alias(target) => println!(rt; "ask for {}", target.fmt_with_dot())?,
        Choice::Unavailable => println!(rt; "no service")?,
        Choice::Endpoints(endpoints) => {
            for chosen in endpoints.as_slice() {
                print_chosen(&rt, chosen)?;
                if let Some(found) = records.get(chosen.index) {
                    print_endpoint(&rt, &Endpoint::new(alloc, found)?)?;
                }
            }
        }
    }
    Ok(())
}
