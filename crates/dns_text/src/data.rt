//! Scans of the data of whole records, and of single fields of data.

ghost use Rattle.std.specs.Prelude.{◌≡◌, ◌<◌, ◌^◌, length, IfOk};
ghost use Rattle.text_spec.specs.Scanning.{Scan, Scans, ScansPart};
ghost use Rattle.text_spec.specs.Rows.{ipv4_address, ipv6_address, unknown_data};

use crate::scanner::Scanner;
use std::alloc::Global;
use text_spec::ScanError;
use wire_base::{Ipv4Addr, Ipv6Addr, Octets, Rtype};
use wire_records::{A, Aaaa, UnknownRecordData};

/// The data of an A record: the IPv4 address that the next token spells.
///
/// `EndOfEntry`: no token is left. `BadAddress`: the token is no such address, as [`Ipv4Addr::from_bytes`] reads it.
/// `NoMemory`: an allocation failed. The scanner is then unchanged.
pub fn scan_a<S: Scanner>(alloc: Global, scanner: &mut S) -> Result<A, ScanError>
    ensures { Scans (λ address. address) ipv4_address
        (S.scan scanner.old) (S.scan scanner.new) result }
{
    Ok(A::new(scan_ipv4(alloc, scanner)?))
}

/// The data of an AAAA record: the IPv6 address that the next token spells.
///
/// `EndOfEntry`: no token is left. `BadAddress`: the token is no such address, as [`Ipv6Addr::from_bytes`] reads it.
/// `NoMemory`: an allocation failed. The scanner is then unchanged.
pub fn scan_aaaa<S: Scanner>(alloc: Global, scanner: &mut S) -> Result<Aaaa, ScanError>
    ensures { Scans (λ address. address) ipv6_address
        (S.scan scanner.old) (S.scan scanner.new) result }
{
    Ok(Aaaa::new(scan_ipv6(alloc, scanner)?))
}

/// The data of a record of any type, behind its marker (RFC 3597, section 5): the next token is the count of octets,
/// and all tokens left, joined, are the octets in base16.
///
/// `EndOfEntry`: no token is left. `BadNumber`: the count is no number text of at most 65,535, or there are more or
/// fewer octets than that. `NoMemory`: an allocation failed. The scanner is then unchanged. `BadBase16`: what follows
/// the count is no base16 text. The scanner then stands behind the count.
pub fn scan_unknown<S: Scanner>(
    alloc: Global,
    rtype: Rtype,
    scanner: &mut S,
) -> Result<UnknownRecordData, ScanError>
    ensures octets { Scans (λ found. found.octets) unknown_data
        (S.scan scanner.old) (S.scan scanner.new) result }
    ensures rtype { IfOk result (λ found. found.rtype ≡ rtype) }
{
    let place = scanner.taken();
    let outcome = scan_counted(alloc, scanner);
    let octets = scanner.rewind_on_no_memory(place, outcome)?;
    match UnknownRecordData::new(rtype, octets) {
        Ok(data) => Ok(data),
        Err(_) => unreachable!(),
    }
}

/// The IPv4 address that the next token spells.
fn scan_ipv4<S: Scanner>(alloc: Global, scanner: &mut S) -> Result<Ipv4Addr, ScanError>
    ensures { Scans (λ address. address) ipv4_address
        (S.scan scanner.old) (S.scan scanner.new) result }
{
    let place = scanner.taken();
    let text = scanner.scan_octets(alloc)?;
    let outcome = Ipv4Addr::from_bytes(text.as_slice()).ok_or(ScanError::BadAddress);
    scanner.rewind_unless_ok(place, outcome)
}

/// The IPv6 address that the next token spells.
fn scan_ipv6<S: Scanner>(alloc: Global, scanner: &mut S) -> Result<Ipv6Addr, ScanError>
    ensures { Scans (λ address. address) ipv6_address
        (S.scan scanner.old) (S.scan scanner.new) result }
{
    let place = scanner.taken();
    let text = scanner.scan_octets(alloc)?;
    let outcome = Ipv6Addr::from_bytes(text.as_slice()).ok_or(ScanError::BadAddress);
    scanner.rewind_unless_ok(place, outcome)
}

/// A count, and that many octets in base16. Where an allocation fails, the count may be taken.
fn scan_counted<S: Scanner>(alloc: Global, scanner: &mut S) -> Result<Octets, ScanError>
    ensures octets { ScansPart (λ octets. octets) unknown_data
        (S.scan scanner.old) (S.scan scanner.new) result }
    ensures fits { IfOk result (λ octets. length octets < 2 ^ 16) }
{
    let place = scanner.taken();
    let count = scanner.scan_u16(alloc)?;
    let octets = scanner.scan_rest_base16(alloc)?;
    if octets.len() != usize::from(count) {
        scanner.go_back(place);
        return Err(ScanError::BadNumber);
    }
    Ok(octets)
}
