//! All tokens left of an entry, read as service parameters.

ghost use Rattle.std.specs.Prelude.{◌≡◌, IfOk};
ghost use Rattle.text_spec.specs.Scanning.{Scan, Scans, ScansPart};
ghost use Rattle.svcb_spec.specs.ParamTexts.{params};
ghost use Rattle.svcb_pairs.specs.Parameters.{pairs_in, IsParameters};
ghost use Rattle.svcb_pairs.specs.Holding.{KeepsToken, KeepsNext};

use crate::values::{compose, has_mandatory, keep};
use dns_text::Scanner;
use std::alloc::Global;
use std::collections::BTreeMap;
use svcb_text::{AllValues, scan_param};
use text_spec::ScanError;
use wire_base::Octets;

/// The octets in wire form of the parameters that all tokens left spell, in any order; none where no token is left.
/// Each token is one parameter (RFC 9460, section 2.1), as [`scan_param`] reads it.
///
/// A token's own fault, as `scan_param` gives it, or else `DuplicateKey`, where a token before it has its key: the
/// first such token refuses, and the scanner stands before it. `MandatoryMissing`: no token has a fault, one of them is
/// a `mandatory` list, and it names a key that no token has (RFC 9460, section 8); the scanner stands at the entry's
/// end. The octets of a `key0` are no such list. `NoMemory`: allocation failed; the scanner stays.
pub fn scan_params<S: Scanner>(alloc: Global, scanner: &mut S) -> Result<Octets, ScanError>
    ensures params { Scans pairs_in params (S.scan scanner.old) (S.scan scanner.new) result }
    ensures are { IfOk result IsParameters }
{
    let place = scanner.taken();
    let outcome = scan_left(alloc, scanner);
    scanner.rewind_on_no_memory(place, outcome)
}

/// The same, but when allocation fails tokens may be taken.
fn scan_left<S: Scanner>(alloc: Global, scanner: &mut S) -> Result<Octets, ScanError>
    ensures params { ScansPart pairs_in params (S.scan scanner.old) (S.scan scanner.new) result }
    ensures are { IfOk result IsParameters }
{
    let mut values = BTreeMap::new(alloc);
    let mut len: usize = 0;
    while scanner.continues() {
        len = len.saturating_add(scan_next(alloc, scanner, &mut values)?);
    }
    if !has_mandatory(&values) {
        return Err(ScanError::MandatoryMissing);
    }
    Ok(compose(alloc, &values, len)?)
}

/// Keeps the value that the next token spells, and gives the count of its parameter's octets in wire form. Where it is
/// refused, the scanner is unchanged.
fn scan_next<S: Scanner>(
    alloc: Global,
    scanner: &mut S,
    values: &mut BTreeMap<u16, AllValues>,
) -> Result<usize, ScanError>
    ensures { KeepsNext (S.scan scanner.old) (S.scan scanner.new)
        values.old.entries values.new.entries result }
{
    let place = scanner.taken();
    let token = scanner.scan_octets(alloc)?;
    let outcome = keep_token(alloc, token.as_slice(), values);
    scanner.rewind_unless_ok(place, outcome)
}

/// Keeps the value that a token's octets spell, and gives the count of its parameter's octets in wire form.
fn keep_token(
    alloc: Global,
    token: &[u8],
    values: &mut BTreeMap<u16, AllValues>,
) -> Result<usize, ScanError>
    ensures { KeepsToken token.now values.old.entries values.new.entries result }
{
    keep(values, scan_param(alloc, token)?)
}
