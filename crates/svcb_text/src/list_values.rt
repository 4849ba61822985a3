//! Values that are lists in which nothing may be escaped, scanned from text.

ghost use Rattle.std.specs.Prelude.{◌≡◌, ◌==◌, [], IfOk, length};
ghost use Rattle.svcb_spec.specs.Values as values;
ghost use Rattle.text_spec.specs.Scanning.{Answers};
ghost use Rattle.svcb_spec.specs.ValueTexts.{mandatory_value, ipv4hint_value, ipv6hint_value, groups_value};

use crate::item_loop::{Groups, read_list};
use crate::scan_value::ScanSvcParamValue;
use crate::value_faults::or_fault;
use registry::SvcParamKey;
use std::alloc::{AllocError, Global};
use std::collections::BTreeSet;
use svcb_list::{Ipv4Hint, Ipv6Hint, Mandatory, TlsSupportedGroups};
use text_spec::ScanError;

/// The addresses that a text lists.
pub(crate) fn scan_ipv4hint(alloc: Global, text: &[u8]) -> Result<Ipv4Hint, ScanError>
    ensures { Answers (λ value. value) result (ipv4hint_value text.now) }
{
    let addresses = read_list(Vec::new(alloc), text)?;
    or_fault(Ipv4Hint::from_addrs(alloc, &addresses))
}

/// The addresses that a text lists.
pub(crate) fn scan_ipv6hint(alloc: Global, text: &[u8]) -> Result<Ipv6Hint, ScanError>
    ensures { Answers (λ value. value) result (ipv6hint_value text.now) }
{
    let addresses = read_list(Vec::new(alloc), text)?;
    or_fault(Ipv6Hint::from_addrs(alloc, &addresses))
}

/// The groups that a text lists, in its order.
pub(crate) fn scan_groups(alloc: Global, text: &[u8]) -> Result<TlsSupportedGroups, ScanError>
    ensures { Answers (λ value. value) result (groups_value text.now) }
{
    let groups = read_list(Groups::new(alloc), text)?;
    or_fault(TlsSupportedGroups::from_keys(alloc, &groups.into_numbers()))
}

/// The keys that a text lists, in ascending order.
pub(crate) fn scan_mandatory(alloc: Global, text: &[u8]) -> Result<Mandatory, ScanError>
    ensures { Answers (λ value. value) result (mandatory_value text.now) }
{
    let numbers = read_list(BTreeSet::new(alloc), text)?;
    let keys = keys_of(alloc, &numbers)?;
    or_fault(Mandatory::from_keys(alloc, &keys))
}

/// Numbers as keys, in ascending order. Fails only with `NoMemory`.
fn keys_of(alloc: Global, numbers: &BTreeSet<u16>) -> Result<Vec<SvcParamKey>, AllocError>
    ensures { IfOk result (λ keys. keys.items ≡ numbers.now.keys) }
{
    let mut keys = Vec::new(alloc);
    for number in numbers {
        keys.push(SvcParamKey::from(*number))?;
    }
    Ok(keys)
}

impl ScanSvcParamValue for Ipv4Hint {
    ghost Seen = { values.Value };

    ghost seen = { λ value. value };

    ghost takes = { λ key. key == 4 };

    ghost spelled = { λ _. ipv4hint_value };

    fn value_from_scan_octets(
        alloc: Global,
        key: SvcParamKey,
        octs: &[u8],
    ) -> Result<Option<Ipv4Hint>, ScanError> {
        if key != SvcParamKey::IPV4HINT {
            return Ok(None);
        }
        Ok(Some(scan_ipv4hint(alloc, octs)?))
    }
}

impl ScanSvcParamValue for Ipv6Hint {
    ghost Seen = { values.Value };

    ghost seen = { λ value. value };

    ghost takes = { λ key. key == 6 };

    ghost spelled = { λ _. ipv6hint_value };

    fn value_from_scan_octets(
        alloc: Global,
        key: SvcParamKey,
        octs: &[u8],
    ) -> Result<Option<Ipv6Hint>, ScanError> {
        if key != SvcParamKey::IPV6HINT {
            return Ok(None);
        }
        Ok(Some(scan_ipv6hint(alloc, octs)?))
    }
}

impl ScanSvcParamValue for TlsSupportedGroups {
    ghost Seen = { values.Value };

    ghost seen = { λ value. value };

    ghost takes = { λ key. key == 9 };

    ghost spelled = { λ _. groups_value };

    fn value_from_scan_octets(
        alloc: Global,
        key: SvcParamKey,
        octs: &[u8],
    ) -> Result<Option<TlsSupportedGroups>, ScanError> {
        if key != SvcParamKey::TLS_SUPPORTED_GROUPS {
            return Ok(None);
        }
        Ok(Some(scan_groups(alloc, octs)?))
    }
}

impl ScanSvcParamValue for Mandatory {
    ghost Seen = { values.Value };

    ghost seen = { λ value. value };

    ghost takes = { λ key. key == 0 };

    ghost spelled = { λ _. mandatory_value };

    fn value_from_scan_octets(
        alloc: Global,
        key: SvcParamKey,
        octs: &[u8],
    ) -> Result<Option<Mandatory>, ScanError> {
        if key != SvcParamKey::MANDATORY {
            return Ok(None);
        }
        Ok(Some(scan_mandatory(alloc, octs)?))
    }
}
