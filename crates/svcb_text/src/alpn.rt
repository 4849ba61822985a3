//! Values of `alpn`, whose items may have escapes, scanned from text.

ghost use Rattle.std.specs.Prelude.{◌≡◌, ◌<◌, ◌==◌, length, IfOk};
ghost use Rattle.std.specs.List.{AllByRecursion};
ghost use Rattle.svcb_spec.specs.Values as values;
ghost use Rattle.svcb_spec.specs.BuildingValues.{IsProtocolLength};
ghost use Rattle.text_spec.specs.Scanning.{Answers};
ghost use Rattle.svcb_spec.specs.ValueTexts.{alpn_value, protocols_of, short_value};

use crate::scan_value::ScanSvcParamValue;
use crate::single_values::check_some_text;
use crate::value_faults::protocol_fault;
use crate::value_iter::SvcParamValueScanIter;
use registry::SvcParamKey;
use std::alloc::Global;
use svcb_list::{Alpn, AlpnBuilder};
use text_spec::ScanError;
use wire_base::Octets;

/// The protocols that a text lists.
pub(crate) fn scan_alpn(alloc: Global, text: &[u8]) -> Result<Alpn, ScanError>
    ensures { Answers (λ value. value) result (alpn_value text.now) }
{
    check_some_text(text)?;
    let protocols = read_protocols(alloc, text)?;
    build_alpn(alloc, &protocols)
}

/// The protocols of a text, each without its escapes.
///
/// `LongItem`: one has more than 255 octets. The other faults are those of `next_item`.
fn read_protocols(alloc: Global, text: &[u8]) -> Result<Vec<Octets>, ScanError>
    requires { 0 < length text.now }
    ensures answer { Answers (λ list. list.items) result (protocols_of text.now) }
    ensures each { IfOk result
        (λ list. AllByRecursion (λ protocol. IsProtocolLength (length protocol)) list.items) }
{
    let mut items = SvcParamValueScanIter::from_slice(text);
    let mut protocols = Vec::new(alloc);
    while let Some(protocol) = items.next_item(alloc)? {
        if protocol.len() > AlpnBuilder::MAX_PROTOCOL_LEN {
            return Err(ScanError::LongItem);
        }
        protocols.push(protocol)?;
    }
    Ok(protocols)
}

/// The value of protocols.
///
/// `LongValue`: it would have more than 65,535 octets. `NoMemory`: allocation failed.
fn build_alpn(alloc: Global, protocols: &[Octets]) -> Result<Alpn, ScanError>
    requires { AllByRecursion (λ protocol. IsProtocolLength (length protocol)) protocols.now }
    ensures { Answers (λ value. value) result (short_value (values.Alpn protocols.now)) }
{
    let mut builder = AlpnBuilder::empty(alloc);
    for protocol in protocols {
        if let Err(error) = builder.push(protocol.as_slice()) {
            return Err(protocol_fault(error));
        }
    }
    Ok(builder.freeze())
}

impl ScanSvcParamValue for Alpn {
    ghost Seen = { values.Value };

    ghost seen = { λ value. value };

    ghost takes = { λ key. key == 1 };

    ghost spelled = { λ _. alpn_value };

    fn value_from_scan_octets(
        alloc: Global,
        key: SvcParamKey,
        octs: &[u8],
    ) -> Result<Option<Alpn>, ScanError> {
        if key != SvcParamKey::ALPN {
            return Ok(None);
        }
        Ok(Some(scan_alpn(alloc, octs)?))
    }
}
