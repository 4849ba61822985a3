//! Values of every type, scanned from text.

ghost use Rattle.std.specs.Prelude.{true};
ghost use Rattle.svcb_spec.specs.Values.{Value};
ghost use Rattle.svcb_text.specs.AllValues.{value_of};
ghost use Rattle.text_spec.specs.Scanning.{Answers};
ghost use Rattle.svcb_spec.specs.ValueTexts.{value_of_text};

use crate::AllValues;
use crate::alpn::scan_alpn;
use crate::list_values::{scan_groups, scan_ipv4hint, scan_ipv6hint, scan_mandatory};
use crate::scan_value::ScanSvcParamValue;
use crate::single_values::{check_no_text, scan_dohpath, scan_ech, scan_opaque, scan_port};
use registry::SvcParamKey;
use std::alloc::Global;
use svcb_value::{NoDefaultAlpn, Ohttp};
use text_spec::ScanError;

/// The value of a key's type that a text spells; any octets under a key without a type. Fails with the first fault of
/// the text, or with `NoMemory`.
pub(crate) fn scan_value(
    alloc: Global,
    key: SvcParamKey,
    text: &[u8],
) -> Result<AllValues, ScanError>
    ensures { Answers value_of result (value_of_text key text.now) }
{
    match key {
        SvcParamKey::MANDATORY => Ok(AllValues::Mandatory(scan_mandatory(alloc, text)?)),
        SvcParamKey::ALPN => Ok(AllValues::Alpn(scan_alpn(alloc, text)?)),
        SvcParamKey::NO_DEFAULT_ALPN => {
            check_no_text(text)?;
            Ok(AllValues::NoDefaultAlpn(NoDefaultAlpn))
        }
        SvcParamKey::PORT => Ok(AllValues::Port(scan_port(text)?)),
        SvcParamKey::IPV4HINT => Ok(AllValues::Ipv4Hint(scan_ipv4hint(alloc, text)?)),
        SvcParamKey::ECH => Ok(AllValues::Ech(scan_ech(alloc, text)?)),
        SvcParamKey::IPV6HINT => Ok(AllValues::Ipv6Hint(scan_ipv6hint(alloc, text)?)),
        SvcParamKey::DOHPATH => Ok(AllValues::DohPath(scan_dohpath(alloc, text)?)),
        SvcParamKey::OHTTP => {
            check_no_text(text)?;
            Ok(AllValues::Ohttp(Ohttp))
        }
        SvcParamKey::TLS_SUPPORTED_GROUPS => {
            Ok(AllValues::TlsSupportedGroups(scan_groups(alloc, text)?))
        }
        _ => Ok(AllValues::Unknown(scan_opaque(alloc, key, text)?)),
    }
}

/// Every key is taken. The text under the key of a type must spell a value of that type; under another key it is the
/// value's octets.
impl ScanSvcParamValue for AllValues {
    ghost Seen = { Value };

    ghost seen = { value_of };

    ghost takes = { λ _. true };

    ghost spelled = { value_of_text };

    fn value_from_scan_octets(
        alloc: Global,
        key: SvcParamKey,
        octs: &[u8],
    ) -> Result<Option<AllValues>, ScanError> {
        Ok(Some(scan_value(alloc, key, octs)?))
    }
}
