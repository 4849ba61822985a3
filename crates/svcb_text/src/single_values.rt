//! Values that are no lists, scanned from text: markers, ports, octets and values without a type.

ghost use Rattle.std.specs.Prelude.{◌≡◌, ◌==◌, true, length};
ghost use Rattle.svcb_spec.specs.Values as values;
ghost use Rattle.text_spec.specs.Scanning.{Answers};
ghost use Rattle.svcb_text.specs.Items.{let_through};
ghost use Rattle.svcb_spec.specs.ValueTexts.{some_text, no_text, utf8_text, port_value, ech_value, dohpath_value, opaque_value};

use crate::scan_value::ScanSvcParamValue;
use crate::value_faults::{check_value_len, or_fault};
use registry::{Integer, SvcParamKey};
use std::alloc::Global;
use std::str;
use svcb_value::{DohPath, Ech, NoDefaultAlpn, Ohttp, Port, UnknownSvcParam};
use text_spec::{ScanError, decode_base64};
use wire_base::Octets;

/// Tests a text that is to have octets. `MissingValue`: it has none.
pub(crate) fn check_some_text(text: &[u8]) -> Result<(), ScanError>
    ensures { let_through text.now result ≡ some_text text.now }
{
    if text.is_empty() {
        return Err(ScanError::MissingValue);
    }
    Ok(())
}

/// Tests a text that is to have no octets. `UnexpectedValue`: it has some.
pub(crate) fn check_no_text(text: &[u8]) -> Result<(), ScanError>
    ensures { (value : values.Value) → let_through value result ≡ no_text value text.now }
{
    if !text.is_empty() {
        return Err(ScanError::UnexpectedValue);
    }
    Ok(())
}

/// The port that a number text spells.
pub(crate) fn scan_port(text: &[u8]) -> Result<Port, ScanError>
    ensures { Answers values.Port result (port_value text.now) }
{
    check_some_text(text)?;
    let port = u16::from_text(text).ok_or(ScanError::BadPort)?;
    Ok(Port::new(port))
}

/// The octets that a base64 text spells.
pub(crate) fn scan_ech(alloc: Global, text: &[u8]) -> Result<Ech, ScanError>
    ensures { Answers (λ value. value) result (ech_value text.now) }
{
    check_some_text(text)?;
    let octets = decode_base64(alloc, text)?;
    match Ech::from_octets(octets) {
        Ok(value) => Ok(value),
        Err(_) => Err(ScanError::LongValue),
    }
}

/// The octets of a text that is UTF-8.
pub(crate) fn scan_dohpath(alloc: Global, text: &[u8]) -> Result<DohPath, ScanError>
    ensures { Answers (λ value. value) result (dohpath_value text.now) }
{
    let Ok(template) = str::from_utf8(text) else {
        return Err(ScanError::BadUtf8);
    };
    or_fault(DohPath::from_text(alloc, template))
}

/// The octets of a text, whatever they are.
pub(crate) fn scan_opaque(
    alloc: Global,
    key: SvcParamKey,
    text: &[u8],
) -> Result<UnknownSvcParam, ScanError>
    ensures { Answers (λ value. value) result (opaque_value key text.now) }
{
    check_value_len(text.len())?;
    let octets = Octets::from_slice(alloc, text)?;
    match UnknownSvcParam::new(key, octets) {
        Ok(value) => Ok(value),
        Err(_) => Err(ScanError::LongValue),
    }
}

impl ScanSvcParamValue for NoDefaultAlpn {
    ghost Seen = { values.Value };

    ghost seen = { λ _. values.NoDefaultAlpn };

    ghost takes = { λ key. key == 2 };

    ghost spelled = { λ _. no_text values.NoDefaultAlpn };

    fn value_from_scan_octets(
        _alloc: Global,
        key: SvcParamKey,
        octs: &[u8],
    ) -> Result<Option<NoDefaultAlpn>, ScanError> {
        if key != SvcParamKey::NO_DEFAULT_ALPN {
            return Ok(None);
        }
        check_no_text(octs)?;
        Ok(Some(NoDefaultAlpn))
    }
}

impl ScanSvcParamValue for Ohttp {
    ghost Seen = { values.Value };

    ghost seen = { λ _. values.Ohttp };

    ghost takes = { λ key. key == 8 };

    ghost spelled = { λ _. no_text values.Ohttp };

    fn value_from_scan_octets(
        _alloc: Global,
        key: SvcParamKey,
        octs: &[u8],
    ) -> Result<Option<Ohttp>, ScanError> {
        if key != SvcParamKey::OHTTP {
            return Ok(None);
        }
        check_no_text(octs)?;
        Ok(Some(Ohttp))
    }
}

impl ScanSvcParamValue for Port {
    ghost Seen = { values.Value };

    ghost seen = { values.Port };

    ghost takes = { λ key. key == 3 };

    ghost spelled = { λ _. port_value };

    fn value_from_scan_octets(
        _alloc: Global,
        key: SvcParamKey,
        octs: &[u8],
    ) -> Result<Option<Port>, ScanError> {
        if key != SvcParamKey::PORT {
            return Ok(None);
        }
        Ok(Some(scan_port(octs)?))
    }
}

impl ScanSvcParamValue for Ech {
    ghost Seen = { values.Value };

    ghost seen = { λ value. value };

    ghost takes = { λ key. key == 5 };

    ghost spelled = { λ _. ech_value };

    fn value_from_scan_octets(
        alloc: Global,
        key: SvcParamKey,
        octs: &[u8],
    ) -> Result<Option<Ech>, ScanError> {
        if key != SvcParamKey::ECH {
            return Ok(None);
        }
        Ok(Some(scan_ech(alloc, octs)?))
    }
}

impl ScanSvcParamValue for DohPath {
    ghost Seen = { values.Value };

    ghost seen = { λ value. value };

    ghost takes = { λ key. key == 7 };

    ghost spelled = { λ _. dohpath_value };

    fn value_from_scan_octets(
        alloc: Global,
        key: SvcParamKey,
        octs: &[u8],
    ) -> Result<Option<DohPath>, ScanError> {
        if key != SvcParamKey::DOHPATH {
            return Ok(None);
        }
        Ok(Some(scan_dohpath(alloc, octs)?))
    }
}

/// Every key is taken. The value is the octets of the text.
impl ScanSvcParamValue for UnknownSvcParam {
    ghost Seen = { values.Value };

    ghost seen = { λ value. value };

    ghost takes = { λ _. true };

    ghost spelled = { opaque_value };

    fn value_from_scan_octets(
        alloc: Global,
        key: SvcParamKey,
        octs: &[u8],
    ) -> Result<Option<UnknownSvcParam>, ScanError> {
        Ok(Some(scan_opaque(alloc, key, octs)?))
    }
}
