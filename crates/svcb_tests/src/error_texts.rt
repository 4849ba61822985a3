//! The texts of errors.

use crate::printed::is_printed;
use std::fmt::Display;
use std::process::Abort;
use svcb_list::BuildAlpnError;
use svcb_params::{BufError, PushAlpnError, PushError, PushValueError};
use svcb_rdata::RebuildError;
use wire_base::ParseError;

/// Asserts that a value is printed as a text.
fn shows(rt: &(impl Abort + AllocGlobal), value: &impl Display, text: &str) {
    assert!(rt; is_printed(rt.alloc(), value, text) == Ok(true), "{text}");
}

#[test]
fn values_and_parameters_say_what_is_wrong(rt: HostRuntime) {
    shows(
        &rt,
        &BuildAlpnError::InvalidProtocol,
        "invalid ALPN protocol",
    );
    shows(&rt, &BuildAlpnError::LongSvcParam, "long SVCB value");
    shows(&rt, &BuildAlpnError::ShortBuf, "short buffer");
    shows(&rt, &BuildAlpnError::NoMemory, "want of memory");
    shows(&rt, &BufError::ShortBuf, "short buffer");
    shows(&rt, &BufError::NoMemory, "want of memory");
    shows(&rt, &PushError::DuplicateKey, "duplicate key");
    shows(&rt, &PushError::ShortBuf, "short buffer");
    shows(&rt, &PushError::NoMemory, "want of memory");
}

#[test]
fn pushes_of_items_say_what_is_wrong(rt: HostRuntime) {
    shows(&rt, &PushValueError::DuplicateKey, "duplicate key");
    shows(&rt, &PushValueError::ShortBuf, "short buffer");
    shows(&rt, &PushValueError::LongSvcParam, "long SVCB value");
    shows(&rt, &PushValueError::EmptyValue, "empty SVCB value");
    shows(&rt, &PushValueError::NoMemory, "want of memory");
    shows(&rt, &PushAlpnError::DuplicateKey, "duplicate key");
    shows(&rt, &PushAlpnError::ShortBuf, "short buffer");
    shows(&rt, &PushAlpnError::LongSvcParam, "long SVCB value");
    shows(
        &rt,
        &PushAlpnError::InvalidProtocol,
        "invalid ALPN protocol",
    );
    shows(&rt, &PushAlpnError::NoMemory, "want of memory");
}

#[test]
fn rebuilding_says_what_is_wrong(rt: HostRuntime) {
    shows(
        &rt,
        &RebuildError::Parse(ParseError::ShortInput),
        "short input",
    );
    shows(&rt, &RebuildError::Parse(ParseError::Form), "form error");
    shows(&rt, &RebuildError::ShortBuf, "short buffer");
    shows(&rt, &RebuildError::LongRecordData, "long record data");
    shows(&rt, &RebuildError::NoMemory, "want of memory");
}
