//! SVCB and HTTPS record data, its parameters, and how parameters are added (RFC 9460).

pub mod value;

pub use registry::{
    ComposeSvcParamValue, LongSvcParam, ParseSvcParamValue, SvcParamKey, SvcParamValue,
};
pub use svcb_params::{
    BufError, PushAlpnError, PushError, PushValueError, RawIter, SvcParams, SvcParamsBuilder,
    SvcParamsError, SvcParamsOverlay, SvcParamsRef, ValueIter,
};
pub use svcb_rdata::{
    Https, HttpsVariant, RebuildError, Rebuilt, Replies, Reply, SvcVariant, Svcb, SvcbRdata,
    SvcbRef, SvcbVariant, rebuild_svcb,
};
pub use svcb_text::{ScanSvcParamValue, SvcParamValueScanIter, scan_param};
pub use svcb_value::{UnknownSvcParam, UnknownSvcParamRef};
