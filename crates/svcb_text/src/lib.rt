//! Values of service parameters of every type, and the texts of values and of one parameter (RFC 9460, section 2.1),
//! printed and scanned.
#![tactic(auto)]

mod all_values;
mod all_values_ref;
mod all_values_scan;
mod alpn;
mod conversions;
mod item_loop;
mod item_texts;
mod list_values;
mod param;
mod scan_value;
mod single_values;
mod value_faults;
mod value_iter;
mod whole_value;

pub use all_values::AllValues;
pub use all_values_ref::AllValuesRef;
pub use param::scan_param;
pub use scan_value::ScanSvcParamValue;
pub use value_iter::SvcParamValueScanIter;
pub use whole_value::parse_wholly;
