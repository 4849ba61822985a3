//! What stands below service parameters (RFC 9460, section 2.2): the test whether octets are parameters, parameters
//! scanned from tokens in any order, and pairs within a limit, whose values stay in octets that were read or stand in
//! one buffer.
#![tactic(auto)]

mod errors;
mod limited_pairs;
mod pairs;
mod scan;
mod span;
mod spans;
mod values;

pub use errors::PushError;
pub use limited_pairs::LimitedPairs;
pub use pairs::check_params;
pub use scan::scan_params;
pub use span::Span;
