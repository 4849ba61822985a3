//! Data laid out for a zone file.

pub use dns_text::{Formatter, ZonefileFmt, display_zonefile};
pub use text_spec::DisplayKind;
