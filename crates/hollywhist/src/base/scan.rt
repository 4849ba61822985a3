//! The text of a zone file entry, and what is scanned of it.

pub use dns_text::{Entry, EntryScanner, Scanner, scan_a, scan_aaaa, scan_unknown};
pub use text_spec::{ScanError, Symbol};
