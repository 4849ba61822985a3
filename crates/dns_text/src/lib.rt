//! The text of one entry of a zone file: its tokens, what they mean, and how documents are laid out.
#![tactic(auto)]

mod data;
mod entry;
mod entry_scanner;
mod formatter;
mod lexemes;
mod lexer;
mod names;
mod plain_octets;
mod record_texts;
mod scanner;
mod zonefile;

pub use data::{scan_a, scan_aaaa, scan_unknown};
pub use entry::Entry;
pub use entry_scanner::EntryScanner;
pub use formatter::Formatter;
pub use names::name_from_text;
pub use scanner::Scanner;
pub use zonefile::{ZonefileFmt, display_zonefile};
