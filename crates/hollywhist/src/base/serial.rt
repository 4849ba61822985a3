//! Serial numbers (RFC 1982).

pub use wire_records::Serial;
