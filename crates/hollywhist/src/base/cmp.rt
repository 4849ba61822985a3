//! The canonical order of record data (RFC 4034, section 6).

pub use wire_base::CanonicalOrd;
