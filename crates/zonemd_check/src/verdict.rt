//! Verdicts on zones.

/// Whether a zone has the digest of a ZONEMD record.
#[derive(Clone, Copy, Debug, PartialEq, Eq)]
pub enum ZonemdVerdict {
    /// It has.
    Match,
    /// It has another.
    Mismatch,
    /// The scheme is not SIMPLE (1), or the algorithm neither SHA-384 (1) nor SHA-512 (2).
    Unsupported,
}
