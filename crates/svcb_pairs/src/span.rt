//! Where the octets of a value stand.

/// Octets that stand together in a run of octets.
#[derive(Clone, Copy, Debug)]
pub struct Span {
    /// The place of the first octet.
    pub start: usize,
    /// The count of octets.
    pub len: usize,
}
