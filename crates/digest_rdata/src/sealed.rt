//! What keeps the implementations of a trait within this crate.

/// A type of this crate that may implement [`AssociationFields`](crate::AssociationFields).
pub trait Sealed {}
