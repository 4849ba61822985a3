//! Values of service parameters that have no items: ports, markers, octets, and values without a type.
#![tactic(auto)]

mod doh_path;
mod ech;
mod markers;
mod opaque;
mod opaque_ref;
pub mod parameter;
mod port;
mod unknown;
mod unknown_ref;

pub use doh_path::{DohPath, DohPathRef, DohPathType};
pub use ech::{Ech, EchRef, EchType};
pub use markers::{NoDefaultAlpn, Ohttp};
pub use opaque::{OpaqueType, OpaqueValue};
pub use opaque_ref::OpaqueRef;
pub use port::Port;
pub use unknown::UnknownSvcParam;
pub use unknown_ref::UnknownSvcParamRef;
