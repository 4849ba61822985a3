//! The values of parameters, with their views and iterators.

pub use registry::BuildValueError;
pub use svcb_list::{
    Alpn, AlpnBuilder, AlpnIter, AlpnRef, BuildAlpnError, Ipv4Hint, Ipv4HintIter, Ipv4HintRef,
    Ipv6Hint, Ipv6HintIter, Ipv6HintRef, Mandatory, MandatoryIter, MandatoryRef,
    TlsSupportedGroups, TlsSupportedGroupsIter, TlsSupportedGroupsRef,
};
pub use svcb_text::{AllValues, AllValuesRef};
pub use svcb_value::{DohPath, DohPathRef, Ech, EchRef, NoDefaultAlpn, Ohttp, Port};
