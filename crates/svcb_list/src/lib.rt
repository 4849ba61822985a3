//! Values of service parameters that are lists of items: mandatory keys, protocols, addresses and groups.
#![tactic(auto)]

mod alpn;
mod alpn_builder;
mod errors;
mod fixed_item;
mod ipv4_hint;
mod ipv6_hint;
mod item_iter;
mod item_list;
mod list_text;
mod list_type;
mod mandatory;
mod parts;
mod tls_supported_groups;

pub use alpn::{Alpn, AlpnIter, AlpnRef, AlpnType};
pub use alpn_builder::AlpnBuilder;
pub use errors::BuildAlpnError;
pub use ipv4_hint::{Ipv4Hint, Ipv4HintIter, Ipv4HintRef, Ipv4HintType};
pub use ipv6_hint::{Ipv6Hint, Ipv6HintIter, Ipv6HintRef, Ipv6HintType};
pub use item_iter::ItemIter;
pub use item_list::{ItemList, ItemListRef};
pub use list_type::{ListItems, ListType};
pub use mandatory::{Mandatory, MandatoryIter, MandatoryRef, MandatoryType};
pub use tls_supported_groups::{
    TlsSupportedGroups, TlsSupportedGroupsIter, TlsSupportedGroupsRef, TlsSupportedGroupsType,
};
