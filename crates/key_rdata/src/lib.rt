//! Record data that ties a name to a key: IPSECKEY (RFC 4025), CDNSKEY (RFC 7344) and OPENPGPKEY (RFC 7929).
//!
//! `Cdnskey` and `Openpgpkey` stand in `digest_rdata`, over the one type that all records of their form share.
#![tactic(auto)]

mod gateway;
mod gateway_comparisons;
mod gateway_ref;
mod gateway_texts;
mod ipseckey;
mod ipseckey_comparisons;
mod ipseckey_ref;
mod ipseckey_texts;
mod octets_order;

pub use digest_rdata::{Cdnskey, CdnskeyFields, Openpgpkey, OpenpgpkeyFields};
pub use gateway::IpseckeyGateway;
pub use ipseckey::Ipseckey;
