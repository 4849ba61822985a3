//! Record data that ties a name to keys, digests and certificates: CDS and CDNSKEY (RFC 7344), SSHFP (RFC 4255), TLSA
//! (RFC 6698), ZONEMD (RFC 8976) and OPENPGPKEY (RFC 7929).
//!
//! Each type is [`AssociationData`] over its fixed fields, so all calls but constructors and readers stand once.
#![tactic(auto)]

mod association_data;
mod association_fields;
mod cdnskey;
mod cds;
mod comparisons;
mod field_octets;
mod last_field;
mod octets;
mod openpgpkey;
mod prefix;
mod record_form;
mod sealed;
mod sshfp;
mod tlsa;
mod zonemd;

pub use association_data::AssociationData;
pub use association_fields::AssociationFields;
pub use cdnskey::{Cdnskey, CdnskeyFields};
pub use cds::{Cds, CdsFields};
pub use field_octets::FieldOctets;
pub use last_field::EncodedOctets;
pub use openpgpkey::{Openpgpkey, OpenpgpkeyFields};
pub use prefix::prefix_cmp;
pub use record_form::RecordForm;
pub use sshfp::{Sshfp, SshfpFields};
pub use tlsa::{Tlsa, TlsaFields};
pub use zonemd::{Zonemd, ZonemdFields};
