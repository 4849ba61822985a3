//! Record data, a type a record.

pub mod svcb;

pub use digest_rdata::{AssociationData, Cds, Sshfp, Tlsa, Zonemd};
pub use key_rdata::{Cdnskey, Ipseckey, IpseckeyGateway, Openpgpkey};
pub use rdata_union::{AllRecordData, ZoneRecordData};
pub use svcb_rdata::{Https, Svcb, SvcbRdata};
pub use wire_records::{A, Aaaa};
