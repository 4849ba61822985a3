//! Laws of the data of CDS, CDNSKEY, SSHFP, TLSA, ZONEMD, OPENPGPKEY and IPSECKEY records and of records of any type: what
//! is composed or printed is read back, and how long texts are.
//!
//! The laws stand in `specs/`, and each is proved for all arguments by a function that does nothing when it runs.
#![tactic(auto)]

pub mod any_type;
pub mod records;
pub mod text_lengths;
