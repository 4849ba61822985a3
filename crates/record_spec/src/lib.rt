//! The data of the records that tie a name to keys, digests and certificates (CDS, CDNSKEY, SSHFP, TLSA, ZONEMD,
//! OPENPGPKEY and IPSECKEY), and of records of any type: octets, texts, layouts and comparisons.
//!
//! The definitions stand in `specs/`. They speak of whole numbers and lists of octets; a text is its octets.
#![tactic(auto)]

/// How the last field of a record's data is written as text.
#[derive(Clone, Copy, Debug, PartialEq, Eq, Hash)]
pub enum Encoding {
    /// Base16 (RFC 4648, section 8).
    Base16,
    /// Base64 with padding (RFC 4648, section 4).
    Base64,
}
