//! Record data that binds services and keys to names: SVCB and HTTPS (RFC 9460) with their parameters, and IPSECKEY,
//! SSHFP, TLSA, CDS, CDNSKEY, OPENPGPKEY and ZONEMD. Octets of a message or the text of a zone file entry come in;
//! typed data, octets, text and comparisons go out. Each call is proved to answer what its contract says.
//!
//! This crate re-exports the public types and calls of the crates below it, under the paths that the Rust library
//! `domain` has for them, the laws of their definitions ([`laws`]), and the definitions that most contracts cite. A
//! crate that calls them lists this one, and those below it whose other definitions its own contracts cite.
//!
//! To read the data of an HTTPS record where it stands in a message, and its port:
//!
//! ```
//! use crate::base::wire::{ParseError, Parser};
//! use crate::rdata::svcb::{HttpsVariant, SvcbRef};
//!
//! fn port(octets: &[u8]) -> Result<Option<u16>, ParseError> {
//!     let mut parser = Parser::from_ref(octets);
//!     let record = SvcbRef::<HttpsVariant>::parse(&mut parser)?;
//!     let params = record.params();
//!     Ok(params.port().map(|port| port.port()))
//! }
//! ```
//!
//! To read the data of a record from the text of a zone file entry:
//!
//! ```
//! use crate::base::scan::{Entry, EntryScanner, ScanError, Scanner};
//! use crate::rdata::svcb::Https;
//! use std::alloc::Global;
//!
//! fn data(alloc: Global, text: &[u8]) -> Result<Https, ScanError> {
//!     let mut scanner = EntryScanner::new(Entry::from_text(text)?);
//!     let data = Https::scan(alloc, &mut scanner)?;
//!     scanner.check_end()?;
//!     Ok(data)
//! }
//! ```
#![tactic(auto)]

pub mod base;
pub mod checks;
pub mod choosing;
pub mod laws;
pub mod rdata;
