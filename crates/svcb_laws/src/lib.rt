//! Laws of the texts of SVCB and HTTPS data (RFC 9460, section 2.1): what is printed is scanned back, which texts spell
//! which values, and how long texts are.
//!
//! The laws stand in `specs/`, and each is proved for all arguments by a function that does nothing when it runs.
#![tactic(auto)]

pub mod data_texts;
pub mod param_texts;
pub mod text_lengths;
