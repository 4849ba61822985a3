//! Messages: their header, questions and records.

pub use dns_message::{
    AliasError, Entries, FoundRecords, Header, Message, ParseEntry, ParsedRecord, Question,
    Questions, Records,
};
