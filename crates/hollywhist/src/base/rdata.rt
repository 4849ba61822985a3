//! Record data of any type: how it is read, composed and measured.

pub use wire_base::{ComposeRecordData, LongRecordData, ParseRecordData, RecordData};
pub use wire_records::UnknownRecordData;
