//! Domain names: their labels, their wire form and their text.

pub use wire_base::{DottedName, LabelIter, Name, ParsedName};
