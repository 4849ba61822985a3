//! Laws of the definitions that contracts cite: that what is composed is read back, and that what is written as text
//! is scanned back. A caller's function calls one, and its `ensures` then stands among the facts of the function's
//! proof. The calls do nothing when they run.

pub use dns_message::laws as messages;
pub use name_spec::laws as names;
pub use rdata_union::laws as any_data;
pub use record_laws::{any_type, records, text_lengths as record_text_lengths};
pub use svcb_laws::{data_texts, param_texts, text_lengths as svcb_text_lengths};
pub use svcb_params::laws as params;
pub use svcb_rdata::laws as svcb_data;
pub use svcb_spec::laws as svcb;
pub use text_spec::laws as entry_texts;
pub use zonemd_check::laws as zones;
