//! What a client chooses from the SVCB or HTTPS records of an owner.

pub use svcb_choose::{Choice, Endpoint, Endpoints, Protocols, choose, priorities_ascend};
