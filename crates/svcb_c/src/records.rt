//! What crosses to C.

/// What was read of the data of an SVCB or HTTPS record.
#[repr(C)]
#[derive(Clone, Copy)]
pub struct SvcbRecord {
    /// The priority.
    pub priority: u16,
    /// The count of octets of the uncompressed target.
    pub target_len: u16,
    /// The count of parameters.
    pub params_count: u32,
    /// The place in the message of the first parameter.
    pub params_start: usize,
}

/// A parameter in a message.
#[repr(C)]
#[derive(Clone, Copy)]
pub struct SvcbParam {
    /// The key.
    pub key: u16,
    /// The count of octets of the value.
    pub len: u16,
    /// The place in the message of the value.
    pub start: usize,
}

/// A parameter that is to be added.
#[repr(C)]
#[derive(Clone, Copy)]
pub struct SvcbPush {
    /// The key.
    pub key: u16,
    /// The count of octets of the value.
    pub len: u16,
    /// The place of the value in the octets of all values.
    pub start: usize,
}

/// The header of a message, and where its records begin.
#[repr(C)]
#[derive(Clone, Copy)]
pub struct HwMessage {
    /// The number that a query and its response share.
    pub id: u16,
    /// The 16 bits behind it, from `qr` to `rcode`.
    pub flags: u16,
    /// The count of questions.
    pub qdcount: u16,
    /// The count of answer records.
    pub ancount: u16,
    /// The count of authority records.
    pub nscount: u16,
    /// The count of additional records.
    pub arcount: u16,
    /// The place in the message behind the questions.
    pub records_start: usize,
}

/// A record in a message.
#[repr(C)]
#[derive(Clone, Copy)]
pub struct HwRecord {
    /// The number of the type.
    pub rtype: u16,
    /// The class, which is 1 for the internet.
    pub class: u16,
    /// For how many seconds the record may be kept.
    pub ttl: u32,
    /// The count of octets of the uncompressed owner.
    pub owner_len: usize,
    /// The place in the message of the data.
    pub data_start: usize,
    /// The count of octets of the data.
    pub data_len: usize,
    /// The place in the message behind the record.
    pub next: usize,
}

/// An item of a parameter's value.
#[repr(C)]
#[derive(Clone, Copy)]
pub struct HwItem {
    /// The place in the value of the item's octets.
    pub start: usize,
    /// Their count.
    pub len: usize,
}
