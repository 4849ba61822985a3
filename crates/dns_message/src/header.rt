//! The header of a message.

ghost use Rattle.std.specs.Prelude.{◌≡◌, ◌+◌, ◌≤◌, length};
ghost use Rattle.name_spec.specs.Octets.{number_at};
ghost use Rattle.dns_message.specs.Headers.{header_of};

/// The count of octets of a header.
pub(crate) const HEADER_LEN: usize = 12;

/// The header of a message (RFC 1035, section 4.1.1). The fields have the names of the standard.
#[derive(Clone, Copy, Debug, PartialEq, Eq)]
pub struct Header {
    /// The number that a query and its response share.
    pub id: u16,
    /// Whether the message is a response.
    pub qr: bool,
    /// The kind of query, from 0 to 15.
    pub opcode: u8,
    /// Whether the server is an authority for the name of the question.
    pub aa: bool,
    /// Whether the message was cut off.
    pub tc: bool,
    /// Whether the client asks for recursion.
    pub rd: bool,
    /// Whether the server offers recursion.
    pub ra: bool,
    /// Whether the server holds the data for authentic (RFC 4035, section 3.2.3).
    pub ad: bool,
    /// Whether the client asks the server to check nothing (RFC 4035, section 3.2.2).
    pub cd: bool,
    /// The outcome, from 0 to 15; 0 is no error. With EDNS these are its lower four bits: the upper eight are the first
    /// octet of the TTL of the OPT record among the additional records (RFC 6891, section 6.1.3).
    pub rcode: u8,
    /// The count of questions.
    pub qdcount: u16,
    /// The count of answer records.
    pub ancount: u16,
    /// The count of authority records.
    pub nscount: u16,
    /// The count of additional records.
    pub arcount: u16,
}

/// The number in two octets of a header, the high one first.
fn number_at(octets: &[u8], pos: usize) -> u16
    requires { pos + 2 ≤ length octets.now }
    ensures { result ≡ number_at octets.now pos }
{
    u16::from_be_bytes([octets[pos], octets[pos + 1]])
}

impl Header {
    /// The header of a message.
    pub(crate) fn of(octets: &[u8]) -> Header
        requires { 12 ≤ length octets.now }
        ensures { result ≡ header_of octets.now }
    {
        let flags = number_at(octets, 2);
        Header {
            id: number_at(octets, 0),
            qr: flags >> 15 & 1 == 1,
            opcode: (flags >> 11 & 15) as u8,
            aa: flags >> 10 & 1 == 1,
            tc: flags >> 9 & 1 == 1,
            rd: flags >> 8 & 1 == 1,
            ra: flags >> 7 & 1 == 1,
            ad: flags >> 5 & 1 == 1,
            cd: flags >> 4 & 1 == 1,
            rcode: (flags & 15) as u8,
            qdcount: number_at(octets, 4),
            ancount: number_at(octets, 6),
            nscount: number_at(octets, 8),
            arcount: number_at(octets, 10),
        }
    }
}
