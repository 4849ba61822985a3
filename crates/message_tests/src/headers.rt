//! The fields of headers, as `kdig` printed them, and the least message.

use crate::messages::{
    KDIG_QUERY, KNOTD_HTTPS, KNOTD_NOTIFY, NAMED_CUT_OFF, NAMED_HTTPS, NAMED_NO_NAME,
};
use dns_message::{Header, Message};
use wire_base::ShortInput;

/// A header without a flag that counts one question.
const QUESTION: Header = Header {
    id: 0,
    qr: false,
    opcode: 0,
    aa: false,
    tc: false,
    rd: false,
    ra: false,
    ad: false,
    cd: false,
    rcode: 0,
    qdcount: 1,
    ancount: 0,
    nscount: 0,
    arcount: 0,
};

/// Messages and their headers.
const HEADERS: [(&[u8], Header); 6] = [
    (
        KDIG_QUERY,
        Header {
            id: 5787,
            rd: true,
            ad: true,
            cd: true,
            ..QUESTION
        },
    ),
    (
        NAMED_HTTPS,
        Header {
            id: 5787,
            qr: true,
            aa: true,
            rd: true,
            ra: true,
            cd: true,
            ancount: 3,
            nscount: 1,
            arcount: 4,
            ..QUESTION
        },
    ),
    (
        KNOTD_HTTPS,
        Header {
            id: 50448,
            qr: true,
            aa: true,
            ancount: 3,
            arcount: 2,
            ..QUESTION
        },
    ),
    // the outcome 3 is NXDOMAIN
    (
        NAMED_NO_NAME,
        Header {
            id: 39389,
            qr: true,
            aa: true,
            rd: true,
            ra: true,
            rcode: 3,
            nscount: 1,
            arcount: 1,
            ..QUESTION
        },
    ),
    (
        NAMED_CUT_OFF,
        Header {
            id: 31677,
            qr: true,
            aa: true,
            tc: true,
            rd: true,
            ra: true,
            ad: true,
            ..QUESTION
        },
    ),
    // the kind 4 is NOTIFY, and the outcome 9 is NOTAUTH
    (
        KNOTD_NOTIFY,
        Header {
            id: 63830,
            qr: true,
            opcode: 4,
            rcode: 9,
            ..QUESTION
        },
    ),
];

/// The header of a message.
fn header_of(octets: &[u8]) -> Result<Header, ShortInput> {
    Ok(Message::from_octets(octets)?.header())
}

#[test]
fn fields_are_as_printed(rt: HostRuntime) {
    for (octets, header) in &HEADERS {
        assert_eq!(rt; header_of(octets), Ok(*header));
    }
}

/// The two octets of the flags with one bit set, the highest first, and the header that they make (RFC 1035, section
/// 4.1.1; RFC 4035, section 3.2).
#[rattlefmt::skip]
const SINGLE_BITS: [(u8, u8, Header); 16] = [
    (0x80, 0, Header { qr: true, ..QUESTION }),
    (0x40, 0, Header { opcode: 8, ..QUESTION }),
    (0x20, 0, Header { opcode: 4, ..QUESTION }),
    (0x10, 0, Header { opcode: 2, ..QUESTION }),
    (0x08, 0, Header { opcode: 1, ..QUESTION }),
    (0x04, 0, Header { aa: true, ..QUESTION }),
    (0x02, 0, Header { tc: true, ..QUESTION }),
    (0x01, 0, Header { rd: true, ..QUESTION }),
    (0, 0x80, Header { ra: true, ..QUESTION }),
    // a bit that is kept free
    (0, 0x40, QUESTION),
    (0, 0x20, Header { ad: true, ..QUESTION }),
    (0, 0x10, Header { cd: true, ..QUESTION }),
    (0, 0x08, Header { rcode: 8, ..QUESTION }),
    (0, 0x04, Header { rcode: 4, ..QUESTION }),
    (0, 0x02, Header { rcode: 2, ..QUESTION }),
    (0, 0x01, Header { rcode: 1, ..QUESTION }),
];

#[test]
fn each_bit_is_one_field(rt: HostRuntime) {
    for (high, low, header) in &SINGLE_BITS {
        let octets = [0, 0, *high, *low, 0, 1, 0, 0, 0, 0, 0, 0];
        assert_eq!(rt; header_of(&octets), Ok(*header));
    }
}

#[test]
fn a_message_has_12_octets_at_least(rt: HostRuntime) {
    assert_eq!(rt; header_of(&[0; 11]), Err(ShortInput));
    assert_eq!(rt; header_of(b""), Err(ShortInput));
    let header = Header {
        qdcount: 0,
        ..QUESTION
    };
    assert_eq!(rt; header_of(&[0; 12]), Ok(header));
}
