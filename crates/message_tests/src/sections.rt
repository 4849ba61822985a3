//! The questions and records of two servers' answers, as `kdig` printed them, and where their data stands.

use crate::messages::{KDIG_QUERY, KNOTD_HTTPS, NAMED_HTTPS, NAMED_NO_NAME};
use crate::names::{Labels, is_name};
use dns_message::{Message, ParsedRecord, Records};
use wire_base::ParseError;

const WWW: Labels = &[b"www", b"example", b"com"];

const WEB: Labels = &[b"web", b"example", b"com"];

const SVC: Labels = &[b"svc", b"example", b"com"];

const NS: Labels = &[b"ns", b"example", b"com"];

const NOTHING: Labels = &[b"nothing", b"example", b"com"];

const EXAMPLE: Labels = &[b"example", b"com"];

const ROOT: Labels = &[];

/// A record: the labels of its owner and whether that is compressed, its type, its class, for how long it may be kept,
/// and the place and the count of octets of its data.
type Row = (Labels, bool, u16, u16, u32, usize, usize);

/// A message, the name and the type that it asks for, and the records of its three sections.
struct Sample {
    message: &'static [u8],
    qname: Labels,
    qtype: u16,
    sections: [&'static [Row]; 3],
}

const SAMPLES: [Sample; 4] = [
    Sample {
        message: KDIG_QUERY,
        qname: WWW,
        qtype: 65,
        sections: [&[], &[], &[]],
    },
    Sample {
        message: NAMED_HTTPS,
        qname: WWW,
        qtype: 65,
        sections: [
            &[
                (WWW, true, 5, 1, 300, 45, 6),
                (WEB, true, 65, 1, 300, 63, 47),
                (WEB, true, 65, 1, 300, 122, 10),
            ],
            &[(EXAMPLE, true, 2, 1, 300, 144, 5)],
            &[
                (SVC, true, 1, 1, 300, 161, 4),
                (NS, true, 1, 1, 300, 177, 4),
                (SVC, true, 28, 1, 300, 193, 16),
                (NS, true, 28, 1, 300, 221, 16),
            ],
        ],
    },
    Sample {
        message: KNOTD_HTTPS,
        qname: WWW,
        qtype: 65,
        sections: [
            &[
                (WWW, true, 5, 1, 300, 45, 6),
                (WEB, true, 65, 1, 300, 63, 47),
                (WEB, true, 65, 1, 300, 122, 10),
            ],
            &[],
            &[
                (SVC, true, 1, 1, 300, 148, 4),
                (SVC, true, 28, 1, 300, 164, 16),
            ],
        ],
    },
    // the last is EDNS, whose class is the UDP size, and whose other fields are 0 (RFC 6891, section 6.1.2)
    Sample {
        message: NAMED_NO_NAME,
        qname: NOTHING,
        qtype: 1,
        sections: [
            &[],
            &[(EXAMPLE, true, 6, 1, 300, 49, 38)],
            &[(ROOT, false, 41, 1232, 0, 98, 0)],
        ],
    },
];

/// Whether a record is as a row says.
fn is_row(record: &ParsedRecord<'_>, row: &Row) -> bool {
    let (owner, is_compressed, rtype, class, ttl, start, rdlen) = *row;
    is_name(record.owner(), owner)
        && record.owner().is_compressed() == is_compressed
        && record.rtype().to_int() == rtype
        && record.class() == class
        && record.ttl() == ttl
        && record.start() == start
        && record.rdlen() == rdlen
}

/// Whether the records of a section are as the rows say, and no more.
fn are_rows(mut records: Records<'_>, rows: &[Row]) -> bool {
    for row in rows {
        match records.next() {
            Some(Ok(record)) if is_row(&record, row) => {}
            _ => return false,
        }
    }
    records.next().is_none()
}

/// Whether the only question of a message asks for a name and a type of the internet.
fn is_asked(message: &Message<'_>, qname: Labels, qtype: u16) -> bool {
    let mut questions = message.questions();
    let Some(Ok(question)) = questions.next() else {
        return false;
    };
    is_name(question.qname(), qname)
        && question.qtype().to_int() == qtype
        && question.qclass() == 1
        && questions.next().is_none()
}

/// Whether the sections of a message hold what the sample says, and nothing stands behind them.
fn is_sample(sample: &Sample) -> Result<bool, ParseError> {
    let message = Message::from_octets(sample.message)?;
    let [answers, authorities, additionals] = sample.sections;
    Ok(
        is_asked(&message, sample.qname, sample.qtype)
            && are_rows(message.answers()?, answers)
            && are_rows(message.authorities()?, authorities)
            && are_rows(message.additionals()?, additionals)
            && message.trailing()?.is_empty(),
    )
}

#[test]
fn sections_are_as_printed(rt: HostRuntime) {
    for sample in &SAMPLES {
        assert_eq!(rt; is_sample(sample), Ok(true), "{:?}", sample.message);
    }
}
