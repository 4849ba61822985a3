//! Runs of the program over devices in memory.
use devices::{MAX_INPUT, MemorySink, MemorySource, SureSink, SureSource};
use edit_program::run::run;
use std::alloc::AllocError;
use std::test::Fail;

/// How many octets a read gives and a write takes at most: so few that each loop turns.
const PIECE: usize = 4;

/// A command line, whose words are joined by blanks. An empty one has no words.
pub fn words(rt: &HostRuntime, line: &str) -> Result<Vec<String>, AllocError> {
    let mut words = Vec::new(rt.alloc());
    for word in line.split_whitespace() {
        words.push(String::from_str(rt.alloc(), word)?)?;
    }
    Ok(words)
}

/// How a run ended.
#[derive(Drop)]
pub struct Ended {
    pub status: u8,
    pub report: Vec<u8>,
}

/// Runs a command line on an input, where the calls of these numbers fail.
pub fn run_on(
    rt: &HostRuntime,
    line: &str,
    input: &str,
    failing_reads: &[u64],
    failing_writes: &[u64],
) -> Result<Ended, Fail> {
    let mut source = MemorySource::new(input.as_bytes(), PIECE, failing_reads);
    let mut sink = MemorySink::new(vec![in rt.alloc(); 0; 200]?, PIECE, failing_writes);
    let status = run(rt.alloc(), &words(rt, line)?, &mut source, &mut sink);
    Ok(Ended {
        status,
        report: Vec::from_slice(rt.alloc(), sink.held())?,
    })
}

/// Whether a command line ends on an input with this status, and writes these lines, the last one without its LF.
pub fn ends_with(
    rt: &HostRuntime,
    line: &str,
    input: &str,
    status: u8,
    written: &str,
) -> Result<bool, Fail> {
    let ended = run_on(rt, line, input, &[], &[])?;
    let report = format!(in rt.alloc(); "{written}\n")?;
    Ok(ended.status == status && ended.report.as_slice() == report.as_bytes())
}

/// The first input on which a command line doesn't end with this status and write its lines.
pub fn first_other<'a>(
    rt: &HostRuntime,
    line: &str,
    status: u8,
    rows: &[(&'a str, &str)],
) -> Result<Option<&'a str>, Fail> {
    for (input, written) in rows {
        if !ends_with(rt, line, input, status, written)? {
            return Ok(Some(input));
        }
    }
    Ok(None)
}

#[test]
fn rebuilds(rt: HostRuntime) -> Result<(), Fail> {
    for (input, report) in [
        // one push is accepted, one has a key that is there, and one is over the limit
        (
            "0 3 6\n000100\nraw 3 0035\nraw 3 0036\nraw 8\n",
            "accepted\nduplicate key\nshort buffer\n000100000300020035\n",
        ),
        // nothing is pushed; a compressed target is written out
        ("0 3 0\n000100\n", "000100\n"),
        ("5 4 0\n03666f6f000001c000\n", "000103666f6f00\n"),
        // keys are put in order
        (
            "0 3 100\n000100\nraw 65535 ff\nraw 0 0001\n",
            "accepted\naccepted\n000100000000020001ffff0001ff\n",
        ),
        // a push that is too long doesn't hinder the next one
        (
            "0 3 8\n000100\nraw 5 0011223344\nraw 6 aa\n",
            "short buffer\naccepted\n00010000060001aa\n",
        ),
        // the greatest limit, leading zeros, and digits in upper case
        ("0 3 2147483647\n000100\n", "000100\n"),
        (
            "0000000000 03 0000000009\n000100\nraw 0000000003 aB\n",
            "accepted\n00010000030001ab\n",
        ),
        // the last line has no LF
        ("0 3 9\n000100\nraw 3", "accepted\n00010000030000\n"),
    ] {
        let ended = run_on(&rt, "edit", input, &[], &[])?;
        assert_eq!(rt; ended.status, 0, "on {input}");
        assert_eq!(rt; ended.report.as_slice(), report.as_bytes(), "on {input}");
    }
    Ok(())
}

#[test]
fn refuses_data(rt: HostRuntime) -> Result<(), Fail> {
    for (input, report) in [
        // a pointer to itself
        ("0 4 0\n0001c002\n", "error: form error\n"),
        // a key that doesn't ascend is found before its missing length, and one that does isn't
        ("0 9 9\n000100000300000003\n", "error: form error\n"),
        ("0 9 9\n000100000300000004\n", "error: short input\n"),
        ("0 1 9\n00\n", "error: short input\n"),
        ("0 0 0\n\n", "error: short input\n"),
        // the parameters that were read exceed the limit
        (
            "0 9 5\n000100000300020035\nraw 9 00\n",
            "error: short buffer\n",
        ),
    ] {
        let ended = run_on(&rt, "edit", input, &[], &[])?;
        assert_eq!(rt; ended.status, 3, "on {input}");
        assert_eq!(rt; ended.report.as_slice(), report.as_bytes(), "on {input}");
    }
    Ok(())
}

#[test]
fn refuses_input(rt: HostRuntime) -> Result<(), Fail> {
    for (input, report) in [
        ("", "refused: bad line 1\n"),
        ("0 3\n000100\n", "refused: bad line 1\n"),
        ("0 3 4294967296\n000100\n", "refused: bad line 1\n"),
        ("0  3 9\n000100\n", "refused: bad line 1\n"),
        ("0 3 9\r\n000100\n", "refused: bad line 1\n"),
        ("0 0 0", "refused: bad line 2\n"),
        ("0 3 9\n00010\n", "refused: bad line 2\n"),
        ("0 3 9\n000100\r\n", "refused: bad line 2\n"),
        ("0 4 9\n000100\n", "refused: place outside message\n"),
        ("0 4 9\n000100\nport\n", "refused: place outside message\n"),
        ("0 3 2147483648\n000100\n", "refused: limit too large\n"),
        (
            "0 3 2147483648\n000100\nport\n",
            "refused: limit too large\n",
        ),
        ("0 3 9\n000100\nport\n", "refused: bad line 3\n"),
        ("0 3 9\n000100\nraw 3\n\nraw 4\n", "refused: bad line 4\n"),
        ("0 3 9\n000100\nraw +3 00\n", "refused: bad line 3\n"),
        ("0 3 9\n000100\nraw 00000000003\n", "refused: bad line 3\n"),
        ("0 3 9\n000100\nraw 65536\n", "refused: bad line 3\n"),
        ("0 3 9\n000100\nraw  3\n", "refused: bad line 3\n"),
        ("0 3 9\n000100\nraw 3 \n", "refused: bad line 3\n"),
        ("0 3 9\n000100\nraw 3 0\n", "refused: bad line 3\n"),
        ("0 3 9\n000100\nraw 3\r\n", "refused: bad line 3\n"),
    ] {
        let ended = run_on(&rt, "edit", input, &[], &[])?;
        assert_eq!(rt; ended.status, 2, "on {input}");
        assert_eq!(rt; ended.report.as_slice(), report.as_bytes(), "on {input}");
    }
    Ok(())
}

/// Lines that push, and what is written on them, without the last LF.
const PUSHED: [(&str, &str); 6] = [
    (
        "alpn=h2\nport=53\nport=54",
        "accepted\naccepted\nduplicate key\n00010000010003026832000300020035",
    ),
    ("key1=\\002h2", "accepted\n00010000010003026832"),
    ("\"port=53\"", "accepted\n000100000300020035"),
    ("  port=53 ; c", "accepted\n000100000300020035"),
    ("( port=53 )\r", "accepted\n000100000300020035"),
    (
        "raw 3 0035\nport=54",
        "accepted\nduplicate key\n000100000300020035",
    ),
];

/// Lines that push nothing: no entry, not one token, or one that spells no value.
const BAD_LINES: [&str; 12] = [
    "(port=53",
    "\"port=53",
    "port=53 x",
    " raw 3 00",
    "; port=53",
    "raw",
    "alpn=a\\\\b",
    "Port=1",
    "foo=1",
    "ech=YQ",
    "mandatory=mandatory",
    "tls-supported-groups=29,23,29",
];

/// Whether `edit` ends so on lines that are to push, where the root is the target and no parameters were read.
fn ends_on(rt: &HostRuntime, lines: &str, status: u8, written: &str) -> Result<bool, Fail> {
    let input = format!(in rt.alloc(); "0 3 100\n000100\n{lines}\n")?;
    ends_with(rt, "edit", input.as_str(), status, written)
}

#[test]
fn pushes_texts(rt: HostRuntime) -> Result<(), Fail> {
    for (lines, report) in &PUSHED {
        assert!(rt; ends_on(&rt, lines, 0, report)?, "on {lines}");
    }
    Ok(())
}

#[test]
fn refuses_texts(rt: HostRuntime) -> Result<(), Fail> {
    for line in &BAD_LINES {
        assert!(rt; ends_on(&rt, line, 2, "refused: bad line 3")?, "on {line}");
    }
    Ok(())
}

#[test]
fn refuses_words(rt: HostRuntime) -> Result<(), Fail> {
    for line in [
        "",
        "edit x",
        "Edit",
        "show",
        "show mx",
        "show SVCB",
        "SHOW svcb",
        "scan svcb x",
        "gen",
        "gen 0",
        "gen 8001",
        "gen 00001",
        "gen +1",
        "choose x",
        "Choose",
        "cds -",
        "CDS",
        "zonemd example.",
        "check",
    ] {
        let ended = run_on(&rt, line, "0 3 0\n000100\n", &[], &[])?;
        assert_eq!(rt; ended.status, 1, "of {line}");
        assert_eq!(rt;
            ended.report.as_slice(),
            b"refused: unknown command\n".as_slice()
        );
    }
    Ok(())
}

#[test]
fn stops_at_faults(rt: HostRuntime) -> Result<(), Fail> {
    for (line, failing_read, failing_write, report, status) in [
        ("edit", 1, 0, "", 4),
        ("edit", 3, 0, "", 4),
        ("edit", 0, 1, "", 5),
        ("edit", 0, 2, "0001", 5),
        ("", 1, 3, "refused:", 5),
    ] {
        let ended = run_on(
            &rt,
            line,
            "0 3 0\n000100\n",
            &[failing_read],
            &[failing_write],
        )?;
        assert_eq!(rt;
            ended.status,
            status,
            "read {failing_read}, write {failing_write}"
        );
        assert_eq!(rt; ended.report.as_slice(), report.as_bytes());
    }
    Ok(())
}

/// How a command ended on an input that may be long, over a sink with so many places.
pub fn run_long(rt: &HostRuntime, line: &str, input: &[u8], places: usize) -> Result<Ended, Fail> {
    let mut source = SureSource::new(input);
    let mut sink = MemorySink::new(vec![in rt.alloc(); 0; places]?, 4096, &[]);
    let status = run(rt.alloc(), &words(rt, line)?, &mut source, &mut sink);
    Ok(Ended {
        status,
        report: Vec::from_slice(rt.alloc(), sink.held())?,
    })
}

#[test]
fn limits_lengths(rt: HostRuntime) -> Result<(), Fail> {
    for (len, report) in [
        (MAX_INPUT, "refused: bad line 1\n"),
        (MAX_INPUT + 1, "refused: input too long\n"),
    ] {
        let input = vec![in rt.alloc(); b'0'; len]?;
        let ended = run_long(&rt, "edit", &input, 200)?;
        assert_eq!(rt; ended.status, 2, "of {len} octets");
        assert_eq!(rt;
            ended.report.as_slice(),
            report.as_bytes(),
            "of {len} octets"
        );
    }
    for (len, status, report) in [
        (65_535, 3, "error: long record data\n"),
        (65_536, 2, "refused: bad line 3\n"),
    ] {
        let mut input = Vec::from_slice(rt.alloc(), b"0 3 65539\n000100\nraw 3 ")?;
        input.resize(input.len() + 2 * len, b'0')?;
        let ended = run_long(&rt, "edit", &input, 200)?;
        assert_eq!(rt; ended.status, status, "of a value of {len} octets");
        assert_eq!(rt; ended.report.as_slice(), report.as_bytes(), "of {len}");
    }
    Ok(())
}

#[test]
fn runs_over_sure_devices(rt: HostRuntime) -> Result<(), Fail> {
    let words = words(&rt, "edit")?;
    let mut source = SureSource::new(b"0 3 0\n000100\n");
    assert_eq!(rt;
        run(rt.alloc(), &words, &mut source, &mut SureSink::new()),
        0
    );
    Ok(())
}
