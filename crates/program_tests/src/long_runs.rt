//! Runs of the program on long inputs.
ghost use Rattle.std.specs.Prelude.{◌<◌};

use crate::runs::{Ended, run_long, words};
use devices::{MAX_INPUT, SureSink, SureSource};
use edit_program::run::run;
use std::alloc::AllocError;
use std::fmt::Write;
use std::test::Fail;

/// Whether `scan` ends so on an entry of so many octets, most of which are blanks.
fn scans_blanks(rt: &HostRuntime, len: usize, status: u8, report: &str) -> Result<bool, Fail> {
    let mut entry = Vec::from_slice(rt.alloc(), b"1 .")?;
    entry.resize(len.saturating_sub(7), b' ')?;
    entry.extend_from_slice(b"port=53")?;
    let ended = run_long(rt, "scan svcb", &entry, 200)?;
    Ok(entry.len() == len && ended.status == status && ended.report.as_slice() == report.as_bytes())
}

#[test]
fn scans_long_entries(rt: HostRuntime) -> Result<(), Fail> {
    for (len, status, report) in [
        (MAX_INPUT, 0, "000100000300020035\n"),
        (MAX_INPUT + 1, 2, "refused: input too long\n"),
    ] {
        assert!(rt; scans_blanks(&rt, len, status, report)?, "of {len} octets");
    }
    Ok(())
}

/// The types whose data can have 65,535 octets, the first octets of such data in hexadecimal, behind which zeros
/// follow, and how many octets the line of its text has.
const LONGEST: [(&str, &str, usize); 10] = [
    // `0 0 ( `, two digits an octet, ` )` and LF
    ("sshfp", "", 6 + 2 * 65_533 + 3),
    ("tlsa", "", 8 + 2 * 65_532 + 3),
    ("cds", "", 6 + 2 * 65_531 + 1),
    ("zonemd", "", 8 + 2 * 65_529 + 3),
    // four digits of base64 for three octets
    ("cdnskey", "", 6 + 87_376 + 1),
    ("openpgpkey", "", 2 + 87_380 + 3),
    ("ipseckey", "", 10 + 87_376 + 3),
    // `1 . key1=`, and four octets for each of the value's
    ("svcb", "0001000001fff8", 9 + 4 * 65_528 + 1),
    ("https", "0001000001fff8", 9 + 4 * 65_528 + 1),
    // `\# 65535 `
    ("type999", "", 9 + 2 * 65_535 + 1),
];

/// The line of data of so many octets, most of which are zeros.
fn data_line(rt: &HostRuntime, front: &str, len: usize) -> Result<Vec<u8>, AllocError>
    requires { len < 100000 }
{
    let mut line = Vec::from_slice(rt.alloc(), front.as_bytes())?;
    line.resize(2 * len, b'0')?;
    line.push(b'\n')?;
    Ok(line)
}

/// Runs a command with the word of a type.
fn run_typed(
    rt: &HostRuntime,
    command: &str,
    word: &str,
    input: &[u8],
    places: usize,
) -> Result<Ended, Fail> {
    let line = format!(in rt.alloc(); "{command} {word}")?;
    run_long(rt, line.as_str(), input, places)
}

/// Whether data of 65,535 octets is shown in a line of so many, and this is scanned as the same data.
fn is_longest_scanned_back(
    rt: &HostRuntime,
    word: &str,
    front: &str,
    line_len: usize,
) -> Result<bool, Fail> {
    let data = data_line(rt, front, 65_535)?;
    let shown = run_typed(rt, "show", word, &data, 300_000)?;
    let back = run_typed(rt, "scan", word, &shown.report, 200_000)?;
    Ok(
        shown.status == 0
            && shown.report.len() == line_len
            && back.status == 0
            && back.report.as_slice() == data.as_slice(),
    )
}

#[test]
fn the_longest_data_is_scanned_back(rt: HostRuntime) -> Result<(), Fail> {
    for (word, front, line_len) in &LONGEST {
        assert!(rt;
            is_longest_scanned_back(&rt, word, front, *line_len)?,
            "of {word}"
        );
    }
    Ok(())
}

/// Whether data of one octet more is refused.
fn is_longer_refused(rt: &HostRuntime, word: &str, front: &str) -> Result<bool, Fail> {
    let data = data_line(rt, front, 65_536)?;
    let shown = run_typed(rt, "show", word, &data, 200)?;
    Ok(shown.status == 3 && shown.report.as_slice() == b"error: form error\n".as_slice())
}

#[test]
fn longer_data_is_not_shown(rt: HostRuntime) -> Result<(), Fail> {
    for (word, front, _) in &LONGEST {
        assert!(rt; is_longer_refused(&rt, word, front)?, "of {word}");
    }
    Ok(())
}

/// Texts of too many octets: the word of the type, the text but for so many letters `A` within it, of base16, base64 or
/// a value, and the fault.
const TOO_LONG: [(&str, &str, usize, &str, &str); 12] = [
    // data of 65,536 octets
    ("sshfp", "0 0 ", 2 * 65_534, "", "long record data"),
    ("tlsa", "0 0 0 ", 2 * 65_533, "", "long record data"),
    ("cds", "0 0 0 ", 2 * 65_532, "", "long record data"),
    ("zonemd", "0 0 0 ", 2 * 65_530, "", "long record data"),
    ("cdnskey", "0 0 0 ", 87_376, "", "long record data"),
    ("openpgpkey", "", 87_380, "AA==", "long record data"),
    ("ipseckey", "0 0 0 . ", 87_376, "AA==", "long record data"),
    ("svcb", "1 . key1=", 65_529, "", "long record data"),
    ("https", "1 . key1=", 65_529, "", "long record data"),
    ("type999", "\\# 65536 ", 2 * 65_536, "", "bad number"),
    // a value of 65,536 octets, and one protocol of 256
    ("svcb", "1 . key1=", 65_536, "", "long value"),
    ("svcb", "1 . alpn=", 256, "", "long item"),
];

/// Whether `scan` refuses a text with this fault.
fn is_text_refused(
    rt: &HostRuntime,
    word: &str,
    text: (&str, usize, &str),
    fault: &str,
) -> Result<bool, Fail> {
    let (front, letters, behind) = text;
    let mut entry = Vec::from_slice(rt.alloc(), front.as_bytes())?;
    entry.resize(entry.len().saturating_add(letters), b'A')?;
    entry.extend_from_slice(behind.as_bytes())?;
    let ended = run_typed(rt, "scan", word, &entry, 200)?;
    let report = format!(in rt.alloc(); "error: {fault}\n")?;
    Ok(ended.status == 3 && ended.report.as_slice() == report.as_bytes())
}

#[test]
fn longer_data_is_not_scanned(rt: HostRuntime) -> Result<(), Fail> {
    for (word, front, letters, behind, fault) in &TOO_LONG {
        let text = (*front, *letters, *behind);
        assert!(rt; is_text_refused(&rt, word, text, fault)?, "of {word}");
    }
    Ok(())
}

/// Targets of labels of so many letters, and whether they are names: a label has 63 octets at most, and a name 255 with
/// its lengths and the root.
const TARGETS: [(&[usize], bool); 4] = [
    (&[63], true),
    (&[64], false),
    (&[63, 63, 63, 61], true),
    (&[63, 63, 63, 62], false),
];

/// The octets of data in hexadecimal with a target of these labels, and its text.
fn target_lines(rt: &HostRuntime, labels: &[usize]) -> Result<(Vec<u8>, String), AllocError> {
    let mut data = String::from_str(rt.alloc(), "0001")?;
    let mut text = String::from_str(rt.alloc(), "1 ")?;
    for len in labels {
        write!(data, "{len:02x}")?;
        for _ in 0..*len {
            data.push_str("61")?;
            text.push('a')?;
        }
        text.push('.')?;
    }
    data.push_str("00\n")?;
    Ok((Vec::from_slice(rt.alloc(), data.as_bytes())?, text))
}

/// Whether `scan` gives the data of a target of these labels, or says that it is no name.
fn is_target_scanned(rt: &HostRuntime, labels: &[usize], is_name: bool) -> Result<bool, Fail> {
    let (data, text) = target_lines(rt, labels)?;
    let ended = run_long(rt, "scan svcb", text.as_bytes(), 1000)?;
    if is_name {
        return Ok(ended.status == 0 && ended.report.as_slice() == data.as_slice());
    }
    Ok(ended.status == 3 && ended.report.as_slice() == b"error: bad name\n".as_slice())
}

#[test]
fn scans_the_longest_targets(rt: HostRuntime) -> Result<(), Fail> {
    for (labels, is_name) in &TARGETS {
        assert!(rt; is_target_scanned(&rt, labels, *is_name)?, "of {is_name}");
    }
    Ok(())
}

/// An input of `edit` with so many lines that push `ohttp`.
fn many_pushes(rt: &HostRuntime, count: u32) -> Result<Vec<u8>, AllocError> {
    let mut input = Vec::from_slice(rt.alloc(), b"0 3 100\n000100\n")?;
    for _ in 0..count {
        input.extend_from_slice(b"ohttp\n")?;
    }
    Ok(input)
}

#[test]
fn pushes_many_lines(rt: HostRuntime) -> Result<(), Fail> {
    // with one line more the input would be too long
    let input = many_pushes(&rt, 2_796_200)?;
    assert!(rt; input.len() <= MAX_INPUT && input.len() + 6 > MAX_INPUT);
    let mut source = SureSource::new(&input);
    let edit = words(&rt, "edit")?;
    let status = run(rt.alloc(), &edit, &mut source, &mut SureSink::new());
    assert!(rt; status == 0);
    Ok(())
}

/// Adds parameter `i` of the data of `gen`, in hexadecimal.
fn push_param(input: &mut String, i: u16) -> Result<(), AllocError>
    requires { i < 8000 }
{
    write!(input, "{:04x}0002{:04x}", 100 + 8 * i, i)
}

/// The lines of `edit` for the data that `gen 8000` makes, and its limit.
fn own_data(rt: &HostRuntime) -> Result<String, AllocError> {
    let mut input = String::from_str(rt.alloc(), "0 48003 65532\n000100")?;
    for i in 0..8000 {
        push_param(&mut input, i)?;
    }
    input.push('\n')?;
    Ok(input)
}

/// Adds the line of push `j` of `gen`, twice where `j` is divisible by 4.
fn push_line(input: &mut String, j: u16) -> Result<(), AllocError>
    requires { j < 2000 }
{
    writeln!(input, "raw {} {:04x}", 101 + 8 * j, j)?;
    if j % 4 == 0 {
        writeln!(input, "raw {} {:04x}", 101 + 8 * j, j)?;
    }
    Ok(())
}

/// The input of `edit` for what `gen 8000` does.
fn own_input(rt: &HostRuntime) -> Result<String, AllocError> {
    let mut input = own_data(rt)?;
    for below in 0..2000 {
        push_line(&mut input, 1999 - below)?;
    }
    Ok(input)
}

/// The sum of octets that are written in hexadecimal.
fn sum_of(rt: &HostRuntime, digits: &[u8]) -> Result<u32, Fail> {
    let mut sum = 0_u32;
    for octet in &hex::decode(rt.alloc(), digits)? {
        sum = sum.saturating_add(u32::from(*octet));
    }
    Ok(sum)
}

/// How many lines accept a push, and how many refuse it as a duplicate.
fn count_replies(lines: &str) -> (u32, u32) {
    let mut accepted = 0_u32;
    let mut duplicate = 0_u32;
    for line in lines.lines() {
        match line {
            "accepted" => accepted = accepted.saturating_add(1),
            "duplicate key" => duplicate = duplicate.saturating_add(1),
            _ => {}
        }
    }
    (accepted, duplicate)
}

/// Whether `edit` does on its input what `gen 8000` does by itself.
fn edits_own_data(rt: &HostRuntime) -> Result<bool, Fail> {
    let ended = run_long(rt, "edit", own_input(rt)?.as_bytes(), 200_000)?;
    // the lines of 2000 replies and of 500, and one of 60,003 octets
    let replies_len = 2000 * 9 + 500 * 14;
    if ended.status != 0 || ended.report.len() != replies_len + 120_007 {
        return Ok(false);
    }
    let (replies, octets) = ended.report.split_at(replies_len);
    let (Ok(lines), Some((_, digits))) = (str::from_utf8(replies), octets.split_last()) else {
        return Ok(false);
    };
    Ok(count_replies(lines) == (2000, 500) && sum_of(rt, digits)? == 3_755_481)
}

#[test]
fn edits_what_gen_does(rt: HostRuntime) -> Result<(), Fail> {
    assert!(rt; edits_own_data(&rt)?);
    Ok(())
}
