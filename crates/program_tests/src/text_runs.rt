//! Runs of `show`, `scan` and `gen` over devices in memory.
use crate::runs::{ends_with, run_on};
use std::test::Fail;

/// Command lines, each with an input, a status and the line that is written, without its LF.
const ROWS: [(&str, &str, u8, &str); 87] = [
    (
        "scan svcb",
        "1 . port=53 alpn=h2\n",
        0,
        "00010000010003026832000300020035",
    ),
    (
        "show https",
        "00010000010003026832000300020035\n",
        0,
        "1 . alpn=h2 port=53",
    ),
    // escapes of escapes are read in any form, and printed in one
    (
        "scan svcb",
        r"16 foo.example.org. alpn=f\\\092oo\092,bar,h2",
        0,
        "001003666f6f076578616d706c65036f7267000001000c08665c6f6f2c626172026832",
    ),
    (
        "show svcb",
        "001003666f6f076578616d706c65036f7267000001000c08665c6f6f2c626172026832",
        0,
        r"16 foo.example.org. alpn=f\\\\oo\\,bar,h2",
    ),
    (
        "scan svcb",
        r#"16 foo.example.org. alpn="f\\\\oo\\,bar,h2""#,
        0,
        "001003666f6f076578616d706c65036f7267000001000c08665c6f6f2c626172026832",
    ),
    ("scan svcb", "1 . key19=a\n", 0, "0001000013000161"),
    ("scan svcb", "1 . port=+053\n", 0, "000100000300020035"),
    ("show svcb", "0001000001000201e9\n", 0, r"1 . alpn=\233"),
    // values that no text of their type gives back
    ("show svcb", "00010000000002007b\n", 0, r"1 . key0=\000{"),
    ("scan svcb", r"1 . key0=\000{", 0, "00010000000002007b"),
    ("show svcb", "00010000050000\n", 0, "1 . key5"),
    ("show svcb", "000100", 0, "1 . "),
    (
        "show https",
        "000100029B000968656c6c6fd2716f6f",
        0,
        r"1 . key667=hello\210qoo",
    ),
    (
        "show svcb",
        "00010000010000000300020035",
        0,
        "1 . key1 port=53",
    ),
    (
        "scan https",
        "16 foo.example.org. ( alpn=h2,h3-19\n mandatory=ipv4hint,alpn ipv4hint=192.0.2.1 )\n",
        0,
        "001003666f6f076578616d706c65036f7267000000000400010004000100090268320568332d313900040004c0000201",
    ),
    ("scan svcb", "", 3, "error: end of entry"),
    // octets behind the marker of data of any type
    ("scan svcb", "\\# 3 000100\n", 0, "000100"),
    (
        "scan svcb",
        "1 . port=53 key3=a\n",
        3,
        "error: duplicate key",
    ),
    ("scan svcb", "\n1 .\n", 3, "error: trailing tokens"),
    ("scan svcb", "1 . alpn=h2,", 3, "error: empty item"),
    (
        "scan svcb",
        "1 . mandatory=key123",
        3,
        "error: mandatory key missing",
    ),
    (
        "scan svcb",
        "1 . no-default-alpn=abc",
        3,
        "error: unexpected value",
    ),
    ("show svcb", "0001\n", 3, "error: short input"),
    ("show svcb", "0001c002\n", 3, "error: form error"),
    ("show svcb", "000\n", 2, "refused: bad line 1"),
    ("show svcb", "", 2, "refused: bad line 1"),
    ("show svcb", "000100\n\n", 2, "refused: bad line 2"),
    ("show svcb", "0001\n00\n", 2, "refused: bad line 2"),
    // parameters of a target (RFC 9460, appendix D)
    (
        "scan svcb",
        "1 foo.example.com. key667=hello",
        0,
        "000103666f6f076578616d706c6503636f6d00029b000568656c6c6f",
    ),
    (
        "scan svcb",
        r#"1 foo.example.com. key667="hello\210qoo""#,
        0,
        "000103666f6f076578616d706c6503636f6d00029b000968656c6c6fd2716f6f",
    ),
    (
        "scan svcb",
        r#"1 foo.example.com. ( ipv6hint="2001:db8::1,2001:db8::53:1" )"#,
        0,
        "000103666f6f076578616d706c6503636f6d000006002020010db800000000000000000000000120010db8000000000000000000530001",
    ),
    (
        "scan svcb",
        r#"1 foo.example.com. ipv6hint="2001:db8:122:344::192.0.2.33""#,
        0,
        "000103666f6f076578616d706c6503636f6d000006001020010db80122034400000000c0000221",
    ),
    (
        "scan https",
        "0 foo.example.com.",
        0,
        "000003666f6f076578616d706c6503636f6d00",
    ),
    (
        "scan svcb",
        "16 foo.example.com. port=53",
        0,
        "001003666f6f076578616d706c6503636f6d00000300020035",
    ),
    (
        "scan svcb",
        "16 foo.example.org. ( alpn=h2,h3-19 mandatory=ipv4hint,alpn ipv4hint=192.0.2.1 )",
        0,
        "001003666f6f076578616d706c65036f7267000000000400010004000100090268320568332d313900040004c0000201",
    ),
    (
        "scan svcb",
        "1 . alpn=h3,h2 ipv4hint=192.0.2.1,192.0.2.2 ipv6hint=2001:db8::1",
        0,
        "0001000001000602683302683200040008c0000201c00002020006001020010db8000000000000000000000001",
    ),
    (
        "show svcb",
        "0001000001000602683302683200040008c0000201c00002020006001020010db8000000000000000000000001",
        0,
        "1 . alpn=h3,h2 ipv4hint=192.0.2.1,192.0.2.2 ipv6hint=2001:db8::1",
    ),
    ("scan svcb", "1 . key1=h2", 0, "000100000100026832"),
    ("show svcb", "000100000100026832", 0, "1 . key1=h2"),
    (
        "show svcb",
        "00010000030003003500",
        0,
        r"1 . key3=\0005\000",
    ),
    // a target that is read through a pointer is scanned as its labels
    ("show svcb", "0001c000", 0, "1 . "),
    ("scan svcb", "1 . ", 0, "000100"),
    ("scan svcb", "+1 .", 0, "000100"),
    // data behind the marker isn't looked into
    ("scan svcb", r"\# 1 00", 0, "00"),
    (
        "scan svcb",
        "1 foo.example.com. mandatory",
        3,
        "error: missing value",
    ),
    (
        "scan svcb",
        "1 foo.example.com. alpn",
        3,
        "error: missing value",
    ),
    (
        "scan svcb",
        "1 foo.example.com. port",
        3,
        "error: missing value",
    ),
    (
        "scan svcb",
        "1 foo.example.com. ipv4hint",
        3,
        "error: missing value",
    ),
    (
        "scan svcb",
        "1 foo.example.com. ipv6hint",
        3,
        "error: missing value",
    ),
    (
        "scan svcb",
        "1 foo.example.com. key123=abc key123=def",
        3,
        "error: duplicate key",
    ),
    (
        "scan svcb",
        "1 foo.example.com. mandatory=mandatory",
        3,
        "error: mandatory in mandatory",
    ),
    (
        "scan svcb",
        "1 foo.example.com. mandatory=key123,key123 key123=abc",
        3,
        "error: duplicate item",
    ),
    // forms that other zone tools read otherwise
    (
        "scan svcb",
        r#"1 . alpn="h2"port=443"#,
        0,
        "0001000001000b0a6832706f72743d343433",
    ),
    ("scan svcb", r#"1 . "alpn=h2""#, 0, "00010000010003026832"),
    ("scan svcb", "1 . docpath=/a", 0, "000100000a00022f61"),
    ("show svcb", "000100000a00022f61", 0, "1 . docpath=/a"),
    ("scan svcb", "1 . pvd oots=x", 0, "000100000b0000000c000178"),
    ("show svcb", "000100000b0000000c000178", 0, "1 . pvd oots=x"),
    ("scan svcb", r"\035 3 000100", 0, "000100"),
    ("scan svcb", "1 @", 3, "error: bad name"),
    ("scan svcb", r"1 \@", 0, "0001014000"),
    // characters of keys
    ("scan svcb", "1 . key9=a", 0, "0001000009000161"),
    ("scan svcb", "1 . z=1", 3, "error: unknown key"),
    ("scan svcb", "1 . key_1", 3, "error: bad key character"),
    ("scan svcb", "1 . ALPN=h2", 3, "error: bad key character"),
    // a key by its number has any octets as its value
    ("scan svcb", "1 . key3=53", 0, "000100000300023533"),
    ("show svcb", "000100000300023533", 0, "1 . port=13619"),
    // items without octets
    (
        "scan svcb",
        "1 . ipv4hint=192.0.2.1,",
        3,
        "error: empty item",
    ),
    (
        "scan svcb",
        "1 . mandatory=,alpn alpn=h2",
        3,
        "error: empty item",
    ),
    ("scan svcb", "1 . alpn=h2,,h3", 3, "error: empty item"),
    (
        "scan svcb",
        "1 . tls-supported-groups=29,",
        3,
        "error: empty item",
    ),
    // escapes within lists (RFC 9460, appendix A.1)
    ("scan svcb", r"1 . alpn=a\\,b", 0, "0001000001000403612c62"),
    ("scan svcb", r"1 . alpn=a\,b", 0, "0001000001000401610162"),
    ("scan svcb", r"1 . alpn=a\\b", 3, "error: escape in list"),
    (
        "scan svcb",
        r"1 . ipv4hint=192.0.2.1\\,192.0.2.2",
        3,
        "error: escape in list",
    ),
    // the greatest numbers, and one more
    ("scan svcb", "65535 .", 0, "ffff00"),
    ("scan svcb", "65536 .", 3, "error: bad number"),
    ("scan svcb", "1 . port=65535", 0, "00010000030002ffff"),
    ("scan svcb", "1 . port=65536", 3, "error: bad port"),
    ("scan svcb", "1 . key65535=a", 0, "000100ffff000161"),
    ("scan svcb", "1 . key65536=a", 3, "error: unknown key"),
    (
        "scan svcb",
        "1 . tls-supported-groups=0,65535",
        0,
        "000100000900040000ffff",
    ),
    (
        "scan svcb",
        "1 . tls-supported-groups=65536",
        3,
        "error: bad number",
    ),
    // a command that reads nothing
    ("gen 1", "", 0, "accepted 1 duplicate 1 octets 15 sum 206"),
    ("gen 4", "x", 0, "accepted 4 duplicate 1 octets 51 sum 929"),
    (
        "gen 0001",
        "",
        0,
        "accepted 1 duplicate 1 octets 15 sum 206",
    ),
    (
        "gen 8000",
        "",
        0,
        "accepted 2000 duplicate 500 octets 60003 sum 3755481",
    ),
];

#[test]
fn answers(rt: HostRuntime) -> Result<(), Fail> {
    for (line, input, status, text) in &ROWS {
        assert!(rt;
            ends_with(&rt, line, input, *status, text)?,
            "{line} on {input}"
        );
    }
    Ok(())
}

/// Data of SVCB in hexadecimal in which a pair has no text of its type that gives it back, or a label has any octets.
const RAW: [&str; 22] = [
    "00010000000000",
    "0001000000000107",
    "000100000000040003000200020000000300020035",
    "000100000000020000",
    "00010000000002007b",
    "00010000010000",
    "0001000001000100",
    "000100000100020568",
    "0001000002000178",
    "000100000800015c",
    "00010000030003003500",
    "00010000030000",
    "00010000040000",
    "00010000040005c000020102",
    "000100000600013a",
    "00010000050000",
    "000100000700022f22",
    "000100000700032f2061",
    "000100000700022fff",
    "00010000090004001d001d",
    "00010000090000",
    "000104002e20ff02615c00",
];

/// Whether the text that `show` writes of data is scanned as exactly this data.
fn is_scanned_back(rt: &HostRuntime, data: &str) -> Result<bool, Fail> {
    let shown = run_on(rt, "show svcb", data, &[], &[])?;
    let Ok(text) = str::from_utf8(&shown.report) else {
        return Ok(false);
    };
    Ok(shown.status == 0 && ends_with(rt, "scan svcb", text, 0, data)?)
}

#[test]
fn any_octets_are_scanned_back(rt: HostRuntime) -> Result<(), Fail> {
    for data in &RAW {
        assert!(rt; is_scanned_back(&rt, data)?, "of {data}");
    }
    Ok(())
}
