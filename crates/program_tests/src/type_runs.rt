//! Runs of `show` and `scan` with the word of each type, over devices in memory.
use crate::runs::ends_with;
use std::test::Fail;

/// Command lines, each with an input, a status and the line that is written, without its LF.
const ROWS: [(&str, &str, u8, &str); 70] = [
    ("scan a", "192.0.2.1\n", 0, "c0000201"),
    ("show a", "c0000201\n", 0, "192.0.2.1"),
    ("scan a", "192.0.2.1 x\n", 3, "error: trailing tokens"),
    ("show a", "c000020100\n", 3, "error: form error"),
    (
        "scan aaaa",
        "2001:db9::12:13\n",
        0,
        "20010db9000000000000000000120013",
    ),
    (
        "show aaaa",
        "20010db9000000000000000000120013\n",
        0,
        "2001:db9::12:13",
    ),
    (
        "scan sshfp",
        "1 1 ( 73d3fa022a121062 580431316bfe5d56 653b91c2 )\n",
        0,
        "010173d3fa022a121062580431316bfe5d56653b91c2",
    ),
    (
        "show sshfp",
        "010173d3fa022a121062580431316bfe5d56653b91c2\n",
        0,
        "1 1 ( 73D3FA022A121062580431316BFE5D56653B91C2 )",
    ),
    ("scan ipseckey", "10 0 0 .\n", 0, "0a0000"),
    ("show ipseckey", "0a0000\n", 0, "10 0 0 . (  )"),
    ("scan ipseckey", "10 3 0 a.\n", 0, "0a0300016100"),
    (
        "scan ipseckey",
        "10 0 2 this. a2V5\n",
        3,
        "error: wrong gateway",
    ),
    ("scan ipseckey", "10 0 2 .\n", 3, "error: missing key"),
    (
        "scan ipseckey",
        "10 4 2 . a2V5\n",
        3,
        "error: unknown gateway type",
    ),
    ("scan tlsa", "0 0 1 d2ab\n", 0, "000001d2ab"),
    ("show tlsa", "000001d2ab\n", 0, "0 0 1 ( D2AB )"),
    ("scan cds", "10 5 2 6b6579\n", 0, "000a05026b6579"),
    ("show cds", "000a05026b6579\n", 0, "10 5 2 6b6579"),
    ("scan cdnskey", "10 11 5 a2V5\n", 0, "000a0b056b6579"),
    ("show cdnskey", "000a0b056b6579\n", 0, "10 11 5 a2V5"),
    ("scan openpgpkey", "a2V5\n", 0, "6b6579"),
    ("show openpgpkey", "6b6579\n", 0, "( a2V5 )"),
    (
        "scan zonemd",
        "2018031900 1 1 00112233445566778899aabb\n",
        0,
        "7848b91c010100112233445566778899aabb",
    ),
    (
        "show zonemd",
        "7848b91c010100112233445566778899aabb\n",
        0,
        "2018031900 1 1 ( 00112233445566778899AABB )",
    ),
    (
        "show zonemd",
        "7848b91c010100112233445566778899aa\n",
        3,
        "error: short input",
    ),
    ("scan type999", "\\# 3 0A0b0c\n", 0, "0a0b0c"),
    ("show type999", "0a0b0c\n", 0, "\\# 3 0A0B0C"),
    ("scan type999", "\\# 3 0A0B0C\n", 0, "0a0b0c"),
    // any token that is one escaped symbol of that octet is the marker
    ("scan type999", "\\035 1 0a\n", 0, "0a"),
    ("scan a", "\"\\#\" 4 c0000201\n", 0, "c0000201"),
    ("scan type999", "\\# 4 0a0b0c\n", 3, "error: bad number"),
    ("scan type999", "x\n", 3, "error: unknown type"),
    // a registry's number is a number alone
    ("scan cds", "10 RSASHA1 2 6b6579", 3, "error: bad number"),
    ("scan cdnskey", "256 3 RSASHA1 a2V5", 3, "error: bad number"),
    ("scan sshfp", "RSA 1 aa", 3, "error: bad number"),
    ("scan tlsa", "DANE-EE 1 1 aa", 3, "error: bad number"),
    ("scan zonemd", "1 SIMPLE 1 aa", 3, "error: bad number"),
    ("scan ipseckey", "10 NONE 0 .", 3, "error: bad number"),
    ("scan ipseckey", "10 3 0 @", 3, "error: bad name"),
    // data behind the marker isn't looked into, and an empty line is an entry
    ("scan a", r"\# 1 00", 0, "00"),
    ("scan a", "\n192.0.2.1\n", 3, "error: trailing tokens"),
    // the greatest numbers, and one more; a last field without octets
    ("scan a", "255.255.255.255\n", 0, "ffffffff"),
    ("scan a", "256.0.0.1\n", 3, "error: bad address"),
    ("scan a", "192.0.2.01\n", 3, "error: bad address"),
    ("show a", "c00002\n", 3, "error: short input"),
    ("scan cds", "65535 255 255\n", 0, "ffffffff"),
    ("scan cds", "65536 5 2\n", 3, "error: bad number"),
    ("scan cds", "10 256 2\n", 3, "error: bad number"),
    ("scan cdnskey", "65535 255 255\n", 0, "ffffffff"),
    ("scan sshfp", "255 255\n", 0, "ffff"),
    ("scan sshfp", "255 256\n", 3, "error: bad number"),
    ("scan tlsa", "255 255 255\n", 0, "ffffff"),
    ("scan tlsa", "256 0 0\n", 3, "error: bad number"),
    ("scan zonemd", "4294967295 255 255\n", 0, "ffffffffffff"),
    ("scan zonemd", "4294967296 1 1\n", 3, "error: bad number"),
    ("scan ipseckey", "255 0 0 .\n", 0, "ff0000"),
    ("scan ipseckey", "256 0 0 .\n", 3, "error: bad number"),
    ("scan openpgpkey", "\n", 0, ""),
    ("show openpgpkey", "\n", 0, "(  )"),
    // the words of numbers
    ("show type1", "c0000201\n", 0, "192.0.2.1"),
    ("scan type1", "192.0.2.1\n", 0, "c0000201"),
    ("show type65", "000100\n", 0, "1 . "),
    ("scan type65", "1 .\n", 0, "000100"),
    ("scan type00065", "1 .\n", 0, "000100"),
    ("show type00065", "000100\n", 0, "1 . "),
    ("show type0", "\n", 0, "\\# 0"),
    ("scan type0", "\\# 0\n", 0, ""),
    ("scan type65535", "\\# 1 0a\n", 0, "0a"),
    ("show type65535", "0a\n", 0, "\\# 1 0A"),
    ("show type999", "0\n", 2, "refused: bad line 1"),
];

/// Words that name no type.
const NO_TYPES: [&str; 8] = [
    "type65536",
    "type000065",
    "type",
    "type+65",
    "TYPE65",
    "typeA",
    "A",
    "type 65",
];

#[test]
fn answers(rt: HostRuntime) -> Result<(), Fail> {
    for (line, input, status, text) in &ROWS {
        assert!(rt;
            ends_with(&rt, line, input, *status, text)?,
            "{line} on {input}"
        );
    }
    Ok(())
}

/// Whether a command refuses a word that names no type.
fn refuses(rt: &HostRuntime, command: &str, word: &str) -> Result<bool, Fail> {
    let line = format!(in rt.alloc(); "{command} {word}")?;
    ends_with(rt, line.as_str(), "000100\n", 1, "refused: unknown command")
}

#[test]
fn refuses_other_words(rt: HostRuntime) -> Result<(), Fail> {
    for word in &NO_TYPES {
        assert!(rt; refuses(&rt, "show", word)?, "show {word}");
        assert!(rt; refuses(&rt, "scan", word)?, "scan {word}");
    }
    Ok(())
}
