//! Runs of `choose` over devices in memory.
use crate::runs::first_other;
use std::test::Fail;

/// Inputs, each with what is written, without its last LF.
const CHOSEN: [(&str, &str); 46] = [
    // the second record has a mandatory key that isn't understood
    (
        "example.com.\n\
         alpn,port\n\
         http/1.1\n\
         000100000100030268320003000220fb\n\
         000203666f6f0000000002000400040004c0000201\n\
         00030362617200\n",
        "endpoint 1 example.com. 8443 h2,http/1.1\n\
         endpoint 3 bar. - http/1.1",
    ),
    // an alias counts alone, with its parameters left aside
    (
        "a.\n\
         -\n\
         -\n\
         000003666f6f00\n\
         000100\n",
        "alias foo.",
    ),
    (
        "a.\n\
         -\n\
         -\n\
         000003666f6f0000030001ff\n",
        "alias foo.",
    ),
    (
        "a.\n\
         -\n\
         -\n\
         000003666f6f00\n\
         000000\n\
         00000362617200\n",
        "alias foo.",
    ),
    // an alias to the root says that there is no service
    (
        "a.\n\
         -\n\
         -\n\
         000000\n",
        "unavailable",
    ),
    (
        "a.\n\
         -\n\
         -\n\
         000000\n\
         000003666f6f00\n",
        "unavailable",
    ),
    // nothing to choose from
    (
        "a.\n\
         -\n\
         -\n",
        "none",
    ),
    (
        "a.\n\
         -\n\
         -\n\
         00010000020000\n",
        "none",
    ),
    // equal priorities stay in their order
    (
        "a.\n\
         -\n\
         -\n\
         000103666f6f00\n\
         00010362617200\n",
        "endpoint 1 foo. - -\n\
         endpoint 2 bar. - -",
    ),
    // the root stands for the owner, whose case is kept
    (
        "Www.Example.\n\
         -\n\
         -\n\
         ffff00\n",
        "endpoint 1 Www.Example. - -",
    ),
    (
        "a\\.b.\\000.\n\
         -\n\
         -\n\
         000100\n",
        "endpoint 1 a\\.b.\\000. - -",
    ),
    (
        ".\n\
         -\n\
         -\n\
         000100\n",
        "endpoint 1 . - -",
    ),
    // a default that is an item isn't added, and none is added twice
    (
        "a.\n\
         -\n\
         http/1.1,h2\n\
         00010000010003026832\n",
        "endpoint 1 a. - h2,http/1.1",
    ),
    (
        "a.\n\
         -\n\
         h2,h3,h2\n\
         000100\n",
        "endpoint 1 a. - h2,h3",
    ),
    (
        "a.\n\
         -\n\
         h2\n\
         00010000010003024832\n",
        "endpoint 1 a. - H2,h2",
    ),
    // items that repeat stay
    (
        "a.\n\
         -\n\
         h3\n\
         00010000010006026832026832\n",
        "endpoint 1 a. - h2,h2,h3",
    ),
    // no defaults where the record says so
    (
        "a.\n\
         -\n\
         http/1.1\n\
         0001000001000302683200020000\n",
        "endpoint 1 a. - h2",
    ),
    // which wants `alpn`
    (
        "a.\n\
         -\n\
         http/1.1\n\
         00010000020000\n",
        "none",
    ),
    // and has no value
    (
        "a.\n\
         -\n\
         http/1.1\n\
         000100000100030268320002000100\n",
        "none",
    ),
    // commas and backslashes of items are escaped, and then the octets of the text
    (
        "a.\n\
         -\n\
         -\n\
         0001000001000c08665c6f6f2c626172026832\n",
        "endpoint 1 a. - f\\\\\\\\oo\\\\,bar,h2",
    ),
    (
        "a.\n\
         -\n\
         -\n\
         00010000010003020020\n",
        "endpoint 1 a. - \\000\\ ",
    ),
    // a mandatory key is there and understood
    (
        "a.\n\
         port\n\
         -\n\
         000100000000020003000300020035\n",
        "endpoint 1 a. 53 -",
    ),
    // it is there and not understood
    (
        "a.\n\
         alpn\n\
         -\n\
         000100000000020003000300020035\n",
        "none",
    ),
    // it is understood and not there
    (
        "a.\n\
         port\n\
         -\n\
         00010000000002000300040004c0000201\n",
        "none",
    ),
    // `mandatory` is empty, cut, lists itself, or doesn't ascend
    (
        "a.\n\
         port\n\
         -\n\
         00010000000000\n",
        "none",
    ),
    (
        "a.\n\
         port\n\
         -\n\
         0001000000000100000300020035\n",
        "none",
    ),
    (
        "a.\n\
         mandatory,port\n\
         -\n\
         0001000000000400000003000300020035\n",
        "none",
    ),
    (
        "a.\n\
         port\n\
         -\n\
         0001000000000400030003000300020035\n",
        "none",
    ),
    (
        "a.\n\
         alpn,port\n\
         -\n\
         000100000000040003000100010003026832000300020035\n",
        "none",
    ),
    // `alpn` is empty, has an empty item, or is cut
    (
        "a.\n\
         -\n\
         -\n\
         00010000010000\n",
        "none",
    ),
    (
        "a.\n\
         -\n\
         -\n\
         0001000001000402683200\n",
        "none",
    ),
    (
        "a.\n\
         -\n\
         -\n\
         000100000100020268\n",
        "none",
    ),
    // a port of one octet, and of three
    (
        "a.\n\
         -\n\
         -\n\
         0001000003000135\n",
        "none",
    ),
    (
        "a.\n\
         -\n\
         -\n\
         00010000030003003500\n",
        "none",
    ),
    // the greatest port, and 0
    (
        "a.\n\
         -\n\
         -\n\
         00010000030002ffff\n\
         000100000300020000\n",
        "endpoint 1 a. 65535 -\n\
         endpoint 2 a. 0 -",
    ),
    // addresses that are cut
    (
        "a.\n\
         -\n\
         -\n\
         00010000040003c00002\n",
        "none",
    ),
    (
        "a.\n\
         -\n\
         -\n\
         0001000006000f20010db80000000000000000000000\n",
        "none",
    ),
    // a `dohpath` is any octets
    (
        "a.\n\
         -\n\
         -\n\
         000100000700022f22\n",
        "endpoint 1 a. - -",
    ),
    // groups that are cut
    (
        "a.\n\
         -\n\
         -\n\
         000100000900031d001d\n",
        "none",
    ),
    // a value where `ohttp` has none
    (
        "a.\n\
         -\n\
         -\n\
         0001000008000100\n",
        "none",
    ),
    // a key that no registry has is left aside, whatever its octets
    (
        "a.\n\
         -\n\
         -\n\
         000100029b0001ff\n",
        "endpoint 1 a. - -",
    ),
    (
        "a.\n\
         key667\n\
         -\n\
         00010000000002029b029b0001ff\n",
        "endpoint 1 a. - -",
    ),
    // places are counted among records, and not among endpoints
    (
        "a.\n\
         -\n\
         -\n\
         00010000010000\n\
         000203666f6f00\n\
         00030000010000\n\
         00040362617200\n",
        "endpoint 2 foo. - -\n\
         endpoint 4 bar. - -",
    ),
    // keys by mnemonics and by numbers, in any order and more than once
    (
        "a.\n\
         KEY+03,ALPN,port,key65535,alpn\n\
         -\n\
         000100\n",
        "endpoint 1 a. - -",
    ),
    // lines are entries, with blanks, brackets, quotes and comments
    (
        " ( a. ) ; owner\n\
         \"port\"\n\
         \"h2,h3\" ; defaults\n\
         000100\n",
        "endpoint 1 a. - h2,h3",
    ),
    // digits of either case
    (
        "a.\n\
         -\n\
         -\n\
         0001000003000220fB\n",
        "endpoint 1 a. 8443 -",
    ),
];

#[test]
fn endpoints_are_chosen(rt: HostRuntime) -> Result<(), Fail> {
    assert_eq!(rt; first_other(&rt, "choose", 0, &CHOSEN)?, None);
    Ok(())
}

/// Inputs that are refused.
const NOT_ASKED: [(&str, &str); 27] = [
    ("", "refused: bad line 1"),
    (
        "\n\
         -\n\
         -\n",
        "refused: bad line 1",
    ),
    (
        "; a.\n\
         -\n\
         -\n",
        "refused: bad line 1",
    ),
    (
        "a. b.\n\
         -\n\
         -\n",
        "refused: bad line 1",
    ),
    (
        "@\n\
         -\n\
         -\n",
        "refused: bad line 1",
    ),
    (
        "(a.\n\
         -\n\
         -\n",
        "refused: bad line 1",
    ),
    (
        "a..\n\
         -\n\
         -\n",
        "refused: bad line 1",
    ),
    ("a.\n", "refused: bad line 2"),
    (
        "a.\n\
         \n\
         -\n",
        "refused: bad line 2",
    ),
    (
        "a.\n\
         \x20-\n\
         -\n",
        "refused: bad line 2",
    ),
    (
        "a.\n\
         alpn,\n\
         -\n",
        "refused: bad line 2",
    ),
    (
        "a.\n\
         alpn port\n\
         -\n",
        "refused: bad line 2",
    ),
    (
        "a.\n\
         alpnn\n\
         -\n",
        "refused: bad line 2",
    ),
    (
        "a.\n\
         key65536\n\
         -\n",
        "refused: bad line 2",
    ),
    (
        "a.\n\
         -\n\
         h2,\n",
        "refused: bad line 3",
    ),
    (
        "a.\n\
         -\n",
        "refused: bad line 3",
    ),
    (
        "a.\n\
         -\n\
         h2 h3\n",
        "refused: bad line 3",
    ),
    (
        "a.\n\
         -\n\
         a\\\\b\n",
        "refused: bad line 3",
    ),
    (
        "a.\n\
         -\n\
         -\n\
         00010\n",
        "refused: bad line 4",
    ),
    (
        "a.\n\
         -\n\
         -\n\
         0001\n",
        "refused: bad line 4",
    ),
    (
        "a.\n\
         -\n\
         -\n\
         00010000\n",
        "refused: bad line 4",
    ),
    (
        "a.\n\
         -\n\
         -\n\
         0001c000c000\n",
        "refused: bad line 4",
    ),
    (
        "a.\n\
         -\n\
         -\n\
         000100\n\
         \n\
         000100\n",
        "refused: bad line 5",
    ),
    (
        "a.\n\
         -\n\
         -\n\
         000100\n\
         000100\r\n",
        "refused: bad line 5",
    ),
    (
        "a.\n\
         -\n\
         -\n\
         000200\n\
         000100\n",
        "refused: priorities not ascending",
    ),
    (
        "a.\n\
         -\n\
         -\n\
         000100\n\
         000003666f6f00\n",
        "refused: priorities not ascending",
    ),
    // a bad line is told first
    (
        "a.\n\
         -\n\
         -\n\
         000200\n\
         000100\n\
         x\n",
        "refused: bad line 6",
    ),
];

#[test]
fn other_inputs_are_refused(rt: HostRuntime) -> Result<(), Fail> {
    assert_eq!(rt; first_other(&rt, "choose", 2, &NOT_ASKED)?, None);
    Ok(())
}
