//! IPSECKEY data as text (RFC 4025, section 3).

use crate::printed::is_printed;
use dns_text::{Entry, EntryScanner, Scanner, display_zonefile};
use key_rdata::{Ipseckey, IpseckeyGateway};
use key_registry::IpseckeyGatewayType;
use std::alloc::Global;
use text_spec::{DisplayKind, ScanError};
use wire_base::ComposeRecordData;

/// The data of the one entry of a text.
fn scanned(alloc: Global, text: &[u8]) -> Result<Ipseckey, ScanError> {
    let entry = Entry::from_text(text)?;
    let mut scanner = EntryScanner::new(entry);
    let found = Ipseckey::scan(alloc, &mut scanner)?;
    scanner.check_end()?;
    Ok(found)
}

/// Texts, and how their data is printed: those of RFC 4025, section 3.2, among them.
const PRINTED: [(&[u8], &str); 7] = [
    (b"10 0 0 .", "10 0 0 . (  )"),
    (b"10 3 0 a.", "10 3 0 a. (  )"),
    (
        b"10 1 2 192.0.2.38 AQNRU3mG7TVTO2BkR47usntb102uFJtugbo6BSGvgqt4AQ==",
        "10 1 2 192.0.2.38 ( AQNRU3mG7TVTO2BkR47usntb102uFJtugbo6BSGvgqt4AQ== )",
    ),
    (
        b"10 0 2 . AQNRU3mG7TVTO2BkR47usntb102uFJtugbo6BSGvgqt4AQ==",
        "10 0 2 . ( AQNRU3mG7TVTO2BkR47usntb102uFJtugbo6BSGvgqt4AQ== )",
    ),
    (
        b"10 3 2 mygateway.example.com. AQNRU3mG7TVTO2BkR47usntb102uFJtugbo6BSGvgqt4AQ==",
        "10 3 2 mygateway.example.com. ( AQNRU3mG7TVTO2BkR47usntb102uFJtugbo6BSGvgqt4AQ== )",
    ),
    (
        b"10 3 2 mygateway.example.com. ( AQNRU3mG7TVTO2Bk\n R47usntb102uFJtugbo6BSGvgqt4AQ== )",
        "10 3 2 mygateway.example.com. ( AQNRU3mG7TVTO2BkR47usntb102uFJtugbo6BSGvgqt4AQ== )",
    ),
    (
        b"10 2 2 2001:0DB8:0:8002::2000:1 AQNRU3mG7TVTO2BkR47usntb102uFJtugbo6BSGvgqt4AQ==",
        "10 2 2 2001:db8:0:8002::2000:1 ( AQNRU3mG7TVTO2BkR47usntb102uFJtugbo6BSGvgqt4AQ== )",
    ),
];

/// Whether a text's data is printed so, and that text is scanned as the same data.
fn is_scanned(alloc: Global, text: &[u8], printed: &str) -> Result<bool, ScanError> {
    let found = scanned(alloc, text)?;
    let shown = format!(in alloc; "{found}")?;
    let again = scanned(alloc, shown.as_bytes())?;
    Ok(is_printed(alloc, &found, printed)? && found == again)
}

#[test]
fn texts_are_scanned_and_printed(rt: HostRuntime) {
    for (text, printed) in &PRINTED {
        assert!(rt; is_scanned(rt.alloc(), text, printed) == Ok(true));
    }
}

/// Texts, and the octets of their data.
const OCTETS: [(&[u8], &[u8]); 4] = [
    (b"10 0 0 .", b"\x0a\x00\x00"),
    (b"10 3 0 a.", b"\x0a\x03\x00\x01\x61\x00"),
    (b"1 1 4 192.0.2.38 a2V5", b"\x01\x01\x04\xc0\x00\x02\x26key"),
    (
        b"255 2 255 2001:db8::1 a2V5",
        b"\xff\x02\xff\x20\x01\x0d\xb8\0\0\0\0\0\0\0\0\0\0\0\x01key",
    ),
];

/// Whether these are the octets of a text's data, and of its copy in canonical form.
fn is_composed(alloc: Global, text: &[u8], octets: &[u8]) -> Result<bool, ScanError> {
    let found = scanned(alloc, text)?;
    let mut target = Vec::new(alloc);
    found.compose_rdata(&mut target)?;
    let mut canonical = Vec::new(alloc);
    found
        .try_clone(alloc)?
        .compose_canonical_rdata(&mut canonical)?;
    Ok(
        target.as_slice() == octets
            && canonical.as_slice() == octets
            && found.rdlen(false).map(usize::from) == Some(octets.len()),
    )
}

#[test]
fn texts_have_octets(rt: HostRuntime) {
    for (text, octets) in &OCTETS {
        assert!(rt; is_composed(rt.alloc(), text, octets) == Ok(true));
    }
}

/// Texts, and their first fault.
const FAULTS: [(&[u8], ScanError); 10] = [
    (b"10 0 2 this. a2V5", ScanError::WrongGateway),
    (b"10 0 2 .", ScanError::MissingKey),
    (b"10 4 2 . a2V5", ScanError::UnknownGateway),
    (b"10 4 2", ScanError::UnknownGateway),
    (b"10 3 2", ScanError::EndOfEntry),
    (b"10 0", ScanError::EndOfEntry),
    (b"256 0 0 .", ScanError::BadNumber),
    (b"10 1 2 2001:db8::1 a2V5", ScanError::BadAddress),
    (b"10 3 2 @ a2V5", ScanError::BadName),
    (b"10 0 0 . a2V", ScanError::BadBase64),
];

#[test]
fn texts_with_faults_are_refused(rt: HostRuntime) {
    for (text, fault) in &FAULTS {
        assert!(rt; scanned(rt.alloc(), text).err() == Some(*fault));
    }
}

/// How many tokens are taken where the data of a text is refused.
fn place_of_refusal(alloc: Global, text: &[u8]) -> Result<Option<usize>, ScanError> {
    let mut scanner = EntryScanner::new(Entry::from_text(text)?);
    let outcome = Ipseckey::scan(alloc, &mut scanner);
    Ok(outcome.err().map(|_| scanner.taken()))
}

#[test]
fn refusals_have_their_place(rt: HostRuntime) {
    assert!(rt; place_of_refusal(rt.alloc(), b"10 4 2 . a2V5") == Ok(Some(3)));
    assert!(rt; place_of_refusal(rt.alloc(), b"10 0 2 x a2V5") == Ok(Some(3)));
    assert!(rt; place_of_refusal(rt.alloc(), b"10 0 2 . a2V 5 x") == Ok(Some(4)));
    assert!(rt; place_of_refusal(rt.alloc(), b"10 0 2 .") == Ok(Some(4)));
}

/// Whether the gateway of a type that a token is has this text.
fn is_gateway(alloc: Global, number: u8, text: &[u8], printed: &str) -> Result<bool, ScanError> {
    let gateway_type = IpseckeyGatewayType::from(number);
    let mut scanner = EntryScanner::new(Entry::from_text(text)?);
    let gateway = IpseckeyGateway::scan(alloc, &mut scanner, gateway_type)?;
    Ok(is_printed(alloc, &gateway, printed)?)
}

#[test]
fn gateways_are_scanned_and_printed(rt: HostRuntime) {
    assert!(rt; is_gateway(rt.alloc(), 0, b".", ".") == Ok(true));
    assert!(rt; is_gateway(rt.alloc(), 1, b"192.0.2.1", "192.0.2.1") == Ok(true));
    assert!(rt; is_gateway(rt.alloc(), 2, b"2001:DB8::1", "2001:db8::1") == Ok(true));
    assert!(rt; is_gateway(rt.alloc(), 3, b"My.Gateway", "My.Gateway.") == Ok(true));
    assert!(rt; is_gateway(rt.alloc(), 9, b".", ".") == Err(ScanError::UnknownGateway));
}

/// Whether the data of a text is laid out so.
fn is_laid_out(
    alloc: Global,
    text: &[u8],
    kind: DisplayKind,
    layout: &[u8],
) -> Result<bool, ScanError> {
    let found = scanned(alloc, text)?;
    Ok(display_zonefile(alloc, &found, kind)?.as_slice() == layout)
}

#[test]
fn data_is_laid_out(rt: HostRuntime) {
    let text = b"10 1 2 192.0.2.38 a2V5";
    let layout = b"( 10 ; precedence\n\t1 ; ipseckey gateway type: IPV4\n\t; gateway type\n\t2 \
        ; ipseckey algorithm: RSA\n\t; algorithm\n\t192.0.2.38 ; gateway\n\ta2V5 )";
    assert!(rt; is_laid_out(rt.alloc(), text, DisplayKind::Multiline, layout) == Ok(true));
    let simple = b"10 1 2 192.0.2.38 a2V5";
    assert!(rt; is_laid_out(rt.alloc(), text, DisplayKind::Simple, simple) == Ok(true));
}
