//! Layouts: what the writing calls write in each kind.

use dns_text::{Formatter, display_zonefile};
use key_registry::SecurityAlgorithm;
use registry::SvcParamKey;
use std::alloc::Global;
use text_spec::DisplayKind;
use wire_base::{Ipv4Addr, Name, NoMemory, Octets, ParseError, Rtype};
use wire_records::{A, Serial, UnknownRecordData};

/// A block with a comment behind its first token.
fn write_block(alloc: Global, kind: DisplayKind) -> Result<Octets, NoMemory> {
    let mut f = Formatter::new(alloc, kind);
    f.begin_block()?;
    f.write_decimal(10)?;
    f.write_comment("key tag")?;
    f.write_token(b"x")?;
    f.write_token(b"")?;
    f.end_block()?;
    Ok(f.finish())
}

/// The kinds, and the text of that block.
const BLOCKS: [(DisplayKind, &[u8]); 3] = [
    (DisplayKind::Simple, b"10 x"),
    (DisplayKind::Tabbed, b"10\tx"),
    (DisplayKind::Multiline, b"( 10 ; key tag\n\tx )"),
];

#[test]
fn blocks_are_laid_out(rt: HostRuntime) {
    for (kind, text) in &BLOCKS {
        let found = write_block(rt.alloc(), *kind);
        assert!(rt; matches!(&found, Ok(octets) if octets.as_slice() == *text));
    }
}

/// Numbers with and without a comment's name and a mnemonic, a name, and encoded octets, in two blocks.
fn write_fields(alloc: Global) -> Result<Octets, NoMemory> {
    let mut f = Formatter::new(alloc, DisplayKind::Multiline);
    f.write_comment("outside of blocks")?;
    f.begin_block()?;
    f.write_number(SecurityAlgorithm::RSASHA256)?;
    f.write_comment("again")?;
    f.begin_block()?;
    f.write_number(SecurityAlgorithm::from(200))?;
    f.end_block()?;
    f.write_number(SvcParamKey::PORT)?;
    f.write_base64(b"key")?;
    f.write_base16(b"\x0a\xfc")?;
    f.end_block()?;
    Ok(f.finish())
}

#[test]
fn fields_are_laid_out(rt: HostRuntime) {
    let found = write_fields(rt.alloc());
    let text: &[u8] =
        b"( 8 ; algorithm: RSASHA256\n\t; again\n\t( 200 ; algorithm\n\t) port a2V5 0AFC )";
    assert!(rt; matches!(&found, Ok(octets) if octets.as_slice() == text));
}

/// The layout of an address and of data of any type.
fn lay_out(alloc: Global) -> Result<(Octets, Octets), NoMemory> {
    let a = A::new(Ipv4Addr::new([192, 0, 2, 1]));
    let Ok(data) = UnknownRecordData::new(Rtype::from_int(999), Octets::from_slice(alloc, b"\xab")?)
    else {
        return Err(NoMemory);
    };
    Ok((
        display_zonefile(alloc, &a, DisplayKind::Multiline)?,
        display_zonefile(alloc, &data, DisplayKind::Tabbed)?,
    ))
}

#[test]
fn values_are_laid_out(rt: HostRuntime) {
    let found = lay_out(rt.alloc());
    let address: &[u8] = b"192.0.2.1";
    let any: &[u8] = b"\\#\t1\tAB";
    assert!(rt;
        matches!(&found, Ok(texts)
        if texts.0.as_slice() == address && texts.1.as_slice() == any)
    );
}

/// A value's document, and, in a block, a name and what a value prints.
fn write_values(alloc: Global, kind: DisplayKind) -> Result<Octets, ParseError> {
    let name = Name::from_octets(Octets::from_slice(alloc, b"\x03a.b\x01c\x00")?)?;
    let mut f = Formatter::new(alloc, kind);
    f.write_show(&A::new(Ipv4Addr::new([192, 0, 2, 1])))?;
    f.begin_block()?;
    f.write_name(&name)?;
    f.write_display(&Serial::from_int(2026))?;
    f.end_block()?;
    Ok(f.finish())
}

/// The kinds, and the text of these.
const VALUES: [(DisplayKind, &[u8]); 2] = [
    (DisplayKind::Tabbed, b"192.0.2.1\ta\\.b.c.\t2026"),
    (DisplayKind::Multiline, b"192.0.2.1 ( a\\.b.c. 2026 )"),
];

#[test]
fn values_are_written(rt: HostRuntime) {
    for (kind, text) in &VALUES {
        let found = write_values(rt.alloc(), *kind);
        assert!(rt; matches!(&found, Ok(octets) if octets.as_slice() == *text));
    }
}
