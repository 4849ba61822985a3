use devices::{
    Failed, MemorySink, MemorySource, ReadError, Source, StdSink, StdSource, SureSink, SureSource,
    read_input, write_all,
};
use std::process::Abort;
use std::test::Fail;

#[test]
fn reads(rt: HostRuntime) -> Result<(), Fail> {
    let alloc = rt.alloc();
    let mut source = MemorySource::new(b"abcdefgh", 3, &[2]);
    assert_eq!(rt; read_input(alloc, &mut source), Err(ReadError::Failed));
    let rest = read_input(alloc, &mut source)?;
    assert_eq!(rt; rest.as_slice(), b"defgh".as_slice());

    let whole = read_input(alloc, &mut SureSource::new(b"abcdefgh"))?;
    assert_eq!(rt; whole.as_slice(), b"abcdefgh".as_slice());
    Ok(())
}

/// The fourth read would fail: the third gives the end, and none follows it.
#[test]
fn ends_once(rt: HostRuntime) -> Result<(), Fail> {
    let mut source = MemorySource::new(b"abcdef", 3, &[4]);
    let input = read_input(rt.alloc(), &mut source)?;
    assert_eq!(rt; input.as_slice(), b"abcdef".as_slice());
    assert_eq!(rt; source.read(&mut [0]), Err(Failed));
    Ok(())
}

/// How many octets are taken of an input of `len` octets. The others are left.
fn taken_of(rt: &(impl Abort + AllocGlobal), len: usize) -> Result<usize, Fail> {
    let bytes = vec![in rt.alloc(); 7; len]?;
    let mut source = SureSource::new(&bytes);
    let input = read_input(rt.alloc(), &mut source)?;
    let mut room = vec![in rt.alloc(); 0; len]?;
    let left = source.read(&mut room)?;
    assert_eq!(rt; len.checked_sub(left), Some(input.len()), "of {len}");
    Ok(input.len())
}

#[test]
fn stops_at_the_limit(rt: HostRuntime) -> Result<(), Fail> {
    for (len, want) in [
        (16_777_216, 16_777_216),
        (16_777_217, 16_777_217),
        (16_908_288, 16_777_217),
    ] {
        assert_eq!(rt; taken_of(&rt, len)?, want, "of {len}");
    }
    Ok(())
}

#[test]
fn writes(rt: HostRuntime) -> Result<(), Fail> {
    for (places, failing, want) in [
        (9, 0, b"abcdefgh".as_slice()),
        (9, 2, b"abcd".as_slice()),
        (5, 0, b"abcde".as_slice()),
    ] {
        let failing = [failing];
        let mut sink = MemorySink::new(vec![in rt.alloc(); 0; places]?, 4, &failing);
        let outcome = write_all(&mut sink, b"abcdefgh");
        assert_eq!(rt; outcome.is_ok(), want.len() == 8, "{places} places");
        assert_eq!(rt; sink.held(), want, "{places} places");
    }
    write_all(&mut SureSink::new(), b"abcdefgh")?;
    Ok(())
}

#[test]
fn standard_streams(rt: HostRuntime) -> Result<(), Fail> {
    write_all(&mut StdSink::new(rt.stdout()), b"abcdefgh\n")?;
    assert_eq!(rt; StdSource::new(rt.stdin()).read(&mut [])?, 0);
    Ok(())
}

#[test]
fn texts(rt: HostRuntime) -> Result<(), Fail> {
    let alloc = rt.alloc();
    let failed = Failed;
    assert_eq!(rt; format!(in alloc; "{failed}")?.as_str(), "device failed");
    for (error, text) in [
        (ReadError::Failed, "device failed"),
        (ReadError::NoMemory, "want of memory"),
    ] {
        assert_eq!(rt; format!(in alloc; "{error}")?.as_str(), text);
    }
    Ok(())
}
