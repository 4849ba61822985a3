//! Values added to parameters that were read.

use registry::SvcParamKey;
use std::test::Fail;
use svcb_params::{BufError, PushError, SvcParamsOverlay, SvcParamsRef};
use svcb_value::{Port, UnknownSvcParamRef};

#[test]
fn values_are_added_to_those_read(rt: HostRuntime) -> Result<(), Fail> {
    let alloc = rt.alloc();
    let read = b"\x00\x03\x00\x02\x00\x35";
    let params = SvcParamsRef::from_slice(read)?;
    let mut overlay = SvcParamsOverlay::new(alloc, &params, 100)?;
    assert_eq!(rt; overlay.kept(), 0);
    let ech = UnknownSvcParamRef::new(SvcParamKey::ECH, b"\xaa\xbb")?;
    assert_eq!(rt; overlay.push(&ech), Ok(()));
    assert_eq!(rt; overlay.push(&Port::new(1)), Err(PushError::DuplicateKey));
    assert_eq!(rt; overlay.kept(), 2);
    assert_eq!(rt; overlay.len(), 12);
    let mut octets = Vec::from_slice(alloc, b"\x01")?;
    overlay.compose(&mut octets)?;
    assert_eq!(rt;
        octets.as_slice(),
        b"\x01\x00\x03\x00\x02\x00\x35\x00\x05\x00\x02\xaa\xbb".as_slice()
    );

    let short = SvcParamsOverlay::new(alloc, &params, 5);
    assert!(rt; matches!(short, Err(BufError::ShortBuf)));
    let mut full = SvcParamsOverlay::new(alloc, &params, 11)?;
    assert_eq!(rt; full.push(&ech), Err(PushError::ShortBuf));
    assert_eq!(rt; full.kept(), 0);
    Ok(())
}
