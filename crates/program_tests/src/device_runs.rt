//! Runs over devices in memory of which one call fails.
use crate::runs::words;
use devices::{MemorySink, MemorySource};
use edit_program::run::run;
use std::test::Fail;

/// An input of `edit` of 39 octets, and its report of as many.
const INPUT: &[u8] = b"0 3 8\n000100\nraw 5 0011223344\nraw 6 aa\n";

const REPORT: &[u8] = b"short buffer\naccepted\n00010000060001aa\n";

/// How many octets a call moves at most.
const PIECES: [usize; 3] = [1, 7, 100];

/// Whether `edit` ends with this status and writes this front of the report, where one read and one write fail.
fn ends_so(
    rt: &HostRuntime,
    piece: usize,
    failing_read: u64,
    failing_write: u64,
    status: u8,
    written: &[u8],
) -> Result<bool, Fail> {
    if piece == 0 {
        return Ok(false);
    }
    let failing_reads = [failing_read];
    let failing_writes = [failing_write];
    let mut source = MemorySource::new(INPUT, piece, &failing_reads);
    let mut sink = MemorySink::new(vec![in rt.alloc(); 0; 39]?, piece, &failing_writes);
    let ended = run(rt.alloc(), &words(rt, "edit")?, &mut source, &mut sink);
    Ok(ended == status && sink.held() == written)
}

/// How many calls move 39 octets in pieces.
fn calls_for(piece: usize) -> usize {
    match piece {
        1 => 39,
        7 => 6,
        _ => 1,
    }
}

#[test]
fn no_failed_read_writes(rt: HostRuntime) -> Result<(), Fail> {
    for piece in PIECES {
        // the last read finds the end
        for call in 1..=calls_for(piece).saturating_add(1) {
            assert!(rt;
                ends_so(&rt, piece, call as u64, 0, 4, b"")?,
                "read {call} of {piece}"
            );
        }
    }
    Ok(())
}

#[test]
fn a_failed_write_leaves_a_front(rt: HostRuntime) -> Result<(), Fail> {
    for piece in PIECES {
        for call in 1..=calls_for(piece) {
            let len = piece
                .saturating_mul(call.saturating_sub(1))
                .min(REPORT.len());
            let front = &REPORT[..len];
            assert!(rt;
                ends_so(&rt, piece, 0, call as u64, 5, front)?,
                "write {call} of {piece}"
            );
        }
    }
    Ok(())
}

#[test]
fn later_failures_never_come(rt: HostRuntime) -> Result<(), Fail> {
    for piece in PIECES {
        let reads = calls_for(piece).saturating_add(2) as u64;
        let writes = calls_for(piece).saturating_add(1) as u64;
        assert!(rt;
            ends_so(&rt, piece, reads, writes, 0, REPORT)?,
            "in pieces of {piece}"
        );
    }
    Ok(())
}
