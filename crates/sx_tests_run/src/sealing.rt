//! Seals over a source and a sink in memory, and whether its workers run at the same time.

use crate::counting::{run, run_at};
use crate::markets::two_offers;
use crate::meeting::Meeting;
use crate::streams::{sink_of, source_of, words_of};
use std::alloc::Global;
use std::test::Fail;
use std::thread::Threads;
use sx_base::MemSource;
use sx_run::Status;
use sx_workers::Gate;

// The input in pieces of 7 bytes, from a source that fails at these calls.
fn source(alloc: Global, fails: &[u32]) -> Option<MemSource> {
    let bytes = Vec::from_slice(alloc, &two_offers()).ok()?;
    source_of(alloc, bytes, 7, fails)
}

// How a seal at the prices of the ledger ends, and how many bytes are written.
fn sealed<R: Threads + Sync>(
    rt: &R,
    alloc: Global,
    source_fails: &[u32],
    room: usize,
    sink_fails: &[u32],
) -> Option<(Status, usize)> {
    let words = words_of(alloc, &["seal", "--rounds", "0", "--workers", "1"])?;
    let mut source = source(alloc, source_fails)?;
    let mut sink = sink_of(alloc, room, 7, sink_fails)?;
    let status = run(rt, alloc, &words, &mut source, &mut sink);
    Some((status, sink.written().len()))
}

// In pieces of 7 bytes the input and its end take 33 calls.
#[test]
fn a_failed_take_of_a_seal_is_a_read_fault(rt: HostRuntime) {
    for call in 0..33u32 {
        let ended = sealed(&rt, rt.alloc(), &[call], 300, &[]);
        assert_eq!(rt; ended, Some((Status::ReadFault, 0)));
    }
    let ended = sealed(&rt, rt.alloc(), &[33], 300, &[]);
    assert_eq!(rt; ended, Some((Status::Done, 276)));
}

// How many bytes so many puts of 7 bytes write. The seal comes in four pieces, of which the last put takes what is left:
// the frame and the header of the block, its transactions, the frame of the outcomes, and the outcomes.
fn after_puts(puts: u32) -> usize {
    let mut left = puts as usize;
    let mut written = 0usize;
    for piece in [191usize, 74, 5, 6] {
        let taken = left.min(piece.div_ceil(7));
        written = written.saturating_add(taken.saturating_mul(7).min(piece));
        left -= taken;
    }
    written
}

// The records of the block and of the outcomes have 265 and 11 bytes, and take 41 calls.
#[test]
fn a_failed_put_of_a_seal_is_a_write_fault(rt: HostRuntime) {
    for call in 0..41u32 {
        let ended = sealed(&rt, rt.alloc(), &[], 300, &[call]);
        assert_eq!(rt; ended, Some((Status::WriteFault, after_puts(call))));
    }
    for (room, status, written) in [
        (10usize, Status::WriteFault, 10usize),
        (275, Status::WriteFault, 275),
        (276, Status::Done, 276),
    ] {
        let ended = sealed(&rt, rt.alloc(), &[], room, &[41]);
        assert_eq!(rt; ended, Some((status, written)));
    }
}

// How a seal by two workers ends, with this gate before each candidate.
fn sealed_by_two<R: Threads + Sync, G: Gate + Sync>(
    rt: &R,
    alloc: Global,
    gate: &G,
) -> Option<Status> {
    let words = words_of(alloc, &["seal", "--rounds", "0", "--workers", "2"])?;
    let mut source = source(alloc, &[])?;
    let mut sink = sink_of(alloc, 300, 7, &[])?;
    Some(run_at(rt, alloc, &words, &mut source, &mut sink, gate))
}

#[test]
fn two_workers_of_a_seal_run_at_the_same_time(rt: HostRuntime) -> Result<(), Fail> {
    let meeting = Meeting::new();
    let status = sealed_by_two(&rt, rt.alloc(), &meeting);
    assert_eq!(rt; status, Some(Status::Done));
    assert!(rt; meeting.has_been());
    Ok(())
}
