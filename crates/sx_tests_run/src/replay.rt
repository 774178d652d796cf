//! Replays and checks over a source and a sink in memory.

ghost use Rattle.std.specs.Prelude.{◌≤◌};

use crate::counting::run;
use crate::markets::{payment, payment_after};
use crate::recovering::{RecoveringSink, RecoveringSource};
use crate::streams::{sink_of, source_of, words_of};
use std::alloc::Global;
use std::thread::Threads;
use sx_base::{MemSource, Sink, Source};
use sx_run::Status;

// The input in pieces of this many bytes, from a source that fails at these calls.
fn source(alloc: Global, piece: usize, fails: &[u32]) -> Option<MemSource>
    requires { 1 ≤ piece }
{
    source_of(alloc, payment(alloc).ok()?, piece, fails)
}

fn replay<R: Threads + Sync, S: Source, K: Sink>(
    rt: &R,
    alloc: Global,
    source: &mut S,
    sink: &mut K,
) -> Option<Status> {
    let words = words_of(alloc, &["replay"])?;
    Some(run(rt, alloc, &words, source, sink))
}

// How many bytes were written, if they are a prefix of the state after the block.
fn prefix(written: &[u8]) -> Option<usize> {
    payment_after()
        .starts_with(written)
        .then_some(written.len())
}

// How a replay in pieces of this many bytes ends, and how many bytes of the right state are written.
fn replayed<R: Threads + Sync>(
    rt: &R,
    alloc: Global,
    piece: usize,
    source_fails: &[u32],
    room: usize,
    sink_fails: &[u32],
) -> Option<(Status, usize)>
    requires { 1 ≤ piece }
{
    let mut source = source(alloc, piece, source_fails)?;
    let mut sink = sink_of(alloc, room, piece, sink_fails)?;
    let status = replay(rt, alloc, &mut source, &mut sink)?;
    Some((status, prefix(sink.written())?))
}

#[test]
fn pieces_change_no_answer(rt: HostRuntime) {
    for piece in [1usize, 7, 300] {
        assert!(rt; piece >= 1);
        let ended = replayed(&rt, rt.alloc(), piece, &[], 100, &[]);
        assert_eq!(rt; ended, Some((Status::Done, 87)));
    }
}

// In pieces of 7 bytes the input and its end take 41 calls, and the output takes 13.
#[test]
fn a_failed_take_is_a_read_fault(rt: HostRuntime) {
    for (call, status, written) in [
        (0, Status::ReadFault, 0),
        (2, Status::ReadFault, 0),
        (20, Status::ReadFault, 0),
        (40, Status::ReadFault, 0),
        (41, Status::Done, 87),
    ] {
        let ended = replayed(&rt, rt.alloc(), 7, &[call], 100, &[]);
        assert_eq!(rt; ended, Some((status, written)));
    }
}

#[test]
fn a_failed_put_is_a_write_fault(rt: HostRuntime) {
    for (call, room, status, written) in [
        (0, 100, Status::WriteFault, 0),
        (1, 100, Status::WriteFault, 7),
        (12, 100, Status::WriteFault, 84),
        (13, 50, Status::WriteFault, 50),
        (13, 87, Status::Done, 87),
    ] {
        let ended = replayed(&rt, rt.alloc(), 7, &[], room, &[call]);
        assert_eq!(rt; ended, Some((status, written)));
    }
}

// How many bytes of the source are left after words that are no command.
fn left_at_usage<R: Threads + Sync>(rt: &R, alloc: Global, words: &[&str]) -> Option<usize> {
    let words = words_of(alloc, words)?;
    let mut source = source(alloc, 7, &[])?;
    let mut sink = sink_of(alloc, 100, 7, &[])?;
    let status = run(rt, alloc, &words, &mut source, &mut sink);
    (status == Status::Usage).then_some(source.left().len())
}

#[test]
fn nothing_is_read_at_usage(rt: HostRuntime) {
    assert_eq!(rt; left_at_usage(&rt, rt.alloc(), &[]), Some(260));
    assert_eq!(rt;
        left_at_usage(&rt, rt.alloc(), &["replay", "replay"]),
        Some(260)
    );
}

// How a replay ends whose every call is interrupted and recovers, and whether faults were counted.
fn recovered<R: Threads + Sync>(rt: &R, alloc: Global) -> Option<(Status, usize, bool)> {
    let mut source = RecoveringSource::new(source(alloc, 7, &[])?);
    let mut sink = RecoveringSink::new(sink_of(alloc, 100, 7, &[])?);
    let status = replay(rt, alloc, &mut source, &mut sink)?;
    let counted = source.faults() == 41 && sink.faults() == 13;
    Some((status, prefix(sink.written())?, counted))
}

#[test]
fn an_interruption_that_is_overcome_is_no_failure(rt: HostRuntime) {
    let ended = recovered(&rt, rt.alloc());
    assert_eq!(rt; ended, Some((Status::Done, 87, true)));
}

// Whether a check of the payment ends well and writes its line.
fn is_told_valid<R: Threads + Sync>(rt: &R, alloc: Global) -> Option<bool> {
    let words = words_of(alloc, &["check"])?;
    let mut source = source(alloc, 7, &[])?;
    let mut sink = sink_of(alloc, 100, 7, &[])?;
    let status = run(rt, alloc, &words, &mut source, &mut sink);
    Some(
        status == Status::Done
            && sink.written() == b"valid height 1 value 0 bounds kept\n".as_slice(),
    )
}

#[test]
fn a_valid_block_is_told(rt: HostRuntime) {
    assert_eq!(rt; is_told_valid(&rt, rt.alloc()), Some(true));
}
