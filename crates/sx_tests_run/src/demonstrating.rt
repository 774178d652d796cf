//! A demonstration, and whether its workers run at the same time.

use crate::counting::run_at;
use crate::meeting::Meeting;
use crate::streams::{sink_of, source_of, words_of};
use std::alloc::Global;
use std::test::Fail;
use std::thread::Threads;
use sx_run::Status;
use sx_workers::Gate;

// How a demonstration by two workers ends, with this gate before each candidate, and how many bytes are
// written. The source fails at its first call.
fn demonstrated<R: Threads + Sync, G: Gate + Sync>(
    rt: &R,
    alloc: Global,
    gate: &G,
) -> Option<(Status, usize)> {
    let words = words_of(alloc, &["demo", "1", "--workers", "2"])?;
    let mut source = source_of(alloc, Vec::from_slice(alloc, &[9]).ok()?, 7, &[0])?;
    let mut sink = sink_of(alloc, 300, 7, &[])?;
    let status = run_at(rt, alloc, &words, &mut source, &mut sink, gate);
    Some((status, sink.written().len()))
}

#[test]
fn two_workers_of_a_demonstration_run_at_the_same_time(rt: HostRuntime) -> Result<(), Fail> {
    let meeting = Meeting::new();
    let ended = demonstrated(&rt, rt.alloc(), &meeting);
    assert_eq!(rt; ended, Some((Status::Done, 177)));
    assert!(rt; meeting.has_been());
    Ok(())
}
