//! The top call with no gate and a new counter of searches.

ghost use Rattle.std.specs.Prelude.{◌≡◌, ◌<◌};

use std::alloc::Global;
use std::marker::Brand;
use std::sync::ledger::{Blank, Ledger};
use std::thread::Threads;
use sx_base::{Sink, Source};
use sx_net::Steps;
use sx_run::Status;
use sx_workers::{Gate, NoGate};

fn run_counted<R: Threads + Sync, S: Source, K: Sink, G: Gate + Sync, L: Ledger>(
    rt: &R,
    alloc: Global,
    words: &[String],
    source: &mut S,
    sink: &mut K,
    gate: &G,
    blank: Blank,
) -> Status
    requires name { blank.name ≡ L.name }
    requires parts { blank.parts ≡ L.parts }
    requires some { 0 < blank.parts }
{
    let mut steps = Steps::<L>::new(blank);
    sx_run::run(rt, alloc, words, source, sink, gate, &mut steps)
}

/// The top call with this gate.
pub fn run_at<R: Threads + Sync, S: Source, K: Sink, G: Gate + Sync>(
    rt: &R,
    alloc: Global,
    words: &[String],
    source: &mut S,
    sink: &mut K,
    gate: &G,
) -> Status {
    run_counted::<_, _, _, _, Brand>(rt, alloc, words, source, sink, gate, Blank::new(1))
}

/// The top call without a gate.
pub fn run<R: Threads + Sync, S: Source, K: Sink>(
    rt: &R,
    alloc: Global,
    words: &[String],
    source: &mut S,
    sink: &mut K,
) -> Status {
    run_at(rt, alloc, words, source, sink, &NoGate)
}
