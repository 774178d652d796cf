//! States in another version, records as text, and scripts.

ghost use Rattle.sx_customer.specs.Asked.{Tells};
ghost use Rattle.sx_customer.specs.Told.{Interleaved, Migrated, Shown};

use std::alloc::Global;
use std::sync::ledger::Ledger;
use std::thread::Threads;
use sx_base::{MemSink, MemSource};
use sx_net::Steps;
use sx_run::{Status, run};
use sx_words::Command;
use sx_workers::Gate;

/// Writes a state in version 2.
pub fn migrate<R: Threads + Sync, G: Gate + Sync, L: Ledger>(
    rt: &R,
    alloc: Global,
    words: &[String],
    source: &mut MemSource,
    sink: &mut MemSink,
    gate: &G,
    steps: &mut Steps<L>,
) -> Status
    ensures { Tells words.now Command.Migrate result sink.old.written sink.new.written (Migrated source.old.left) }
{
    run(rt, alloc, words, source, sink, gate, steps)
}

/// Writes a record as a text.
pub fn show<R: Threads + Sync, G: Gate + Sync, L: Ledger>(
    rt: &R,
    alloc: Global,
    words: &[String],
    source: &mut MemSource,
    sink: &mut MemSink,
    gate: &G,
    steps: &mut Steps<L>,
) -> Status
    ensures { Tells words.now Command.Show result sink.old.written sink.new.written (Shown source.old.left) }
{
    run(rt, alloc, words, source, sink, gate, steps)
}

/// Writes what becomes of candidates where a script says who makes the next step.
pub fn interleave<R: Threads + Sync, G: Gate + Sync, L: Ledger>(
    rt: &R,
    alloc: Global,
    words: &[String],
    source: &mut MemSource,
    sink: &mut MemSink,
    gate: &G,
    steps: &mut Steps<L>,
) -> Status
    ensures { Tells words.now Command.Interleave result sink.old.written sink.new.written
        (Interleaved source.old.left) }
{
    run(rt, alloc, words, source, sink, gate, steps)
}
