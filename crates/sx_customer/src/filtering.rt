//! Filters.

ghost use Rattle.std.specs.Prelude.{◌≡◌, ℕ, []};
ghost use Rattle.sx_customer.specs.Asked.{Tells};
ghost use Rattle.sx_customer.specs.Filtered.{Filtered, IsKept};
ghost use Rattle.sx_meaning.specs.Outputs.{MayWrite};

use std::alloc::Global;
use std::sync::ledger::Ledger;
use std::thread::Threads;
use sx_base::{MemSink, MemSource};
use sx_net::Steps;
use sx_run::{Status, input_laws, run};
use sx_words::Command;
use sx_workers::Gate;

/// Writes those candidates of the source that no other stands in the way of.
pub fn filter<R: Threads + Sync, G: Gate + Sync, L: Ledger>(
    rt: &R,
    alloc: Global,
    words: &[String],
    source: &mut MemSource,
    sink: &mut MemSink,
    gate: &G,
    steps: &mut Steps<L>,
) -> Status
    ensures filtered { (workers : ℕ) →
        Tells words.now (Command.Filter workers) result sink.old.written sink.new.written
        (Filtered source.old.left) }
    // They go together into one block, whatever the order in which they are gathered.
    ensures kept { (workers : ℕ) →
        Tells words.now (Command.Filter workers) result sink.old.written sink.new.written
        (IsKept source.old.left) }
    // Any other number of workers may write the same.
    ensures alike { (workers others : ℕ) →
        Tells words.now (Command.Filter workers) result sink.old.written sink.new.written
        (λ text. MayWrite (Command.Filter others) source.old.left text []) }
{
    input_laws();
    run(rt, alloc, words, source, sink, gate, steps)
}
