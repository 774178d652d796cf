//! One block, and chains of blocks.

ghost use Rattle.std.specs.Prelude.{◌≡◌, ℕ, Some};
ghost use Rattle.sx_block.specs.declared.invalid.Invalid.{Invalid};
ghost use Rattle.sx_customer.specs.Asked.{Tells};
ghost use Rattle.sx_customer.specs.Replayed.{CheckRefused, Checked, Followed, ReplayRefused, Replayed};
ghost use Rattle.sx_meaning.specs.Answers.{asked};

use std::alloc::Global;
use std::sync::ledger::Ledger;
use std::thread::Threads;
use sx_base::{MemSink, MemSource};
use sx_net::Steps;
use sx_run::{Status, chain_laws, run};
use sx_words::Command;
use sx_workers::Gate;

/// Tells whether a block is valid for a state, or the first reason why it is not.
pub fn check<R: Threads + Sync, G: Gate + Sync, L: Ledger>(
    rt: &R,
    alloc: Global,
    words: &[String],
    source: &mut MemSource,
    sink: &mut MemSink,
    gate: &G,
    steps: &mut Steps<L>,
) -> Status
    ensures checked { Tells words.now Command.Check result sink.old.written sink.new.written (Checked source.old.left) }
    // The first rule that the block breaks is told, and nothing is written.
    ensures refused { (number : ℕ) (why : Invalid) → asked words.now ≡ Some Command.Check →
        result ≡ Status.Refused number why → CheckRefused source.old.left number why × (sink.new ≡ sink.old) }
{
    run(rt, alloc, words, source, sink, gate, steps)
}

/// Runs a chain of blocks on a state, and writes the state after it, or tells the first block that is not valid.
pub fn replay<R: Threads + Sync, G: Gate + Sync, L: Ledger>(
    rt: &R,
    alloc: Global,
    words: &[String],
    source: &mut MemSource,
    sink: &mut MemSink,
    gate: &G,
    steps: &mut Steps<L>,
) -> Status
    ensures replayed { (workers : ℕ) →
        Tells words.now (Command.Replay workers) result sink.old.written sink.new.written
        (Replayed source.old.left) }
    ensures refused { (workers number : ℕ) (why : Invalid) → asked words.now ≡ Some (Command.Replay workers) →
        result ≡ Status.Refused number why → ReplayRefused source.old.left number why × (sink.new ≡ sink.old) }
{
    chain_laws();
    run(rt, alloc, words, source, sink, gate, steps)
}

/// Takes blocks in any order, and writes the state after the chain that they make.
pub fn follow<R: Threads + Sync, G: Gate + Sync, L: Ledger>(
    rt: &R,
    alloc: Global,
    words: &[String],
    source: &mut MemSource,
    sink: &mut MemSink,
    gate: &G,
    steps: &mut Steps<L>,
) -> Status
    ensures { Tells words.now Command.Follow result sink.old.written sink.new.written (Followed source.old.left) }
{
    run(rt, alloc, words, source, sink, gate, steps)
}
