//! Proofs of one account.

ghost use Rattle.std.specs.Prelude.{◌≡◌, ◌⊎◌, ℕ, []};
ghost use Rattle.sx_customer.specs.Asked.{Tells};
ghost use Rattle.sx_customer.specs.Proved.{IsGoodProof, Proved, Verified};

use std::alloc::Global;
use std::sync::ledger::Ledger;
use std::thread::Threads;
use sx_base::{MemSink, MemSource};
use sx_net::Steps;
use sx_run::{Status, run};
use sx_words::Command;
use sx_workers::Gate;

/// Writes what shows the account of an id without the state, or nothing where there is no such account.
pub fn prove<R: Threads + Sync, G: Gate + Sync, L: Ledger>(
    rt: &R,
    alloc: Global,
    words: &[String],
    source: &mut MemSource,
    sink: &mut MemSink,
    gate: &G,
    steps: &mut Steps<L>,
) -> Status
    ensures proved { (id : ℕ) →
        Tells words.now (Command.Prove id) result sink.old.written sink.new.written (Proved id source.old.left) }
    // A verification of what was written says that it is good.
    ensures good { (id : ℕ) →
        Tells words.now (Command.Prove id) result sink.old.written sink.new.written
        (λ text. (text ≡ []) ⊎ IsGoodProof id text) }
{
    run(rt, alloc, words, source, sink, gate, steps)
}

/// Writes whether a proof of an account is good.
pub fn verify<R: Threads + Sync, G: Gate + Sync, L: Ledger>(
    rt: &R,
    alloc: Global,
    words: &[String],
    source: &mut MemSource,
    sink: &mut MemSink,
    gate: &G,
    steps: &mut Steps<L>,
) -> Status
    ensures { Tells words.now Command.Verify result sink.old.written sink.new.written (Verified source.old.left) }
{
    run(rt, alloc, words, source, sink, gate, steps)
}
