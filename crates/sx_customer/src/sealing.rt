//! Seals and demonstrations.

ghost use Rattle.std.specs.Prelude.{◌≡◌, ℕ, []};
ghost use Rattle.sx_block.specs.declared.invalid.Invalid.{Invalid};
ghost use Rattle.sx_customer.specs.Asked.{Tells};
ghost use Rattle.sx_customer.specs.Demonstrated.{Demonstrated};
ghost use Rattle.sx_customer.specs.Sealed.{Gathered, HasNoRoom, Sealed};
ghost use Rattle.sx_meaning.specs.Answers.{asked};
ghost use Rattle.sx_meaning.specs.Outputs.{MayWrite};

use std::alloc::Global;
use std::sync::ledger::Ledger;
use std::thread::Threads;
use sx_base::{MemSink, MemSource};
use sx_net::Steps;
use sx_run::{Status, run};
use sx_words::Command;
use sx_workers::Gate;

/// Makes a block of the candidates of the source, on its state.
///
/// Where the words ask for a seal and the answer is `Done`, the sink has the record of a block and that of an outcome
/// for each candidate. The block is valid for the state and fair to its accounts, and a check and a replay say so.
pub fn seal<R: Threads + Sync, G: Gate + Sync, L: Ledger>(
    rt: &R,
    alloc: Global,
    words: &[String],
    source: &mut MemSource,
    sink: &mut MemSink,
    gate: &G,
    steps: &mut Steps<L>,
) -> Status
    // What the block does to balances, offers and totals, and what a check and a replay say of it.
    ensures sealed { (workers shards mu rounds searches : ℕ) →
        Tells words.now (Command.Seal workers shards mu rounds searches) result sink.old.written sink.new.written
        (Sealed mu rounds searches source.old.left) }
    // How the block and the outcomes come from the candidates.
    ensures gathered { (workers shards mu rounds searches : ℕ) →
        Tells words.now (Command.Seal workers shards mu rounds searches) result sink.old.written sink.new.written
        (Gathered mu rounds searches source.old.left) }
    // Any other number of workers and shards may write the same.
    ensures alike { (workers shards mu rounds searches others more : ℕ) →
        Tells words.now (Command.Seal workers shards mu rounds searches) result sink.old.written sink.new.written
        (λ text. MayWrite (Command.Seal others more mu rounds searches) source.old.left text []) }
    // The whole source was read.
    ensures whole { (workers shards mu rounds searches : ℕ) →
        asked words.now ≡ Some (Command.Seal workers shards mu rounds searches) → result ≡ Status.Done →
        source.new.left ≡ [] }
    // It is refused only where no block could take all candidates, and then nothing is written.
    ensures refused { (workers shards mu rounds searches number : ℕ) (why : Invalid) →
        asked words.now ≡ Some (Command.Seal workers shards mu rounds searches) →
        result ≡ Status.Refused number why → HasNoRoom source.old.left number why × (sink.new ≡ sink.old) }
{
    run(rt, alloc, words, source, sink, gate, steps)
}

/// Makes a block of a market that is drawn from a number, and writes its summary.
///
/// The block is fair to the accounts of the market.
pub fn demonstrate<R: Threads + Sync, G: Gate + Sync, L: Ledger>(
    rt: &R,
    alloc: Global,
    words: &[String],
    source: &mut MemSource,
    sink: &mut MemSink,
    gate: &G,
    steps: &mut Steps<L>,
) -> Status
    ensures demonstrated { (number workers : ℕ) →
        Tells words.now (Command.Demo number workers) result sink.old.written sink.new.written
        (Demonstrated number) }
    // Any other number of workers may write the same.
    ensures alike { (number workers others : ℕ) →
        Tells words.now (Command.Demo number workers) result sink.old.written sink.new.written
        (λ text. MayWrite (Command.Demo number others) source.old.left text source.old.left) }
    // Nothing is read.
    ensures unread { (number workers : ℕ) → asked words.now ≡ Some (Command.Demo number workers) →
        source.new ≡ source.old }
{
    run(rt, alloc, words, source, sink, gate, steps)
}
