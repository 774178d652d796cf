//! The top call.

ghost use Rattle.std.specs.Prelude.{◌≡◌, ◌+◌, ◌≤◌, IfSome, IsErrOf, IsTrue};
ghost use Rattle.sx_base.specs.Outside.{Rose};
ghost use Rattle.sx_clear.specs.TradeSearches.{most_clearing_searches};
ghost use Rattle.sx_input.specs.Found.{Found};
ghost use Rattle.sx_input.specs.Stream.{UnlessReadFault};
ghost use Rattle.sx_meaning.specs.Answers.{Answers, Completes, FitsWords, IsRead, asked, reads_nothing, takes_no_input};
ghost use Rattle.sx_meaning.specs.Laws.{FollowsReplays};
ghost use Rattle.sx_meaning.specs.ProofLaws.{ProvedIsGood};
ghost use Rattle.sx_meaning.specs.SealLaws.{DemosAlike, DemosSettle, FiltersAlike, SealsAlike};
ghost use Rattle.sx_meaning.specs.SealLaws.{SealsLeaveTheirMeaning};
ghost use Rattle.sx_meaning.specs.Settling.{ReplaysSettle, ValidSettles};
ghost use Rattle.sx_meaning.specs.Status.{UnlessReadFails, UnlessWriteFails, is_silent};
ghost use Rattle.sx_run.specs.Running.{Tells, as_bytes, status_at};
ghost use Rattle.sx_run.specs.Numbers.{AreNumbers};
ghost use Rattle.sx_run.specs.Making.{seal_of};
ghost use Rattle.sx_words.specs.Commands.{InRange};

use crate::commands::interleaving::interleave;
use crate::commands::migrating::migrate;
use crate::commands::showing::show;
use crate::commands::{Numbers, check, demonstrate, filter, follow, prove, replay, seal, verify};
use crate::output::{Output, recorded, recorded_in_parts, told};
use std::alloc::Global;
use std::sync::ledger::Ledger;
use std::thread::Threads;
use sx_base::{Sink, Source};
use sx_input::Stop;
use sx_meaning::{chain_laws, input_laws};
use sx_net::Steps;
use sx_price::Mu;
use sx_text::Status;
use sx_words::{Command, WordsFault, parse};
use sx_workers::Gate;

// The numbers of a seal that words ask for.
fn numbers_of(workers: u32, shards: u32, mu: u8, rounds: u32, searches: u32) -> Numbers
    requires { InRange (Command.Seal workers shards mu rounds searches) }
    ensures range { AreNumbers result }
    ensures same { seal_of result ≡ Command.Seal workers shards mu rounds searches }
{
    match Mu::new(mu) {
        Ok(mu) => Numbers {
            workers,
            shards,
            mu,
            rounds,
            searches,
        },
        Err(_) => unreachable!(),
    }
}

// What a command writes, or why it stops.
fn output_of<R: Threads + Sync, S: Source, G: Gate + Sync, L: Ledger>(
    rt: &R,
    alloc: Global,
    command: Command,
    source: &mut S,
    gate: &G,
    steps: &mut Steps<L>,
) -> Result<Output, Stop>
    requires { InRange command }
    ensures found { Found command (S.left source.old) (S.left source.new) (as_bytes result) }
    ensures steady { UnlessReadFault (as_bytes result) (IsTrue (S.strict source.old) → S.faults source.new ≡ S.faults source.old) }
    ensures read_fault { IsErrOf (as_bytes result) Stop.ReadFault → Rose (S.faults source.old) (S.faults source.new) }
    ensures unread { IsTrue (takes_no_input command) → source.new ≡ source.old }
    ensures counted { steps.new ≤ steps.old + most_clearing_searches }
    ensures rising { steps.old ≤ steps.new }
{
    match command {
        Command::Check => told(check(rt, alloc, source)),
        Command::Replay { workers } => recorded(replay(rt, alloc, workers, source)),
        Command::Interleave => recorded(interleave(rt, alloc, source)),
        Command::Migrate => recorded_in_parts(migrate(rt, alloc, source)),
        Command::Show => told(show(rt, alloc, source)),
        Command::Filter { workers } => recorded_in_parts(filter(rt, alloc, workers, source)),
        Command::Prove { id } => recorded(prove(rt, alloc, id, source)),
        Command::Verify => told(verify(rt, alloc, source)),
        Command::Follow => recorded(follow(rt, alloc, source)),
        Command::Demo { number, workers } => {
            told(demonstrate(rt, alloc, number, workers, gate, steps))
        }
        Command::Seal {
            workers,
            shards,
            mu,
            rounds,
            searches,
        } => {
            let numbers = numbers_of(workers, shards, mu, rounds, searches);
            recorded_in_parts(seal(rt, alloc, numbers, source, gate, steps))
        }
    }
}

// The answer of a command that stopped.
fn status_of(stop: Stop) -> Status
    ensures { result ≡ status_at stop }
{
    match stop {
        Stop::NoMemory => Status::NoMemory,
        Stop::ReadFault => Status::ReadFault,
        Stop::Malformed(fault) => Status::Malformed(fault),
        Stop::Refused { block, why } => Status::Refused { block, why },
    }
}

// Writes the output, all of it, or answers why there is none.
fn conclude<K: Sink>(sink: &mut K, found: Result<Output, Stop>) -> Status
    ensures told { Tells (as_bytes found) (K.written sink.old) (K.written sink.new) result }
    ensures silent { IsTrue (is_silent result) → sink.new ≡ sink.old }
    ensures steady { UnlessWriteFails result (IsTrue (K.strict sink.old) → K.faults sink.new ≡ K.faults sink.old) }
    ensures write_fault { result ≡ Status.WriteFault → Rose (K.faults sink.old) (K.faults sink.new) }
{
    match found {
        Ok(output) => match output.put(sink) {
            Ok(()) => Status::Done,
            Err(_) => Status::WriteFault,
        },
        Err(stop) => status_of(stop),
    }
}

/// Runs the command that the words name, from the source to the sink.
///
/// `seal` reads a state and candidates, and writes a block of them, of version 1, and what became of each.
/// It takes `--workers`, how many threads gather (1 to 64, else 4), `--shards`, on how many shards (1 to 64,
/// else 16), `--mu`, the exponent of the margin (1 to 20, else 10), `--rounds` of a search for prices (0 to
/// 10,000, else 500), and `--searches`, how many searches run, the best of which posts its prices (1 to 8, else
/// 1). How many workers there are does not change what may be written. `check` reads a state and a block, and writes
/// one line where the block is valid for the state. `replay`, to which
/// `--workers` with a number from 1 to 64 may be added, reads a state and up to 1,000,000 blocks, each of which
/// may have the outcomes of its candidates after it, and writes the state after all of them, where each block is
/// valid for what the one before it left; so many workers apply each block. `interleave` reads a state, candidates
/// and a script of who makes the next step, and writes what becomes of each candidate. `Refused` says at `seal` and
/// `interleave` that the state has no room for all that the candidates ask for. `migrate` reads a state and writes
/// it in version 2. `show` reads one record of any kind but a proof, and writes what it holds as a text. `filter`,
/// to which `--workers` may be added (1 to 64, else 4), reads a state and candidates, and writes those candidates
/// that no other stands in the way of; `Refused` says the same as at `seal`. `prove` and an id read a state, and
/// write the root over its accounts and the proof of the account of this id, or nothing where there is none.
/// `verify` reads such a record, and writes one line that tells whether the proof is good for the root. `follow`
/// reads what a replay does, takes the blocks in any order, and writes the state after the chain that they make; it
/// refuses no block. `demo` and a number, to which `--workers` may be added, reads nothing: it makes a market from
/// the number, gathers its candidates by so many workers (1 to 64, else 4) on 16 shards, clears the market as a
/// seal does by default, and writes a summary of the block. See [`Status`] for the answers and for what is written
/// at each. What is answered of the bytes holds where the source tells those that it has left, and what is written
/// where the sink tells those that it holds.
///
/// The gate is called before each candidate of a seal or a demonstration, and no clause depends on it.
/// `steps` counts the searches of circulations, which these two alone make.
///
/// `seal`, `filter`, `prove` and `demo` return where their worker threads return, and `show` where those do, at most
/// four, that write the lines of many accounts, offers or transactions. At most four threads encode a state with many
/// accounts or offers for `migrate`, which returns where these return. `follow` has at most four threads make the
/// digests of transactions and of ledgers and apply blocks, and returns where these return. At most four threads
/// share the reading of a state with many offers and of many candidates, and a call returns where these return. For
/// `check`, `replay` and `seal` a thread makes the digest of a state whose payload has 1 MiB or more while what
/// follows is read, and for `filter` one makes the index of a state with 4,096 accounts or more. The call waits for
/// the thread where it needs the digest or the index; a call that stops before leaves the thread to end by itself. A
/// block whose transactions take 256 KiB or more is decoded while a thread of its own makes their digest, and the
/// call returns where that thread returns. Where no thread can be started, the two are done in turn. What a block
/// with many transactions names is looked up by threads, and a block that meets many accounts or fills is applied by
/// threads, at most four for `check`. For `seal` one encodes the offers that a block leaves, where these are 32,768 or
/// more. The call returns where these return.
pub fn run<R: Threads + Sync, S: Source, K: Sink, G: Gate + Sync, L: Ledger>(
    rt: &R,
    alloc: Global,
    words: &[String],
    source: &mut S,
    sink: &mut K,
    gate: &G,
    steps: &mut Steps<L>,
) -> Status
    // Usage comes exactly where the words are no command in its plain form, but that memory may run out.
    // Nothing is read then, and nothing for a demonstration.
    ensures usage { FitsWords (asked words.now) result }
    ensures unread { IsTrue (reads_nothing (asked words.now)) → source.new ≡ source.old }

    // The answer is what is found of the input: the first fault, or none. Then an output that the command may
    // write of the input is written, whole at Done, and up to some byte at WriteFault.
    ensures answer { IfSome (asked words.now) (λ command.
        Answers command (S.left source.old) (S.left source.new) (K.written sink.old) (K.written sink.new) result) }
    ensures read { result ≡ Status.Done → IfSome (asked words.now) (λ command.
        IsRead command (S.left source.old) (S.left source.new)) }

    // At every other answer nothing is written.
    ensures silent { IsTrue (is_silent result) → sink.new ≡ sink.old }

    // A fault of reading or writing comes only where the count of the source or the sink rose.
    ensures read_fault { result ≡ Status.ReadFault → Rose (S.faults source.old) (S.faults source.new) }
    ensures write_fault { result ≡ Status.WriteFault → Rose (K.faults sink.old) (K.faults sink.new) }

    // And no such fault is told as anything else, as NoMemory: where the count rises at failures
    // alone, it does not change at any other answer.
    ensures steady_source { UnlessReadFails result (IsTrue (S.strict source.old) → S.faults source.new ≡ S.faults source.old) }
    ensures steady_sink { UnlessWriteFails result (IsTrue (K.strict sink.old) → K.faults sink.new ≡ K.faults sink.old) }

    // Where neither count rose, what is found of the input is answered, unless memory ran out.
    ensures complete { (Rose (S.faults source.old) (S.faults source.new) → ⊥) →
        (Rose (K.faults sink.old) (K.faults sink.new) → ⊥) →
        IfSome (asked words.now) (λ command. Completes command (S.left source.old) result) }

    // However many workers and shards there are, a seal may write the same, and however many workers, a
    // demonstration and a filter.
    ensures any_workers { SealsAlike }
    ensures any_demo_workers { DemosAlike }
    ensures any_filter_workers { FiltersAlike }

    // What a seal writes is a block that a check finds valid and that settles, and a replay of the state and of
    // what was written, by any number of workers, writes the ledger after the block.
    ensures seals { SealsLeaveTheirMeaning }

    // The block of a demonstration settles.
    ensures demos { DemosSettle }

    // What is written of one account is nothing, or a record of which a verification tells that it is good.
    ensures proves { ProvedIsGood }

    // Where a replay writes a state, so does a follower that takes the same blocks.
    ensures follows { FollowsReplays }

    // The count of searches rises by at most this, whatever the words and the input are, and never falls.
    ensures counted { steps.new ≤ steps.old + most_clearing_searches }
    ensures rising { steps.old ≤ steps.new }

    // Each block of a replay settles: no debit is more than is there, offers trade within their limits, in
    // full where they must, unless a cut shows that not all can, and no circulation trades more.
    // Balances and offers fall by the rounding that the block records, and the ledger's rises by it.
    ensures checked_settles { ValidSettles }
    ensures replayed_settle { ReplaysSettle }
{
    input_laws();
    chain_laws();
    match parse(alloc, words) {
        Ok(command) => {
            let found = output_of(rt, alloc, command, source, gate, steps);
            conclude(sink, found)
        }
        Err(WordsFault::Usage) => Status::Usage,
        Err(WordsFault::NoMemory) => Status::NoMemory,
    }
}
