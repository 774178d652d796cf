//! Any command, and what each answer says.

ghost use Rattle.std.specs.Prelude.{◌≡◌, ◌≢◌, ◌⊎◌, ◌≤◌, ◌+◌, ℕ, false, List, [], None, Some, IsTrue};
ghost use Rattle.sx_block.specs.declared.invalid.Invalid.{Invalid};
ghost use Rattle.sx_bytes.specs.declared.fault.FormFault.{FormFault};
ghost use Rattle.sx_customer.specs.Asked.{HasRisen, IsComplete, IsMalformed, WroteAll, WroteFirst};
ghost use Rattle.sx_meaning.specs.Answers.{asked, takes_no_input};
ghost use Rattle.sx_meaning.specs.Findings.{Finds, refused};
ghost use Rattle.sx_words.specs.declared.command.Command.{Command};

use std::alloc::Global;
use std::sync::ledger::Ledger;
use std::thread::Threads;
use sx_base::{Sink, Source};
use sx_net::Steps;
use sx_run::{Status, run};
use sx_workers::Gate;

/// Runs the command that the words ask for.
///
/// At `ReadFault` and `WriteFault` the source or the sink failed; at `Malformed` a record has a fault of form; at
/// `NoMemory` memory ran out, and nothing else is known. See [`check`](crate::check) and
/// [`replay`](crate::replay) for `Refused`, and the call of each command for `Done`.
pub fn ask<R: Threads + Sync, S: Source, K: Sink, G: Gate + Sync, L: Ledger>(
    rt: &R,
    alloc: Global,
    words: &[String],
    source: &mut S,
    sink: &mut K,
    gate: &G,
    steps: &mut Steps<L>,
) -> Status
    // Words that ask for nothing are answered by Usage alone, if memory is there; nothing is read or written.
    ensures usage { result ≡ Status.Usage → asked words.now ≡ None }
    ensures no_command { asked words.now ≡ None → (source.new ≡ source.old) × (sink.new ≡ sink.old)
        × ((result ≡ Status.Usage) ⊎ (result ≡ Status.NoMemory)) }

    // At Done a text that the command may write was written, and the whole source read.
    ensures done { (command : Command) (input old new : List ℕ) → asked words.now ≡ Some command →
        S.left source.old ≡ Some input → K.written sink.old ≡ Some old → K.written sink.new ≡ Some new →
        result ≡ Status.Done → WroteAll command input old new }
    ensures whole { (command : Command) (input : List ℕ) → asked words.now ≡ Some command →
        takes_no_input command ≡ false → S.left source.old ≡ Some input → result ≡ Status.Done →
        S.left source.new ≡ Some [] }

    // Nothing is written but by a command that is done, or one that the sink failed.
    ensures unwritten { result ≢ Status.Done → result ≢ Status.WriteFault → sink.new ≡ sink.old }
    ensures cut_off { (command : Command) (input old new : List ℕ) → asked words.now ≡ Some command →
        S.left source.old ≡ Some input → K.written sink.old ≡ Some old → K.written sink.new ≡ Some new →
        result ≡ Status.WriteFault → WroteFirst command input old new }

    // A fault of reading or writing is told exactly where one was counted, if the counts are strict.
    ensures read_fault { result ≡ Status.ReadFault → HasRisen (S.faults source.old) (S.faults source.new) }
    ensures write_fault { result ≡ Status.WriteFault → HasRisen (K.faults sink.old) (K.faults sink.new) }
    ensures steady_source { result ≢ Status.ReadFault → IsTrue (S.strict source.old) →
        S.faults source.new ≡ S.faults source.old }
    ensures steady_sink { result ≢ Status.WriteFault → IsTrue (K.strict sink.old) →
        K.faults sink.new ≡ K.faults sink.old }

    // Malformed tells the first fault of form.
    ensures malformed { (command : Command) (input : List ℕ) (fault : FormFault) → asked words.now ≡ Some command →
        S.left source.old ≡ Some input → result ≡ Status.Malformed fault → IsMalformed command input fault }

    // Of a source that does not tell its bytes, what is answered is so of some bytes.
    ensures refused_untold { (command : Command) (number : ℕ) (why : Invalid) → asked words.now ≡ Some command →
        S.left source.old ≡ None → result ≡ Status.Refused number why →
        (input : List ℕ) × (left : List ℕ) × Finds command input (refused number why) left }
    ensures done_untold { (command : Command) (old new : List ℕ) → asked words.now ≡ Some command →
        S.left source.old ≡ None → K.written sink.old ≡ Some old → K.written sink.new ≡ Some new →
        result ≡ Status.Done → (input : List ℕ) × WroteAll command input old new }

    // Where no fault was counted, the answer is what is found of the input, unless memory ran out.
    ensures complete { (command : Command) (input : List ℕ) → asked words.now ≡ Some command →
        S.left source.old ≡ Some input → ¬ HasRisen (S.faults source.old) (S.faults source.new) →
        ¬ HasRisen (K.faults sink.old) (K.faults sink.new) → IsComplete command input result }

    // A call makes at most so many searches of circulations, whatever it is asked for.
    ensures counted { steps.new ≤ steps.old + 29000400 }
    ensures rising { steps.old ≤ steps.new }
{
    run(rt, alloc, words, source, sink, gate, steps)
}
