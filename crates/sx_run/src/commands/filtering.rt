//! `filter`: a state, candidates, and nothing more. The candidates that are kept are written.

ghost use Rattle.std.specs.Prelude.{◌≡◌, ◌≤◌, [], ◌∷◌, IsErrOf, IsTrue};
ghost use Rattle.sx_base.specs.Outside.{Rose};
ghost use Rattle.sx_input.specs.Found.{ConcludesAs, Found};
ghost use Rattle.sx_input.specs.Stream.{UnlessReadFault};
ghost use Rattle.sx_meaning.specs.Items as item;
ghost use Rattle.sx_run.specs.Filtering.{IsStoppedBy};
ghost use Rattle.sx_tx.specs.Transactions.{IsTxList};

use crate::candidates_writing::candidates_in_pieces;
use crate::pieces::Pieces;
use std::alloc::Global;
use std::thread::Threads;
use sx_base::Source;
use sx_block::Invalid;
use sx_filter::{FilterFault, IndexedLedger, filter_list};
use sx_input::{Stop, end, take};
use sx_ledger::Ledger;
use sx_tx::TxParts;
use sx_words::Command;

// Why a filter stops.
fn stop_of(fault: FilterFault) -> Stop
    ensures { IsStoppedBy fault result }
{
    match fault {
        FilterFault::NoMemory => Stop::NoMemory,
        FilterFault::Ended => Stop::Refused {
            block: 0,
            why: Invalid::Ended,
        },
        FilterFault::Crowded { have, more, limit } => Stop::Refused {
            block: 0,
            why: Invalid::Crowded { have, more, limit },
        },
    }
}

// The record of the candidates that are kept, or why there is no room for all of them.
fn kept<R: Threads + Sync>(
    rt: &R,
    alloc: Global,
    ledger: IndexedLedger,
    candidates: TxParts,
    workers: u32,
) -> Result<Pieces, Stop>
    requires candidates { IsTxList candidates }
    requires some_worker { 1 ≤ workers }
    requires few_workers { workers ≤ 64 }
    ensures concludes { ConcludesAs (Command.Filter workers) (item.state ledger ∷ item.candidates candidates ∷ []) result }
    ensures calm { IsErrOf result Stop.ReadFault → ⊥ }
{
    match filter_list(rt, alloc, ledger, candidates, workers) {
        Ok(kept) => Ok(candidates_in_pieces(rt, alloc, &kept, workers)?),
        Err(fault) => Err(stop_of(fault)),
    }
}

/// The record of those candidates of the input that no other candidate stands in the way of.
pub fn filter<R: Threads + Sync, S: Source>(
    rt: &R,
    alloc: Global,
    workers: u32,
    source: &mut S,
) -> Result<Pieces, Stop>
    requires some_worker { 1 ≤ workers }
    requires few_workers { workers ≤ 64 }
    ensures found { Found (Command.Filter workers) (S.left source.old) (S.left source.new) result }
    ensures steady { UnlessReadFault result (IsTrue (S.strict source.old) → S.faults source.new ≡ S.faults source.old) }
    ensures read_fault { IsErrOf result Stop.ReadFault → Rose (S.faults source.old) (S.faults source.new) }
{
    let opening = take::<Ledger, R, S>(rt, alloc, source, 0)?;
    let ledger = IndexedLedger::start(rt, alloc, opening.held)?;
    let candidates = take::<TxParts, R, S>(rt, alloc, source, opening.end)?;
    end(alloc, source, candidates.end)?;
    kept(rt, alloc, ledger, candidates.held, workers)
}
