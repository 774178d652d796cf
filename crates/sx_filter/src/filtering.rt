//! The candidates that a filter keeps.

ghost use Rattle.std.specs.Prelude.{◌≡◌, ◌≤◌, List, length, IfOk, IfErr, OnOk, Ok, Err};
ghost use Rattle.sx_filter.specs.ByRange.{IsPrepared};
ghost use Rattle.sx_filter.specs.Fault.{fault_of as the_fault, IsFaultOf};
ghost use Rattle.sx_filter.specs.Kept.{kept_of};
ghost use Rattle.sx_filter.specs.Joined.{AreSiftedParts};
ghost use Rattle.sx_outcome.specs.declared.space.NoRoom.{NoRoom as WhyNoRoom};
ghost use Rattle.sx_outcome.specs.Room.{room_for};
ghost use Rattle.sx_ledger.specs.Body.{IsAdmissible};
ghost use Rattle.sx_ledger.specs.Ledger.{ids};
ghost use Rattle.sx_tx.specs.declared.tx.Tx.{Tx as Transaction};
ghost use Rattle.sx_tx.specs.Transactions.{most_transactions};

use crate::fault::FilterFault;
use crate::indexed::IndexedLedger;
use crate::keeping::kept_in_parts;
use crate::parting::sifted_ranges;
use crate::parts::{Prepared, prepared_of, room_for_parts};
use crate::sift::Sifted;
use std::alloc::Global;
use std::thread::Threads;
use sx_bytes::NoMemory;
use sx_ledger::{Ledger, LedgerIndex};
use sx_outcome::{room, room_for_additions};
use sx_tx::{Tx, TxList, TxParts};

// A copy of candidates, in one part.
fn copy_of(alloc: Global, candidates: &[Tx]) -> Result<TxParts, NoMemory>
    ensures { IfOk result (λ copy. copy ≡ candidates.now) }
{
    let mut parts = Vec::with_capacity(alloc, 1)?;
    parts.push(TxList::of(candidates.to_vec(alloc)?))?;
    Ok(TxParts::of(parts))
}

// Candidates by ranges of accounts, where there is room for them, which is told even where memory runs out.
fn prepared_with_room<R: Threads + Sync>(
    rt: &R,
    alloc: Global,
    ledger: &Ledger,
    candidates: TxParts,
    workers: u32,
) -> Result<Prepared, FilterFault>
    requires some_worker { 1 ≤ workers }
    requires few { length candidates ≤ most_transactions }
    ensures prepared { IfOk result (IsPrepared candidates) }
    ensures has_room { OnOk result (room_for ledger.now candidates ≡ Ok tt) }
    ensures no_room { (why : WhyNoRoom) → room_for ledger.now candidates ≡ Err why → result ≡ Err (the_fault why) }
    ensures fault { IfErr result (IsFaultOf (room_for ledger.now candidates)) }
{
    match prepared_of(rt, alloc, ledger, &candidates, workers) {
        Ok(prepared) => {
            room_for_additions(ledger, prepared.more)?;
            Ok(prepared)
        }
        Err(NoMemory) => {
            room_for_parts(ledger, &candidates)?;
            Err(FilterFault::NoMemory)
        }
    }
}

// Those that pass, sifted by ranges of accounts. What was prepared goes as soon as these are found.
fn sifted<R: Threads + Sync>(
    rt: &R,
    alloc: Global,
    ledger: &Ledger,
    index: &LedgerIndex,
    prepared: Prepared,
) -> Result<Vec<Sifted>, NoMemory>
    requires index { index.now ≡ ids ledger.now.accounts }
    ensures { (candidates : List Transaction) → IsPrepared candidates prepared
        → IfOk result (λ all. AreSiftedParts ledger.now candidates all.items) }
{
    sifted_ranges(rt, alloc, ledger, index, &prepared.parts, &prepared.cuts)
}

// What is kept of candidates, whether or not there is room for them.
fn kept<R: Threads + Sync>(
    rt: &R,
    alloc: Global,
    ledger: &Ledger,
    index: &LedgerIndex,
    prepared: Prepared,
) -> Result<TxParts, NoMemory>
    requires index { index.now ≡ ids ledger.now.accounts }
    ensures { (candidates : List Transaction) → IsPrepared candidates prepared
        → IfOk result (λ txs. txs ≡ kept_of ledger.now candidates) }
{
    let all = sifted(rt, alloc, ledger, index, prepared)?;
    kept_in_parts(rt, alloc, all)
}

/// Chooses of at most 1,000,000 candidates of a ledger those that no other candidate stands in the way of,
/// sorted by account and then by sequence number. The work is shared among 1 to 64 workers by ranges of accounts. The
/// answer is the same for every number of them. It works on a copy of the candidates, where there is room for them.
///
/// A candidate is kept where the ledger's own test passes it and, among all that pass, no other has its account and
/// number, no other cancels its offer, no other creates its account, and its account holds of each asset
/// at least as much as all of the account's candidates together debit.
///
/// `Ended` comes exactly at the greatest height, `2^63 - 1`, else `Crowded` for the accounts exactly where
/// those that the candidates create would pass 65,536, else for the offers exactly where those that they
/// make would pass 262,144. Otherwise it may answer `NoMemory`.
pub fn filter<R: Threads + Sync>(
    rt: &R,
    alloc: Global,
    ledger: &Ledger,
    candidates: &[Tx],
    workers: u32,
) -> Result<TxList, FilterFault>
    requires few_candidates { length candidates.now ≤ most_transactions }
    requires some_worker { 1 ≤ workers }
    requires few_workers { workers ≤ 64 }
    ensures kept { IfOk result (λ txs. txs ≡ kept_of ledger.now candidates.now) }
    ensures admissible { IfOk result (λ txs. IsAdmissible ledger.now txs) }
    ensures few { IfOk result (λ txs. length txs ≤ length candidates.now) }
    ensures no_room { (why : WhyNoRoom) → room_for ledger.now candidates.now ≡ Err why → result ≡ Err (the_fault why) }
    ensures fault { IfErr result (IsFaultOf (room_for ledger.now candidates.now)) }
{
    room(ledger, candidates)?;
    let index = ledger.index()?;
    let copy = copy_of(alloc, candidates)?;
    let prepared = prepared_of(rt, alloc, ledger, &copy, workers)?;
    let txs = kept(rt, alloc, ledger, &index, prepared)?;
    Ok(txs.into_list(alloc)?)
}

/// The same of candidates in parts, which the caller needs no more, and of a ledger whose index a thread may still be
/// making. No copy is made of the candidates, and their memory serves again as soon as they stand by ranges. What is kept
/// comes in parts too, many short ones, each of some accounts. Some may be empty.
pub fn filter_list<R: Threads + Sync>(
    rt: &R,
    alloc: Global,
    ledger: IndexedLedger,
    candidates: TxParts,
    workers: u32,
) -> Result<TxParts, FilterFault>
    requires few_candidates { length candidates ≤ most_transactions }
    requires some_worker { 1 ≤ workers }
    requires few_workers { workers ≤ 64 }
    ensures kept { IfOk result (λ txs. txs ≡ kept_of ledger candidates) }
    ensures admissible { IfOk result (λ txs. IsAdmissible ledger txs) }
    ensures few { IfOk result (λ txs. length txs ≤ length candidates) }
    ensures no_room { (why : WhyNoRoom) → room_for ledger candidates ≡ Err why → result ≡ Err (the_fault why) }
    ensures fault { IfErr result (IsFaultOf (room_for ledger candidates)) }
{
    let prepared = prepared_with_room(rt, alloc, ledger.ledger(), candidates, workers)?;
    let (ledger, index) = ledger.whole(rt)?;
    Ok(kept(rt, alloc, &ledger, &index, prepared)?)
}
