//! Gathering by workers.

ghost use Rattle.std.specs.Prelude.{◌≡◌, ◌+◌, ◌<◌, ◌≤◌, [], length, vec_len, IfOk, IfErr, Err};
ghost use Rattle.sx_gather.specs.Passes.{IsPassOf};
ghost use Rattle.sx_gather.specs.Start.{fault_of as the_fault, IsFaultOf};
ghost use Rattle.sx_outcome.specs.declared.space.NoRoom.{NoRoom as WhyNoRoom};
ghost use Rattle.sx_outcome.specs.Gathering.{IsGathered};
ghost use Rattle.sx_outcome.specs.Room.{room_for};
ghost use Rattle.sx_tx.specs.Transactions.{most_transactions};
ghost use Rattle.sx_workers.specs.Passing.{AreHeld, IsDone};

use crate::gate::Gate;
use crate::parts::{split_all, working};
use crate::working::work_all;
use std::alloc::Global;
use std::thread::Threads;
use sx_gather::{Gather, GatherFault, Pass, Sealed, par_seal_list, seal_list};
use sx_ledger::Ledger;
use sx_outcome::{OutcomeLog, room};
use sx_tx::{Tx, TxList};

// All passes joined, in the order of their parts.
fn join_all(gather: &Gather, n: u32, mut slots: Vec<Option<Pass>>) -> Pass
    requires some { 1 ≤ n }
    requires one_each { vec_len slots ≡ n }
    requires done { AreHeld (IsDone gather.now n) n slots.items }
    ensures of { IsPassOf gather.now result }
    ensures from { result.from ≡ 0 }
    ensures next { result.next ≡ length gather.now.candidates }
    ensures end { result.end ≡ length gather.now.candidates }
{
    let mut whole = slots.pop().unwrap().unwrap();
    while let Some(slot) = slots.pop() {
        gather.join(&mut whole, slot.unwrap());
    }
    whole
}

// Has workers decide all candidates, and answers the gathering and the pass that has decided them.
fn decided<'a, R: Threads + Sync, G: Gate + Sync>(
    rt: &R,
    alloc: Global,
    ledger: &'a Ledger,
    candidates: &'a [Tx],
    shards: u32,
    workers: u32,
    gate: &G,
) -> Result<(Gather<'a>, Pass), GatherFault>
    requires few_candidates { length candidates.now ≤ most_transactions }
    requires some_shard { 1 ≤ shards }
    requires few_shards { shards ≤ 64 }
    requires some_worker { 1 ≤ workers }
    requires few_workers { workers ≤ 64 }
    ensures parts { IfOk result (λ made. made.0.parts ≡ ledger.now) }
    ensures candidates { IfOk result (λ made. made.0.candidates ≡ candidates.now) }
    ensures of { IfOk result (λ made. IsPassOf made.0 made.1) }
    ensures from { IfOk result (λ made. made.1.from ≡ 0) }
    ensures done { IfOk result (λ made. made.1.next ≡ made.1.end) }
    ensures all { IfOk result (λ made. made.1.end ≡ length made.0.candidates) }
    ensures no_room { (why : WhyNoRoom) → room_for ledger.now candidates.now ≡ Err why → result ≡ Err (the_fault why) }
    ensures fault { IfErr result (IsFaultOf (room_for ledger.now candidates.now)) }
{
    let (gather, first) = Gather::start(alloc, ledger, candidates, shards)?;
    let count = candidates.len() as u32;
    let n = working(workers, count);
    let mut slots = split_all(alloc, &gather, first, count, n)?;
    work_all(rt, &gather, gate, n, &mut slots);
    let whole = join_all(&gather, n, slots);
    Ok((gather, whole))
}

// What is gathered of no candidates: an empty body, which is the empty list that is handed over, and no outcomes.
// It takes no memory.
fn of_none(alloc: Global, ledger: &Ledger, candidates: TxList) -> Result<Sealed, GatherFault>
    requires none { candidates ≡ [] }
    ensures gathered { IfOk result (λ sealed. IsGathered ledger.now candidates sealed.outcomes sealed.txs) }
    ensures no_room { (why : WhyNoRoom) → room_for ledger.now candidates ≡ Err why → result ≡ Err (the_fault why) }
    ensures fault { IfErr result (IsFaultOf (room_for ledger.now candidates)) }
{
    room(ledger, candidates.items())?;
    let outcomes = OutcomeLog::with_capacity(alloc, 0)?.into_packed();
    Ok(Sealed {
        txs: candidates,
        outcomes,
    })
}

/// Gathers at most 1,000,000 candidates of a ledger by 1 to 64 workers, on 1 to 64 shards. The gate is called
/// before each candidate. The answer is the body of a block and the outcomes of all candidates, and they are
/// those of a gathering for every number of workers and whatever their threads do.
///
/// With w the lesser of the number of workers and of candidates, and at least 1, worker k has the candidates
/// from `count * k / w`, rounded down, up to where those of the next worker begin. Where there are several, each is
/// a thread, and threads sort the body too. The call returns where its threads return.
///
/// `Ended` comes exactly at the greatest height, `2^63 - 1`, else `Crowded` for the accounts exactly where those
/// that the candidates create would pass 65,536, else for the offers exactly where those that they make would
/// pass 262,144. Otherwise it may answer `NoMemory`. All memory but that of the sealing is taken before the
/// first worker starts. Where there are no candidates, none is taken and no thread starts.
pub fn gather_all<R: Threads + Sync, G: Gate + Sync>(
    rt: &R,
    alloc: Global,
    ledger: &Ledger,
    candidates: &[Tx],
    shards: u32,
    workers: u32,
    gate: &G,
) -> Result<Sealed, GatherFault>
    requires few_candidates { length candidates.now ≤ most_transactions }
    requires some_shard { 1 ≤ shards }
    requires few_shards { shards ≤ 64 }
    requires some_worker { 1 ≤ workers }
    requires few_workers { workers ≤ 64 }
    ensures gathered { IfOk result (λ sealed. IsGathered ledger.now candidates.now sealed.outcomes sealed.txs) }
    ensures no_room { (why : WhyNoRoom) → room_for ledger.now candidates.now ≡ Err why → result ≡ Err (the_fault why) }
    ensures fault { IfErr result (IsFaultOf (room_for ledger.now candidates.now)) }
{
    if candidates.is_empty() {
        return of_none(alloc, ledger, TxList::of(Vec::new(alloc)));
    }
    let (gather, whole) = decided(rt, alloc, ledger, candidates, shards, workers, gate)?;
    let sealed = if workers == 1 {
        gather.seal(whole)?
    } else {
        gather.par_seal(rt, whole)?
    };
    Ok(sealed)
}

/// The same of a list that the caller needs no more: the body is made in its memory. All memory is taken before
/// the first worker starts, and none where there are no candidates.
pub fn gather_list<R: Threads + Sync, G: Gate + Sync>(
    rt: &R,
    alloc: Global,
    ledger: &Ledger,
    candidates: TxList,
    shards: u32,
    workers: u32,
    gate: &G,
) -> Result<Sealed, GatherFault>
    requires few_candidates { length candidates ≤ most_transactions }
    requires some_shard { 1 ≤ shards }
    requires few_shards { shards ≤ 64 }
    requires some_worker { 1 ≤ workers }
    requires few_workers { workers ≤ 64 }
    ensures gathered { IfOk result (λ sealed. IsGathered ledger.now candidates sealed.outcomes sealed.txs) }
    ensures no_room { (why : WhyNoRoom) → room_for ledger.now candidates ≡ Err why → result ≡ Err (the_fault why) }
    ensures fault { IfErr result (IsFaultOf (room_for ledger.now candidates)) }
{
    let items = candidates.items();
    if items.is_empty() {
        return of_none(alloc, ledger, candidates);
    }
    let (gather, whole) = decided(rt, alloc, ledger, items, shards, workers, gate)?;
    let outcomes = gather.outcomes(whole);
    let sealed = if workers == 1 {
        seal_list(candidates, outcomes)
    } else {
        par_seal_list(rt, candidates, outcomes)
    };
    Ok(sealed)
}
