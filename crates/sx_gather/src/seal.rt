//! The end of a gathering.

ghost use Rattle.std.specs.Prelude.{◌≡◌, length, IfOk};
ghost use Rattle.sx_gather.specs.Passes.{AreSeats, IsPassOf};
ghost use Rattle.sx_gather.specs.Seal.{HaveAll, HaveEnded, IsBodyOnceSorted};
ghost use Rattle.sx_outcome.specs.Gathering.{IsGathered, accepted as all_accepted, decisions};
ghost use Rattle.sx_ledger.specs.declared.parts.Parts.{Parts};

use crate::gather::Gather;
use crate::pass::Pass;
use crate::seat::PassSeat;
use std::thread::Threads;
use sx_bytes::NoMemory;
use sx_outcome::{PackedOutcomes, par_sort_txs, sort_txs};
use sx_shard::Shard;
use sx_tx::{Tx, TxList};

/// What a gathering has made of its candidates.
#[derive(Debug, Drop)]
pub struct Sealed {
    /// The accepted candidates, sorted by account and then by sequence number: the body of a block.
    pub txs: TxList,
    /// The outcomes, in the order of the candidates. [`PackedOutcomes::to_list`] makes a list of them.
    pub outcomes: PackedOutcomes,
}

// Ends each shard, by the seat at it.
fn finish(shards: Vec<Shard>, seats: Vec<PassSeat>)
    requires seats { AreSeats shards.items seats.items }
    requires all { HaveAll shards.items seats.items }
    ensures { HaveEnded shards.items seats.items }
{
    let mut shards = shards;
    let mut seats = seats;
    while let (Some(shard), Some(seat)) = (shards.pop(), seats.pop()) {
        shard.finish(seat.into_seat());
    }
}

// The accepted candidates, in their order and in the memory of the list.
fn accepted(candidates: TxList, outcomes: &PackedOutcomes) -> Vec<Tx>
    requires { length outcomes.now ≡ length candidates }
    ensures { result.items ≡ all_accepted (decisions candidates outcomes.now) }
{
    let mut txs = candidates.into_items();
    let mut kept = 0;
    for place in 0..outcomes.len() {
        if outcomes.is_accepted(place) {
            txs[kept] = txs[place];
            kept += 1;
        }
    }
    txs.truncate(kept);
    txs
}

/// Makes the body of candidates that have these outcomes: the accepted ones stay in the memory of the list, and
/// are sorted there. Where the outcomes come from a gathering of these candidates, by [`Gather::outcomes`], both
/// are those of a gathering. It takes no memory.
pub fn seal_list(candidates: TxList, outcomes: PackedOutcomes) -> Sealed
    requires one_each { length outcomes ≡ length candidates }
    ensures outcomes { result.outcomes ≡ outcomes }
    ensures gathered { (parts : Parts) → IsBodyOnceSorted parts candidates outcomes (all_accepted (decisions candidates outcomes))
        → IsGathered parts candidates result.outcomes result.txs }
{
    let mut txs = accepted(candidates, &outcomes);
    sort_txs(&mut txs);
    Sealed {
        txs: TxList::of(txs),
        outcomes,
    }
}

/// The same, with the body sorted by up to four threads. It returns where the threads that it joins
/// return.
pub fn par_seal_list<R: Threads + Sync>(
    rt: &R,
    candidates: TxList,
    outcomes: PackedOutcomes,
) -> Sealed
    requires one_each { length outcomes ≡ length candidates }
    ensures outcomes { result.outcomes ≡ outcomes }
    ensures gathered { (parts : Parts) → IsBodyOnceSorted parts candidates outcomes (all_accepted (decisions candidates outcomes))
        → IsGathered parts candidates result.outcomes result.txs }
{
    let mut txs = accepted(candidates, &outcomes);
    par_sort_txs(rt, &mut txs);
    Sealed {
        txs: TxList::of(txs),
        outcomes,
    }
}

impl<'a> Gather<'a> {
    /// Ends the gathering, by the pass that has decided all candidates, and answers the outcomes alone.
    /// [`seal_list`] makes the body by them.
    pub fn outcomes(self, pass: Pass) -> PackedOutcomes
        requires of { IsPassOf self pass }
        requires from { pass.from ≡ 0 }
        requires done { pass.next ≡ pass.end }
        requires all { pass.end ≡ length self.candidates }
        ensures outcomes { result ≡ pass.outcomes }
        ensures one_each { length result ≡ length self.entry.candidates }
        ensures body { IsBodyOnceSorted self.entry.parts self.entry.candidates result (all_accepted (decisions self.entry.candidates result)) }
    {
        let Gather { shards, .. } = self;
        let Pass {
            seats,
            outcomes,
            ..
        } = pass;
        finish(shards, seats);
        outcomes.into_packed()
    }

    // The same, with a copy of the candidates.
    fn close(self, pass: Pass) -> Result<(TxList, PackedOutcomes), NoMemory>
        requires of { IsPassOf self pass }
        requires from { pass.from ≡ 0 }
        requires done { pass.next ≡ pass.end }
        requires all { pass.end ≡ length self.candidates }
        ensures candidates { IfOk result (λ closed. closed.0 ≡ self.entry.candidates) }
        ensures outcomes { IfOk result (λ closed. closed.1 ≡ pass.outcomes) }
        ensures one_each { IfOk result (λ closed. length closed.1 ≡ length self.entry.candidates) }
        ensures body { IfOk result (λ closed. IsBodyOnceSorted self.entry.parts self.entry.candidates closed.1 (all_accepted (decisions self.entry.candidates closed.1))) }
    {
        let candidates = self.setting.candidates().to_vec(self.alloc)?;
        Ok((TxList::of(candidates), self.outcomes(pass)))
    }

    /// Ends the gathering, by the pass that has decided all candidates, and answers the body of the
    /// accepted ones and the outcomes. They are those of a gathering, whatever passes there were and in
    /// whatever order their steps were made. It may answer `NoMemory`.
    pub fn seal(self, pass: Pass) -> Result<Sealed, NoMemory>
        requires of { IsPassOf self pass }
        requires from { pass.from ≡ 0 }
        requires done { pass.next ≡ pass.end }
        requires all { pass.end ≡ length self.candidates }
        ensures outcomes { IfOk result (λ sealed. sealed.outcomes ≡ pass.outcomes) }
        ensures gathered { IfOk result (λ sealed. IsGathered self.entry.parts self.entry.candidates sealed.outcomes sealed.txs) }
    {
        let (candidates, outcomes) = self.close(pass)?;
        Ok(seal_list(candidates, outcomes))
    }

    /// The same, with the body sorted by up to four threads. It returns where the threads that it joins
    /// return.
    pub fn par_seal<R: Threads + Sync>(self, rt: &R, pass: Pass) -> Result<Sealed, NoMemory>
        requires of { IsPassOf self pass }
        requires from { pass.from ≡ 0 }
        requires done { pass.next ≡ pass.end }
        requires all { pass.end ≡ length self.candidates }
        ensures outcomes { IfOk result (λ sealed. sealed.outcomes ≡ pass.outcomes) }
        ensures gathered { IfOk result (λ sealed. IsGathered self.entry.parts self.entry.candidates sealed.outcomes sealed.txs) }
    {
        let (candidates, outcomes) = self.close(pass)?;
        Ok(par_seal_list(rt, candidates, outcomes))
    }
}
