//! A block of candidates: worker threads gather them, and the body that they make is cleared.

ghost use Rattle.std.specs.Prelude.{◌≡◌, ◌+◌, ◌≤◌, ◌<◌, Ok, IfErr, IfOk, length};
ghost use Rattle.sx_block.specs.Validity.{digest_of_ledger};
ghost use Rattle.sx_clear.specs.TradeSearches.{most_clearing_searches};
ghost use Rattle.sx_digests.specs.StateDigest.{IsWhole, digest_in};
ghost use Rattle.sx_gather.specs.Start.{IsFaultOf};
ghost use Rattle.sx_input.specs.Head.{IsHead};
ghost use Rattle.sx_outcome.specs.Gathering.{IsGathered};
ghost use Rattle.sx_outcome.specs.Room.{room_for};
ghost use Rattle.sx_ledger.specs.Body.{IsAdmissible};
ghost use Rattle.sx_ledger.specs.Ledger.{IsLedger, most_height};
ghost use Rattle.sx_meaning.specs.Sealing.{IsClearedFor, IsMadeOf};
ghost use Rattle.sx_run.specs.Numbers.{AreNumbers};
ghost use Rattle.sx_tx.specs.Transactions.{list_bytes, most_transactions};

use std::alloc::Global;
use std::sync::ledger;
use std::thread::Threads;
use sx_block::Block;
use sx_bytes::{NoMemory, Writer};
use sx_clear::{Cleared, clear_in_place};
use sx_digests::{StateDigest, ledger_digest};
use sx_gather::{GatherFault, Sealed};
use sx_input::Head;
use sx_ledger::Ledger;
use sx_net::Steps;
use sx_outcome::{PackedOutcomes, gathering_laws};
use sx_price::Mu;
use sx_tx::TxList;
use sx_workers::{Gate, gather_list};

/// How a block is made: how many threads gather on how many shards, the margin, how many rounds a search for
/// prices has at most, and how many searches there are.
#[derive(Clone, Copy, Debug)]
pub struct Numbers {
    pub workers: u32,
    pub shards: u32,
    pub mu: Mu,
    pub rounds: u32,
    pub searches: u32,
}

/// A block of candidates, and what became of each of them, in their order.
#[derive(Debug, Drop)]
pub struct Made {
    pub block: Block,
    pub outcomes: PackedOutcomes,
}

/// The same, and the encoding of the transactions of the block.
#[derive(Debug, Drop)]
pub struct MadeInPlace {
    pub cleared: Cleared,
    pub outcomes: PackedOutcomes,
}

// What worker threads make of the candidates, in their memory.
fn gathered<R: Threads + Sync, G: Gate + Sync>(
    rt: &R,
    alloc: Global,
    ledger: &Ledger,
    candidates: TxList,
    numbers: Numbers,
    gate: &G,
) -> Result<Sealed, GatherFault>
    requires few { length candidates ≤ most_transactions }
    requires numbers { AreNumbers numbers }
    ensures gathered { IfOk result (λ sealed. IsGathered ledger.now candidates sealed.outcomes sealed.txs) }
    ensures room { IfOk result (λ _. room_for ledger.now candidates ≡ Ok tt) }
    ensures fault { IfErr result (IsFaultOf (room_for ledger.now candidates)) }
{
    gather_list(
        rt,
        alloc,
        ledger,
        candidates,
        numbers.shards,
        numbers.workers,
        gate,
    )
}

// The block of what was gathered, made on a copy of the ledger.
fn cleared<R: Threads + Sync, L: ledger::Ledger>(
    rt: &R,
    alloc: Global,
    ledger: &Ledger,
    sealed: Sealed,
    numbers: Numbers,
    steps: &mut Steps<L>,
) -> Result<Made, NoMemory>
    requires admissible { IsAdmissible ledger.now sealed.txs }
    requires few { length sealed.txs ≤ most_transactions }
    requires below_last { ledger.now.height < most_height }
    requires numbers { AreNumbers numbers }
    ensures cleared { IfOk result (λ made. IsClearedFor ledger.now numbers.mu numbers.rounds numbers.searches made.block) }
    ensures txs { IfOk result (λ made. made.block.txs ≡ sealed.txs) }
    ensures outcomes { IfOk result (λ made. made.outcomes ≡ sealed.outcomes) }
    ensures counted { steps.new ≤ steps.old + most_clearing_searches }
    ensures rising { steps.old ≤ steps.new }
{
    let copy = ledger.copy()?;
    let parent = StateDigest::Known(ledger_digest(alloc, ledger)?);
    let spare = Writer::new(alloc);
    let MadeInPlace { cleared, outcomes } = cleared_in_place(
        rt, alloc, copy, parent, sealed, spare, numbers, steps,
    )?;
    Ok(Made {
        block: cleared.block,
        outcomes,
    })
}

// The same on a ledger that is needed no more, and of which this is the digest, for which it waits last of all. The
// transactions are written over what is spare.
fn cleared_in_place<R: Threads + Sync, L: ledger::Ledger>(
    rt: &R,
    alloc: Global,
    ledger: Ledger,
    parent: StateDigest,
    sealed: Sealed,
    spare: Writer,
    numbers: Numbers,
    steps: &mut Steps<L>,
) -> Result<MadeInPlace, NoMemory>
    requires parent { digest_in parent ≡ digest_of_ledger ledger }
    requires whole { IsWhole parent }
    requires admissible { IsAdmissible ledger sealed.txs }
    requires few { length sealed.txs ≤ most_transactions }
    requires below_last { ledger.height < most_height }
    requires numbers { AreNumbers numbers }
    ensures cleared { IfOk result (λ made. IsClearedFor ledger numbers.mu numbers.rounds numbers.searches made.cleared.block) }
    ensures txs { IfOk result (λ made. made.cleared.block.txs ≡ sealed.txs) }
    ensures list { IfOk result (λ made. made.cleared.list ≡ list_bytes made.cleared.block.txs) }
    ensures outcomes { IfOk result (λ made. made.outcomes ≡ sealed.outcomes) }
    ensures counted { steps.new ≤ steps.old + most_clearing_searches }
    ensures rising { steps.old ≤ steps.new }
{
    let Sealed { txs, outcomes } = sealed;
    let cleared = clear_in_place(
        rt,
        alloc,
        ledger,
        parent,
        txs,
        numbers.mu,
        numbers.rounds,
        numbers.searches,
        spare,
        steps,
    )?;
    Ok(MadeInPlace { cleared, outcomes })
}

/// A block of the candidates and what became of each, or why there is no room for them. The body is made in the memory
/// of the candidates. `steps` counts the searches of the circulation. An error says that memory ran out, that the ledger
/// has the last height, or that the accounts or offers that candidates may add are more than it may have.
pub fn make<R: Threads + Sync, G: Gate + Sync, L: ledger::Ledger>(
    rt: &R,
    alloc: Global,
    ledger: &Ledger,
    candidates: TxList,
    numbers: Numbers,
    gate: &G,
    steps: &mut Steps<L>,
) -> Result<Made, GatherFault>
    requires ledger { IsLedger ledger.now }
    requires few { length candidates ≤ most_transactions }
    requires numbers { AreNumbers numbers }
    ensures made { IfOk result (λ made. IsMadeOf ledger.now candidates numbers.mu numbers.rounds numbers.searches made.block made.outcomes) }
    ensures room { IfOk result (λ _. room_for ledger.now candidates ≡ Ok tt) }
    ensures fault { IfErr result (IsFaultOf (room_for ledger.now candidates)) }
    ensures counted { steps.new ≤ steps.old + most_clearing_searches }
    ensures rising { steps.old ≤ steps.new }
{
    gathering_laws();
    let sealed = gathered(rt, alloc, ledger, candidates, numbers, gate)?;
    Ok(cleared(rt, alloc, ledger, sealed, numbers, steps)?)
}

/// The same as [`make`] on a ledger that is needed no more, whose digest a thread may still be making. It waits for that
/// thread last of all. Where it fails before that, the thread is let go. The transactions are written over what is
/// spare.
pub fn make_in_place<R: Threads + Sync, G: Gate + Sync, L: ledger::Ledger>(
    rt: &R,
    alloc: Global,
    head: Head,
    candidates: TxList,
    spare: Writer,
    numbers: Numbers,
    gate: &G,
    steps: &mut Steps<L>,
) -> Result<MadeInPlace, GatherFault>
    requires ledger { IsLedger head.ledger }
    requires head { IsHead head }
    requires few { length candidates ≤ most_transactions }
    requires numbers { AreNumbers numbers }
    ensures made { IfOk result (λ made. IsMadeOf head.ledger candidates numbers.mu numbers.rounds numbers.searches made.cleared.block made.outcomes) }
    ensures list { IfOk result (λ made. made.cleared.list ≡ list_bytes made.cleared.block.txs) }
    ensures room { IfOk result (λ _. room_for head.ledger candidates ≡ Ok tt) }
    ensures fault { IfErr result (IsFaultOf (room_for head.ledger candidates)) }
    ensures counted { steps.new ≤ steps.old + most_clearing_searches }
    ensures rising { steps.old ≤ steps.new }
{
    gathering_laws();
    let Head { ledger, digest, .. } = head;
    let sealed = gathered(rt, alloc, &ledger, candidates, numbers, gate)?;
    Ok(cleared_in_place(rt, alloc, ledger, digest, sealed, spare, numbers, steps)?)
}
