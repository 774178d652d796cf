//! The ledger after a block.

ghost use Rattle.std.specs.Prelude.{◌≡◌, ℕ, ◌+◌, ◌<◌, ◌≤◌, IfOk, slice_index};
ghost use Rattle.sx_apply.specs.Effects.{AreEffects};
ghost use Rattle.sx_apply.specs.Trading.{GetsItsValue, GivesItsValue, TradesInFull, TradesWithinLimits};
ghost use Rattle.sx_block.specs.Effects.{circulating};
ghost use Rattle.sx_block.specs.Validity.{IsApplicable, ledger_after};
ghost use Rattle.sx_ledger.specs.Body.{body_after};
ghost use Rattle.sx_ledger.specs.Ledger.{IsLedger, assets_of};

use crate::body::par_apply_accounts;
use crate::trading::par_execute;
use std::alloc::Global;
use std::thread::Threads;
use sx_apply::Effects;
use sx_block::{Block, Header};
use sx_bytes::NoMemory;
use sx_ledger::Ledger;

// The ledger after a block, whose effects on the ledger are known, by so many workers.
fn apply_in_parts<R: Threads + Sync>(
    rt: &R,
    alloc: Global,
    ledger: Ledger,
    block: &Block,
    effects: Effects,
    workers: u32,
) -> Result<Ledger, NoMemory>
    requires applicable { IsApplicable ledger block.now }
    requires effects { AreEffects ledger block.now effects }
    requires some { 1 ≤ workers }
    ensures after { IfOk result (λ after. after ≡ ledger_after ledger block.now) }
    ensures kept { IsLedger ledger }
{
    let Effects {
        tally,
        offers,
        fills,
    } = effects;
    let after_body = par_apply_accounts(rt, alloc, ledger, &tally, offers, workers)?;
    let Header {
        prices,
        rounding,
        ..
    } = &block.header;
    par_execute(
        rt,
        alloc,
        after_body,
        prices,
        rounding,
        fills.items(),
        workers,
    )
}

/// The ledger after a block, whose effects on the ledger are known: the ledger after the transactions,
/// after trading, by 1 to 64 workers, each of which changes a part of the accounts. The block is valid but for
/// the digests of the ledgers before and after it. The ledger changes in place.
///
/// How many workers there are does not change the answer: it is that of [`apply`](sx_apply::apply). Where no
/// thread can be started, the parts are changed in turn. At `NoMemory`, which is the only error, the ledger is gone.
///
/// Each offer that trades may trade at the prices of the block, and where it drops no lower bound each offer that
/// must trade gives its whole amount. What an offer gives is worth its value and less than one unit more, and what it
/// gets is worth no more than its value and less than one unit less. Of each asset, balances and offers fall by what
/// the ledger's rounding rises by, which is what the block says.
pub fn apply_spread<R: Threads + Sync>(
    rt: &R,
    alloc: Global,
    ledger: Ledger,
    block: &Block,
    effects: Effects,
    workers: u32,
) -> Result<Ledger, NoMemory>
    requires applicable { IsApplicable ledger block.now }
    requires effects { AreEffects ledger block.now effects }
    requires some_worker { 1 ≤ workers }
    requires few_workers { workers ≤ 64 }
    ensures after { IfOk result (λ after. after ≡ ledger_after ledger block.now) }
    ensures within_limits { TradesWithinLimits (body_after ledger block.now.txs) block.now.header }
    ensures in_full { TradesInFull (body_after ledger block.now.txs) block.now.header }
    ensures gives { GivesItsValue (body_after ledger block.now.txs) block.now.header }
    ensures gets { GetsItsValue (body_after ledger block.now.txs) block.now.header }
    ensures conserves { IfOk result (λ after. (asset : ℕ) → asset < assets_of ledger → circulating ledger asset ≡ circulating after asset + slice_index block.now.header.rounding asset) }
    ensures keeps_rounding { IfOk result (λ after. (asset : ℕ) → asset < assets_of ledger → slice_index after.rounding asset ≡ slice_index ledger.rounding asset + slice_index block.now.header.rounding asset) }
{
    apply_in_parts(rt, alloc, ledger, block, effects, workers)
}
