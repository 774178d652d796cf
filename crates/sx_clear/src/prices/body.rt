//! What a body does to a ledger before anything trades.

ghost use Rattle.std.specs.Prelude.{◌≤◌, IfOk};
ghost use Rattle.sx_clear.specs.Found.{IsBodyOf};
ghost use Rattle.sx_ledger.specs.Body.{IsAdmissible};

use std::alloc::Global;
use std::thread::Threads;
use sx_apply::{par_tally_of, tally_of};
use sx_bytes::NoMemory;
use sx_ledger::Ledger;
use sx_tally::{OfferChange, Tally, offers_after};
use sx_tx::Tx;

/// What the transactions of a body do, and what they change the offers to.
#[derive(Drop)]
pub struct Body {
    pub tally: Tally,
    pub offers: OfferChange,
}

// What a body does, found by one pass over its transactions.
pub(crate) fn body_of(alloc: Global, ledger: &Ledger, txs: &[Tx]) -> Result<Body, NoMemory>
    requires admissible { IsAdmissible ledger.now txs.now }
    ensures { IfOk result (IsBodyOf ledger.now txs.now) }
{
    let tally = tally_of(alloc, ledger, txs)?;
    let offers = offers_after(alloc, ledger, &tally)?;
    Ok(Body { tally, offers })
}

// The same, with at most so many threads that look accounts and offers up.
pub(crate) fn par_body_of<R: Threads + Sync>(
    rt: &R,
    alloc: Global,
    ledger: &Ledger,
    txs: &[Tx],
    workers: u32,
) -> Result<Body, NoMemory>
    requires some_worker { 1 ≤ workers }
    requires admissible { IsAdmissible ledger.now txs.now }
    ensures { IfOk result (IsBodyOf ledger.now txs.now) }
{
    let tally = par_tally_of(rt, alloc, ledger, txs, workers)?;
    let offers = offers_after(alloc, ledger, &tally)?;
    Ok(Body { tally, offers })
}
