//! What a body does to the accounts and offers of a ledger.

ghost use Rattle.std.specs.Prelude.{◌≤◌, IfOk};
ghost use Rattle.sx_tally.specs.Tally.{IsTally};
ghost use Rattle.sx_ledger.specs.Body.{IsAdmissibleIn};

use std::alloc::Global;
use std::thread::Threads;
use sx_bytes::NoMemory;
use sx_ledger::Ledger;
use sx_tally::{PrecheckFault, Tally, par_precheck, precheck};
use sx_tx::Tx;

/// What the transactions of a body do, found in one pass over them. The ledger refuses none of them, so
/// `NoMemory` is the only error.
pub fn tally_of(alloc: Global, ledger: &Ledger, txs: &[Tx]) -> Result<Tally, NoMemory>
    requires admissible { IsAdmissibleIn 2 ledger.now txs.now }
    ensures { IfOk result (IsTally ledger.now txs.now) }
{
    match precheck(alloc, ledger, txs) {
        Ok(tally) => Ok(tally),
        Err(PrecheckFault::NoMemory) => Err(NoMemory),
        Err(PrecheckFault::Refused { .. }) => unreachable!(),
    }
}

/// The same as [`tally_of`], with at most so many threads that look up the places of what the transactions name.
/// The answer is the same for every number of workers, and with one, or for few transactions, no thread is started.
pub fn par_tally_of<R: Threads + Sync>(
    rt: &R,
    alloc: Global,
    ledger: &Ledger,
    txs: &[Tx],
    workers: u32,
) -> Result<Tally, NoMemory>
    requires some_worker { 1 ≤ workers }
    requires admissible { IsAdmissibleIn 2 ledger.now txs.now }
    ensures { IfOk result (IsTally ledger.now txs.now) }
{
    match par_precheck(rt, alloc, ledger, txs, workers) {
        Ok(tally) => Ok(tally),
        Err(PrecheckFault::NoMemory) => Err(NoMemory),
        Err(PrecheckFault::Refused { .. }) => unreachable!(),
    }
}
