//! What the transactions of a block do to a ledger, whatever its header says.

ghost use Rattle.std.specs.Prelude.{◌≤◌, IfErr, IfOk};
ghost use Rattle.sx_tally.specs.Prechecks.{IsPrecheckFault};
ghost use Rattle.sx_check.specs.Surveys.{IsSurvey};

use std::alloc::Global;
use std::thread::Threads;
use sx_ledger::Ledger;
use sx_tally::{OfferChange, PrecheckFault, Tally, offers_after, par_precheck, precheck};
use sx_tx::Tx;

/// What transactions do to a ledger, as a judgement and an execution need it.
#[derive(Debug, Drop)]
pub struct Survey {
    /// What they debit and credit, the numbers that they use, the offers and the accounts that they name.
    pub tally: Tally,
    /// What they change the offers to, where they are the body of a block.
    pub offers: OfferChange,
}

/// The survey of transactions on a ledger, or the first of them that the ledger refuses by itself. It needs
/// no header and no digest, so a caller may have it made while others make the digest of the transactions.
///
/// It goes over the transactions once and over the offers a fixed number of times.
pub fn survey_of(alloc: Global, ledger: &Ledger, txs: &[Tx]) -> Result<Survey, PrecheckFault>
    ensures survey { IfOk result (IsSurvey ledger.now txs.now) }
    ensures refused { IfErr result (IsPrecheckFault ledger.now txs.now) }
{
    let tally = precheck(alloc, ledger, txs)?;
    let offers = offers_after(alloc, ledger, &tally)?;
    Ok(Survey { tally, offers })
}

/// The same as [`survey_of`], with at most so many threads that look up the places of what the transactions name.
/// The answer is the same for every number of workers, and with one, or for few transactions, no thread is started.
pub fn par_survey_of<R: Threads + Sync>(
    rt: &R,
    alloc: Global,
    ledger: &Ledger,
    txs: &[Tx],
    workers: u32,
) -> Result<Survey, PrecheckFault>
    requires some_worker { 1 ≤ workers }
    ensures survey { IfOk result (IsSurvey ledger.now txs.now) }
    ensures refused { IfErr result (IsPrecheckFault ledger.now txs.now) }
{
    let tally = par_precheck(rt, alloc, ledger, txs, workers)?;
    let offers = offers_after(alloc, ledger, &tally)?;
    Ok(Survey { tally, offers })
}
