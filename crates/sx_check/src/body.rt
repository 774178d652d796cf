//! The transactions of a block on a ledger: reasons 6 to 10, and 17.

ghost use Rattle.std.specs.Prelude.{◌≤◌, IfErr, IfNone, IfOk, IfSome, OnOk};
ghost use Rattle.sx_block.specs.Block.{IsBlock};
ghost use Rattle.sx_block.specs.Rule as rule;
ghost use Rattle.sx_block.specs.Validity.{HoldsButParent};
ghost use Rattle.sx_ledger.specs.Overdraft.{IsFirstOverdrawn, NoneOverdrawn};
ghost use Rattle.sx_tally.specs.Tally.{IsTally};
ghost use Rattle.sx_block.specs.Refusals.{RefusesButParent};
ghost use Rattle.sx_check.specs.Explanations.{ExplainsButParent};
ghost use Rattle.sx_check.specs.Surveys.{IsSurvey, IsSurveyed};

use crate::fault::CheckFault;
use crate::survey::Survey;
use std::thread::Threads;
use sx_block::{Block, Invalid};
use sx_ledger::{Ledger, Overdraft};
use sx_tally::{PrecheckFault, Tally};

// The ledger refuses no transaction by itself. It answers the survey of them.
fn check_each(
    ledger: &Ledger,
    block: &Block,
    found: Result<Survey, PrecheckFault>,
) -> Result<Survey, CheckFault>
    requires form { IsBlock block.now }
    requires header { HoldsButParent rule.Passes ledger.now block.now }
    requires found { IsSurveyed ledger.now block.now.txs found }
    ensures passes { OnOk result (HoldsButParent rule.CancelsOnce ledger.now block.now) }
    ensures survey { IfOk result (IsSurvey ledger.now block.now.txs) }
    ensures refused { IfErr result (ExplainsButParent ledger.now block.now) }
{
    match found {
        Ok(survey) => Ok(survey),
        Err(PrecheckFault::NoMemory) => Err(CheckFault::NoMemory),
        Err(PrecheckFault::Refused { index, why }) => {
            let index = index as u32;
            Err(CheckFault::Invalid(Invalid::Tx { index, why }))
        }
    }
}

// And no offer is cancelled twice.
fn check_cancellations(ledger: &Ledger, block: &Block, tally: &Tally) -> Result<(), Invalid>
    requires form { IsBlock block.now }
    requires tally { IsTally ledger.now block.now.txs tally.now }
    requires passes { HoldsButParent rule.CancelsOnce ledger.now block.now }
    ensures once { OnOk result (HoldsButParent rule.CreatesOnce ledger.now block.now) }
    ensures refused { IfErr result (RefusesButParent ledger.now block.now) }
{
    match tally.cancelled_again() {
        Some(place) => Err(Invalid::TwoCancels {
            index: place as u32,
        }),
        None => Ok(()),
    }
}

// And no account is created twice.
fn check_creations(ledger: &Ledger, block: &Block, tally: &Tally) -> Result<(), Invalid>
    requires form { IsBlock block.now }
    requires tally { IsTally ledger.now block.now.txs tally.now }
    requires cancels { HoldsButParent rule.CreatesOnce ledger.now block.now }
    ensures once { OnOk result (HoldsButParent rule.Room ledger.now block.now) }
    ensures refused { IfErr result (RefusesButParent ledger.now block.now) }
{
    match tally.created_again() {
        Some(place) => Err(Invalid::TwoNames {
            index: place as u32,
        }),
        None => Ok(()),
    }
}

// And there are no more accounts and offers, with those that come, than there may be.
fn check_room(ledger: &Ledger, block: &Block, tally: &Tally) -> Result<(), Invalid>
    requires form { IsBlock block.now }
    requires tally { IsTally ledger.now block.now.txs tally.now }
    requires creates { HoldsButParent rule.Room ledger.now block.now }
    ensures room { OnOk result (HoldsButParent rule.Covered ledger.now block.now) }
    ensures refused { IfErr result (RefusesButParent ledger.now block.now) }
{
    let (have, more, limit) = (
        ledger.accounts(),
        tally.created() as u32,
        Ledger::MOST_ACCOUNTS,
    );
    if have + more > limit {
        return Err(Invalid::Crowded { have, more, limit });
    }
    let (have, more, limit) = (ledger.offers(), tally.made() as u32, Ledger::MOST_OFFERS);
    if have + more > limit {
        return Err(Invalid::Crowded { have, more, limit });
    }
    Ok(())
}

// The transactions, of which this was found, pass all rules on them but the one on overdrafts. It answers the survey of
// them.
fn check_counts(
    ledger: &Ledger,
    block: &Block,
    found: Result<Survey, PrecheckFault>,
) -> Result<Survey, CheckFault>
    requires form { IsBlock block.now }
    requires header { HoldsButParent rule.Passes ledger.now block.now }
    requires found { IsSurveyed ledger.now block.now.txs found }
    ensures room { OnOk result (HoldsButParent rule.Covered ledger.now block.now) }
    ensures survey { IfOk result (IsSurvey ledger.now block.now.txs) }
    ensures refused { IfErr result (ExplainsButParent ledger.now block.now) }
{
    let survey = check_each(ledger, block, found)?;
    let tally = &survey.tally;
    check_cancellations(ledger, block, tally)?;
    check_creations(ledger, block, tally)?;
    check_room(ledger, block, tally)?;
    Ok(survey)
}

// And no account is overdrawn by the rule of the block's version, of which this is the first overdraft.
fn check_debits(ledger: &Ledger, block: &Block, overdraft: Option<Overdraft>) -> Result<(), Invalid>
    requires form { IsBlock block.now }
    requires room { HoldsButParent rule.Covered ledger.now block.now }
    requires first { IfSome overdraft (IsFirstOverdrawn block.now.header.version ledger.now block.now.txs) }
    requires none { IfNone overdraft (NoneOverdrawn block.now.header.version ledger.now block.now.txs) }
    ensures body { OnOk result (HoldsButParent rule.Within ledger.now block.now) }
    ensures refused { IfErr result (RefusesButParent ledger.now block.now) }
{
    let Some(overdraft) = overdraft else {
        return Ok(());
    };
    let Overdraft {
        account,
        asset,
        opening,
        credits,
        debits,
    } = overdraft;
    if block.header.version == 1 {
        Err(Invalid::Overdrawn {
            account,
            asset,
            opening,
            debits,
        })
    } else {
        Err(Invalid::Overspent {
            account,
            asset,
            opening,
            credits,
            debits,
        })
    }
}

// The transactions, of which this was found, are the body of a block for the ledger. It answers the survey of them.
pub fn check_body(
    ledger: &Ledger,
    block: &Block,
    found: Result<Survey, PrecheckFault>,
) -> Result<Survey, CheckFault>
    requires form { IsBlock block.now }
    requires header { HoldsButParent rule.Passes ledger.now block.now }
    requires found { IsSurveyed ledger.now block.now.txs found }
    ensures body { OnOk result (HoldsButParent rule.Within ledger.now block.now) }
    ensures survey { IfOk result (IsSurvey ledger.now block.now.txs) }
    ensures refused { IfErr result (ExplainsButParent ledger.now block.now) }
{
    let survey = check_counts(ledger, block, found)?;
    let version = block.header.version;
    let overdraft = survey.tally.first_overdraft(ledger, version);
    check_debits(ledger, block, overdraft)?;
    Ok(survey)
}

// The same as `check_body`, with at most so many threads that look for an overdraft.
pub fn par_check_body<R: Threads + Sync>(
    rt: &R,
    ledger: &Ledger,
    block: &Block,
    found: Result<Survey, PrecheckFault>,
    workers: u32,
) -> Result<Survey, CheckFault>
    requires some_worker { 1 ≤ workers }
    requires form { IsBlock block.now }
    requires header { HoldsButParent rule.Passes ledger.now block.now }
    requires found { IsSurveyed ledger.now block.now.txs found }
    ensures body { OnOk result (HoldsButParent rule.Within ledger.now block.now) }
    ensures survey { IfOk result (IsSurvey ledger.now block.now.txs) }
    ensures refused { IfErr result (ExplainsButParent ledger.now block.now) }
{
    let survey = check_counts(ledger, block, found)?;
    let version = block.header.version;
    let overdraft = survey
        .tally
        .par_first_overdraft(rt, ledger, version, workers);
    check_debits(ledger, block, overdraft)?;
    Ok(survey)
}
