//! Whether a block is valid, with the first reason where it is not.

ghost use Rattle.std.specs.Prelude.{◌≡◌, ◌≢◌, ◌≤◌, IfErr, IfOk, OnOk};
ghost use Rattle.sha2.specs.Sha256.{sha256};
ghost use Rattle.sx_block.specs.Block.{IsBlock};
ghost use Rattle.sx_block.specs.Rule as rule;
ghost use Rattle.sx_block.specs.Validity.{HoldsButParent, IsSound, IsValid, digest_of_ledger, ledger_after};
ghost use Rattle.sx_block.specs.Checked.{IsWrongAfter, checked_of};
ghost use Rattle.sx_check.specs.Judged.{CanBeApplied, IsJudged};
ghost use Rattle.sx_block.specs.Refusals.{Refuses};
ghost use Rattle.sx_check.specs.Explanations.{Explains, ExplainsButParent, ExplainsEarly};
ghost use Rattle.sx_block.specs.Refusals.{RefusesButParent, RefusesEarly};
ghost use Rattle.sx_check.specs.Surveys.{IsSurvey, IsSurveyed};
ghost use Rattle.sx_ledger.specs.Ledger.{IsLedger};
ghost use Rattle.sx_tx.specs.Transactions.{list_bytes};

use crate::body::{check_body, par_check_body};
use crate::fault::CheckFault;
use crate::header::{check_header, check_height, check_parent, named};
use crate::judged::Judged;
use crate::market::check_market;
use crate::rounding::check_rounding;
use crate::survey::{Survey, survey_of};
use std::alloc::Global;
use std::thread::Threads;
use sx_apply::{Effects, apply};
use sx_block::{Block, Checked, Digest, Header, Invalid};
use sx_digests::{body_digest, ledger_digest};
use sx_ledger::Ledger;
use sx_tally::PrecheckFault;

// What is told of a valid block.
fn checked(block: &Block) -> Checked
    requires { IsBlock block.now }
    ensures { result ≡ checked_of block.now }
{
    Checked {
        height: block.header.height,
        value: block.header.trades.value(),
        dropped: block.header.dropped.is_some(),
    }
}

// The rest of a judgement, once the transactions are the body of a block for the ledger, whatever ledger the header
// names, and this is the survey of them.
fn judge_trades(
    alloc: Global,
    ledger: &Ledger,
    block: &Block,
    survey: Survey,
) -> Result<Judged, CheckFault>
    requires form { IsBlock block.now }
    requires kept { IsLedger ledger.now }
    requires body { HoldsButParent rule.Within ledger.now block.now }
    requires survey { IsSurvey ledger.now block.now.txs survey }
    ensures judged { IfOk result (CanBeApplied ledger.now block.now) }
    ensures refused { IfErr result (ExplainsButParent ledger.now block.now) }
{
    let Survey { tally, offers } = survey;
    let after = offers.after(ledger);
    check_market(alloc, ledger, block, after)?;
    let fills = check_rounding(alloc, ledger, block, after)?;
    Ok(Judged {
        checked: checked(block),
        effects: Effects {
            tally,
            offers,
            fills,
        },
    })
}

// The rest of a judgement, once the height is the next one and, where that is asked for, the ledger is named.
fn judge_rest(
    alloc: Global,
    ledger: &Ledger,
    block: &Block,
    body: &Digest,
) -> Result<Judged, CheckFault>
    requires form { IsBlock block.now }
    requires height { HoldsButParent rule.Body ledger.now block.now }
    requires body { body.now ≡ sha256 (list_bytes block.now.txs) }
    ensures judged { IfOk result (CanBeApplied ledger.now block.now) }
    ensures refused { IfErr result (ExplainsButParent ledger.now block.now) }
{
    check_header(ledger, block, body)?;
    let found = survey_of(alloc, ledger, block.txs.items());
    let survey = check_body(ledger, block, found)?;
    judge_trades(alloc, ledger, block, survey)
}

/// Judges a block on a ledger by all but the digest of the ledger that it leaves: Ok exactly where the
/// block is valid but for that, with what it does to the ledger, and else the first reason, which is
/// any but `WrongAfter`. `parent` is the digest of the ledger and `body` that of the block's
/// transactions. The block has the form of one, as those have that are read.
///
/// It goes over the transactions and the offers a fixed number of times, and copies nothing.
pub fn judge(
    alloc: Global,
    ledger: &Ledger,
    block: &Block,
    parent: &Digest,
    body: &Digest,
) -> Result<Judged, CheckFault>
    requires form { IsBlock block.now }
    requires parent { parent.now ≡ digest_of_ledger ledger.now }
    requires body { body.now ≡ sha256 (list_bytes block.now.txs) }
    ensures judged { IfOk result (IsJudged ledger.now block.now) }
    ensures refused { IfErr result (ExplainsEarly ledger.now block.now) }
{
    check_parent(ledger, block, parent)?;
    judge_rest(alloc, ledger, block, body)
}

/// Judges a block on a ledger whose digest is not known yet: Ok exactly where the block is valid but for the digests of
/// the ledgers before and after it, so that it can be applied, with what it does to the ledger. Else it answers the
/// first reason but for `WrongParent`, which is any but that and `WrongAfter`: once the digest of the ledger is known,
/// [`first_reason`] tells the first of all. A block that can be applied follows the ledger where [`named`] says so.
///
/// `body` is the digest of the block's transactions and `found` what [`survey_of`] answered for them. The block has the
/// form of one, as those have that are read. At most `workers` threads look for an account that is overdrawn. The answer
/// is the same for every number of them, and with one, or for few accounts, no thread is started.
pub fn judge_applicable<R: Threads + Sync>(
    rt: &R,
    alloc: Global,
    ledger: &Ledger,
    block: &Block,
    body: &Digest,
    found: Result<Survey, PrecheckFault>,
    workers: u32,
) -> Result<Judged, CheckFault>
    requires some_worker { 1 ≤ workers }
    requires form { IsBlock block.now }
    requires body { body.now ≡ sha256 (list_bytes block.now.txs) }
    requires found { IsSurveyed ledger.now block.now.txs found }
    ensures judged { IfOk result (CanBeApplied ledger.now block.now) }
    ensures refused { IfErr result (ExplainsButParent ledger.now block.now) }
{
    check_height(ledger, block)?;
    check_header(ledger, block, body)?;
    let survey = par_check_body(rt, ledger, block, found, workers)?;
    judge_trades(alloc, ledger, block, survey)
}

// The first reason, where this is the first but for the one on the digest of the ledger, which is `parent`.
fn first_invalid(ledger: &Ledger, block: &Block, parent: &Digest, why: Invalid) -> Invalid
    requires parent { parent.now ≡ digest_of_ledger ledger.now }
    requires why { RefusesButParent ledger.now block.now why }
    ensures { RefusesEarly ledger.now block.now result }
{
    // The two reasons on the height come before.
    if why.number() < 3 {
        return why;
    }
    match named(&block.header, parent) {
        Ok(()) => why,
        Err(earlier) => earlier,
    }
}

/// The first reason, once the digest of the ledger is known, why a block is refused that [`judge_applicable`] refused
/// for `fault`: the reasons on the height come before `WrongParent`, and all others after it. `NoMemory` stays.
/// `parent` is the digest of the ledger.
pub fn first_reason(
    ledger: &Ledger,
    block: &Block,
    parent: &Digest,
    fault: CheckFault,
) -> CheckFault
    requires parent { parent.now ≡ digest_of_ledger ledger.now }
    requires fault { ExplainsButParent ledger.now block.now fault }
    ensures { ExplainsEarly ledger.now block.now result }
{
    let CheckFault::Invalid(why) = fault else {
        return fault;
    };
    CheckFault::Invalid(first_invalid(ledger, block, parent, why))
}

/// Whether the block leaves the ledger that its header says: Ok exactly where `after`, the digest of
/// the ledger that it leaves, is the one of the header, and else `WrongAfter` with both.
pub fn close(header: &Header, after: &Digest) -> Result<(), Invalid>
    ensures same { OnOk result (header.now.after ≡ after.now) }
    ensures differ { IfErr result (IsWrongAfter header.now after.now) }
{
    let said = header.after;
    let real = *after;
    if said != real {
        return Err(Invalid::WrongAfter { said, real });
    }
    Ok(())
}

// The block leaves the ledger that its header says, where `after` is the digest of what it leaves.
fn check_after(ledger: &Ledger, block: &Block, after: &Digest) -> Result<(), Invalid>
    requires sound { IsSound ledger.now block.now }
    requires after { after.now ≡ digest_of_ledger (ledger_after ledger.now block.now) }
    ensures valid { OnOk result (IsValid ledger.now block.now) }
    ensures refused { IfErr result (Refuses ledger.now block.now) }
{
    close(&block.header, after)
}

/// Judges a block on a ledger: Ok exactly where the block is valid for it, and else the first reason
/// why it is not. The block has the form of one, as those have that are read. It works on a copy of the
/// ledger to know what the block leaves; where the ledger may change, [`judge`], `apply` of `sx_apply`
/// and [`close`] do the same with no copy.
pub fn check(alloc: Global, ledger: &Ledger, block: &Block) -> Result<Checked, CheckFault>
    requires form { IsBlock block.now }
    ensures valid { OnOk result (IsValid ledger.now block.now) }
    ensures checked { IfOk result (λ checked. checked ≡ checked_of block.now) }
    ensures refused { IfErr result (Explains ledger.now block.now) }
{
    let parent = ledger_digest(alloc, ledger)?;
    let body = body_digest(alloc, block.txs.items())?;
    let Judged { checked, effects } = judge(alloc, ledger, block, &parent, &body)?;
    let after = apply(alloc, ledger.copy()?, block, effects)?;
    check_after(ledger, block, &ledger_digest(alloc, &after)?)?;
    Ok(checked)
}
