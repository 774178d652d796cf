//! One block on the head, by several threads.

ghost use Rattle.std.specs.Prelude.{◌≡◌, ◌≤◌, length, IfNone, IfOk, IfSome};
ghost use Rattle.sha2.specs.Sha256.{sha256};
ghost use Rattle.sx_apply.specs.Effects.{AreEffects};
ghost use Rattle.sx_block.specs.Block.{IsBlock};
ghost use Rattle.sx_block.specs.Validity.{IsSound, IsValid, digest_of_ledger};
ghost use Rattle.sx_check.specs.Surveys.{IsSurveyed};
ghost use Rattle.sx_follow.specs.Leaves.{Leaves};
ghost use Rattle.sx_tx.specs.Transactions.{list_bytes, most_transactions};

use crate::leaving::{Leaving, closed};
use crate::spare::Spare;
use std::alloc::Global;
use std::thread::Threads;
use sx_apply::Effects;
use sx_block::{Block, Digest, check_laws, validity_laws};
use sx_bytes::NoMemory;
use sx_check::{CheckFault, Survey, judge_applicable, par_survey_of};
use sx_digests::body_digest;
use sx_fork::fork;
use sx_ledger::Ledger;
use sx_spread::apply_spread;
use sx_tally::PrecheckFault;

// From how many transactions on a block is judged and applied by several threads.
const MANY_TRANSACTIONS: usize = 8_192;

/// Whether a block has enough transactions for several threads: 8,192 or more.
pub fn is_long(block: &Block) -> bool {
    block.txs.items().len() >= MANY_TRANSACTIONS
}

// Applies a sound block to a copy of the head, by so many workers.
fn par_leave<R: Threads + Sync>(
    rt: &R,
    alloc: Global,
    head: &Ledger,
    block: &Block,
    effects: Effects,
    spare: &mut Spare,
    workers: u32,
) -> Result<Option<Leaving>, NoMemory>
    requires some_worker { 1 ≤ workers }
    requires few_workers { workers ≤ 64 }
    requires sound { IsSound head.now block.now }
    requires effects { AreEffects head.now block.now effects }
    ensures valid { IfOk result (λ found. IfSome found (Leaves head.now block.now)) }
    ensures refused { IfOk result (λ found. IfNone found (¬ IsValid head.now block.now)) }
{
    let copy = spare.copy(alloc, head)?;
    let ledger = apply_spread(rt, alloc, copy, block, effects, workers)?;
    closed(alloc, block, ledger, spare)
}

/// What a block leaves of the head, if it is valid for it, by so many workers. The block names the head as its parent.
pub fn par_step<R: Threads + Sync>(
    rt: &R,
    alloc: Global,
    head: &Ledger,
    block: &Block,
    spare: &mut Spare,
    workers: u32,
) -> Result<Option<Leaving>, NoMemory>
    requires some_worker { 1 ≤ workers }
    requires few_workers { workers ≤ 64 }
    requires form { IsBlock block.now }
    requires parent { block.now.header.parent ≡ digest_of_ledger head.now }
    ensures valid { IfOk result (λ found. IfSome found (Leaves head.now block.now)) }
    ensures refused { IfOk result (λ found. IfNone found (¬ IsValid head.now block.now)) }
{
    validity_laws();
    check_laws();
    let txs = block.txs.items();
    let (body, found) = fork(
        rt,
        true,
        || -> Result<Digest, NoMemory>
            requires { length txs.now ≤ most_transactions }
            ensures { IfOk result (λ body. body ≡ sha256 (list_bytes txs.entry.now)) }
        { body_digest(alloc, txs) },
        || -> Result<Survey, PrecheckFault>
            requires { 1 ≤ workers }
            ensures { IsSurveyed head.entry.now txs.entry.now result }
        { par_survey_of(rt, alloc, head, txs, workers) },
    );
    let body = body?;
    match judge_applicable(rt, alloc, head, block, &body, found, workers) {
        Ok(judged) => par_leave(rt, alloc, head, block, judged.effects, spare, workers),
        Err(CheckFault::Invalid(_)) => Ok(None),
        Err(CheckFault::NoMemory) => Err(NoMemory),
    }
}
