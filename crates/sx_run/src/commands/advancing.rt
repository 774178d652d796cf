//! A block on a ledger: it is judged, then applied, and last the digests of the ledgers before and after it are
//! compared.

ghost use Rattle.std.specs.Prelude.{◌≡◌, ◌≤◌, IfErr, IfOk};
ghost use Rattle.sha2.specs.Sha256.{sha256};
ghost use Rattle.sx_block.specs.Block.{IsBlock};
ghost use Rattle.sx_block.specs.Validity.{IsValid, ledger_after};
ghost use Rattle.sx_block.specs.Checked.{checked_of};
ghost use Rattle.sx_check.specs.Explanations.{Explains};
ghost use Rattle.sx_input.specs.Head.{IsHead};
ghost use Rattle.sx_input.specs.Incoming.{IsReady};
ghost use Rattle.sx_tx.specs.Transactions.{list_bytes};

use crate::commands::leaving::left_of;
use std::alloc::Global;
use std::thread::Threads;
use sx_block::{Checked, check_laws, validity_laws};
use sx_check::{CheckFault, Judged, close, first_reason, judge_applicable, named};
use sx_input::{Head, Incoming, StateDigest};
use sx_spread::apply_spread;

// Where the chain stands after a block, and what is told of the block.
#[derive(Drop)]
pub struct Advanced {
    pub head: Head,
    pub checked: Checked,
}

// Judges the next block and applies it, by so many workers. A thread may still be making the digest of the ledger,
// which neither needs. So it is waited for last, or where the block is refused. The record of the ledger after the block
// is written only where a caller wants it.
pub fn advance<R: Threads + Sync>(
    rt: &R,
    alloc: Global,
    head: Head,
    incoming: Incoming,
    workers: u32,
    is_wanted: bool,
) -> Result<Advanced, CheckFault>
    requires some_worker { 1 ≤ workers }
    requires few_workers { workers ≤ 64 }
    requires head { IsHead head }
    requires form { IsBlock incoming.block }
    requires body { incoming.body ≡ sha256 (list_bytes incoming.block.txs) }
    requires found { IsReady head.ledger incoming }
    ensures valid { IfOk result (λ _. IsValid head.ledger incoming.block) }
    ensures head { IfOk result (λ advanced. IsHead advanced.head) }
    ensures after { IfOk result (λ advanced. advanced.head.ledger ≡ ledger_after head.ledger incoming.block) }
    ensures checked { IfOk result (λ advanced. advanced.checked ≡ checked_of incoming.block) }
    ensures refused { IfErr result (Explains head.ledger incoming.block) }
{
    validity_laws();
    check_laws();
    let Head {
        ledger,
        state,
        digest,
    } = head;
    let Incoming { block, body, found } = incoming;
    let judged = match judge_applicable(rt, alloc, &ledger, &block, &body, found, workers) {
        Ok(judged) => judged,
        Err(fault) => {
            let parent = digest.wait(rt);
            return Err(first_reason(&ledger, &block, &parent, fault));
        }
    };
    let Judged { checked, effects } = judged;
    let ledger = apply_spread(rt, alloc, ledger, &block, effects, workers)?;
    let left = left_of(rt, alloc, &ledger, state, is_wanted)?;
    let parent = digest.wait(rt);
    named(&block.header, &parent)?;
    close(&block.header, &left.digest)?;
    let head = Head {
        ledger,
        state: left.state,
        digest: StateDigest::Known(left.digest),
    };
    Ok(Advanced { head, checked })
}
