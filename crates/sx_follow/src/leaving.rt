//! One block on the head.

ghost use Rattle.std.specs.Prelude.{◌≡◌, IfNone, IfOk, IfSome};
ghost use Rattle.sx_apply.specs.Effects.{AreEffects};
ghost use Rattle.sx_block.specs.Block.{IsBlock};
ghost use Rattle.sx_block.specs.Validity.{IsSound, IsValid, digest_of_ledger, ledger_after};
ghost use Rattle.sx_ledger.specs.declared.parts.Parts.{Parts as Ledgers};
ghost use Rattle.sx_follow.specs.Leaves.{Leaves};

use crate::spare::Spare;
use std::alloc::Global;
use sx_apply::{Effects, apply};
use sx_block::{Block, Digest, check_laws, validity_laws};
use sx_bytes::NoMemory;
use sx_check::{CheckFault, close, judge};
use sx_digests::body_digest;
use sx_ledger::Ledger;

/// What a block leaves: the ledger, and its digest.
#[derive(Debug, Drop)]
pub struct Leaving {
    pub ledger: Ledger,
    pub digest: Digest,
}

// What a block leaves, where this is the ledger after it: something where the block names the digest of that. Otherwise
// the ledger is spare.
pub(crate) fn closed(
    alloc: Global,
    block: &Block,
    ledger: Ledger,
    spare: &mut Spare,
) -> Result<Option<Leaving>, NoMemory>
    ensures valid { IfOk result (λ found. IfSome found (λ left.
        (head : Ledgers) → IsSound head block.now → ledger ≡ ledger_after head block.now → Leaves head block.now left)) }
    ensures refused { IfOk result (λ found. IfNone found
        ((head : Ledgers) → IsSound head block.now → ledger ≡ ledger_after head block.now → ¬ IsValid head block.now)) }
{
    validity_laws();
    check_laws();
    let digest = spare.digest(alloc, &ledger)?;
    match close(&block.header, &digest) {
        Ok(()) => Ok(Some(Leaving { ledger, digest })),
        Err(_) => {
            spare.keep(ledger);
            Ok(None)
        }
    }
}

// Applies a sound block to a copy of the head.
fn leave(
    alloc: Global,
    head: &Ledger,
    block: &Block,
    effects: Effects,
    spare: &mut Spare,
) -> Result<Option<Leaving>, NoMemory>
    requires sound { IsSound head.now block.now }
    requires effects { AreEffects head.now block.now effects }
    ensures valid { IfOk result (λ found. IfSome found (Leaves head.now block.now)) }
    ensures refused { IfOk result (λ found. IfNone found (¬ IsValid head.now block.now)) }
{
    let copy = spare.copy(alloc, head)?;
    let ledger = apply(alloc, copy, block, effects)?;
    closed(alloc, block, ledger, spare)
}

/// What a block leaves of the head, if it is valid for it.
pub fn step(
    alloc: Global,
    head: &Ledger,
    digest: &Digest,
    block: &Block,
    spare: &mut Spare,
) -> Result<Option<Leaving>, NoMemory>
    requires digest { digest.now ≡ digest_of_ledger head.now }
    requires form { IsBlock block.now }
    ensures valid { IfOk result (λ found. IfSome found (Leaves head.now block.now)) }
    ensures refused { IfOk result (λ found. IfNone found (¬ IsValid head.now block.now)) }
{
    check_laws();
    if block.header.parent != *digest {
        return Ok(None);
    }
    let body = body_digest(alloc, block.txs.items())?;
    match judge(alloc, head, block, digest, &body) {
        Ok(judged) => leave(alloc, head, block, judged.effects, spare),
        Err(CheckFault::Invalid(_)) => Ok(None),
        Err(CheckFault::NoMemory) => Err(NoMemory),
    }
}

/// The same as [`step`], on a ledger that is not needed any more. It is changed in place, and no copy is made. Where the
/// block is not valid for it, it is spare.
pub fn step_in_place(
    alloc: Global,
    head: Ledger,
    digest: &Digest,
    block: &Block,
    spare: &mut Spare,
) -> Result<Option<Leaving>, NoMemory>
    requires digest { digest.now ≡ digest_of_ledger head }
    requires form { IsBlock block.now }
    ensures valid { IfOk result (λ found. IfSome found (Leaves head block.now)) }
    ensures refused { IfOk result (λ found. IfNone found (¬ IsValid head block.now)) }
{
    check_laws();
    if block.header.parent != *digest {
        spare.keep(head);
        return Ok(None);
    }
    let body = body_digest(alloc, block.txs.items())?;
    match judge(alloc, &head, block, digest, &body) {
        Ok(judged) => {
            let ledger = apply(alloc, head, block, judged.effects)?;
            closed(alloc, block, ledger, spare)
        }
        Err(CheckFault::Invalid(_)) => {
            spare.keep(head);
            Ok(None)
        }
        Err(CheckFault::NoMemory) => Err(NoMemory),
    }
}
