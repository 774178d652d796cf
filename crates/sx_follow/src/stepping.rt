//! Who judges and applies one block: this thread alone, or several.

ghost use Rattle.std.specs.Prelude.{◌≡◌, ◌≤◌, IfNone, IfOk, IfSome};
ghost use Rattle.sx_block.specs.Block.{IsBlock};
ghost use Rattle.sx_block.specs.Validity.{IsValid, digest_of_ledger};
ghost use Rattle.sx_follow.specs.Leaves.{Leaves};

use crate::leaving::{Leaving, step};
use crate::spare::Spare;
use crate::spreading::{is_long, par_step};
use std::alloc::Global;
use std::thread::Threads;
use sx_block::{Block, Digest};
use sx_bytes::NoMemory;
use sx_ledger::Ledger;

// Who judges and applies one block.
pub trait Stepping {
    // What a call takes for granted: of threads, that they may share what makes them.
    ghost is_ready: { Type 0 };

    // What a block leaves of the head, if it is valid for it.
    fn step(
        &self,
        alloc: Global,
        head: &Ledger,
        digest: &Digest,
        block: &Block,
        spare: &mut Spare,
    ) -> Result<Option<Leaving>, NoMemory>
        requires ready { is_ready }
        requires digest { digest.now ≡ digest_of_ledger head.now }
        requires form { IsBlock block.now }
        ensures valid { IfOk result (λ found. IfSome found (Leaves head.now block.now)) }
        ensures refused { IfOk result (λ found. IfNone found (¬ IsValid head.now block.now)) };
}

// This thread alone.
#[derive(Drop)]
pub struct Alone;

impl Stepping for Alone {
    ghost is_ready = { Unit {0} };

    fn step(
        &self,
        alloc: Global,
        head: &Ledger,
        digest: &Digest,
        block: &Block,
        spare: &mut Spare,
    ) -> Result<Option<Leaving>, NoMemory> {
        step(alloc, head, digest, block, spare)
    }
}

// So many workers, if the block has enough transactions for them.
#[derive(Drop)]
pub struct Spread<'a, R> {
    pub rt: &'a R,
    pub workers: u32,
    pub ghost some: { 1 ≤ workers },
    pub ghost few: { workers ≤ 64 },
}

impl<'a, R: Threads + Sync> Stepping for Spread<'a, R> {
    ghost use Rattle.std.specs.Thread.{IsSync};

    ghost is_ready = { IsSync R.row };

    fn step(
        &self,
        alloc: Global,
        head: &Ledger,
        digest: &Digest,
        block: &Block,
        spare: &mut Spare,
    ) -> Result<Option<Leaving>, NoMemory> {
        if !is_long(block) || block.header.parent != *digest {
            return step(alloc, head, digest, block, spare);
        }
        par_step(self.rt, alloc, head, block, spare, self.workers)
    }
}
