//! Blocks that are applied ahead while the states that those before them leave are hashed.
//!
//! ```text
//!     threads       hash the states of batch 1       hash the states of batch 2       ..
//!     one thread    apply batch 2 on the last        apply batch 3 on the last        ..
//!                                             compare                          compare
//! ```

ghost use Rattle.std.specs.Prelude.{◌≤◌, IfOk, IfSome, take};
ghost use Rattle.std.specs.List.{All};
ghost use Rattle.std.specs.Thread.{IsSync};
ghost use Rattle.sx_block.specs.Block.{IsBlock};
ghost use Rattle.sx_follow.specs.Ahead.{IsBatch, IsRight};
ghost use Rattle.sx_follow.specs.Bodies.{AreBodies};
ghost use Rattle.sx_follow.specs.Waiting.{AreWaiting};

use crate::ahead::applying::ahead;
use crate::ahead::batch::Batch;
use crate::ahead::bodies::Bodies;
use crate::ahead::hashing::right_of;
use crate::spare::Spare;
use crate::waiting::Waiting;
use std::alloc::Global;
use std::thread::Threads;
use sx_block::Block;
use sx_bytes::NoMemory;
use sx_fork::fork;

/// How many blocks of a batch stand before the first that leaves another digest than it names, and the batch on top, if
/// there is one.
#[derive(Drop)]
pub struct Hashed {
    pub right: usize,
    pub next: Option<Batch>,
}

/// Has so many threads hash the states of a batch, while one more applies the batch on top, of at most `reach` blocks.
pub fn hash_and_apply<R: Threads + Sync>(
    rt: &R,
    alloc: Global,
    batch: &Batch,
    blocks: &[Block],
    bodies: &Bodies,
    waiting: &Waiting,
    spare: &mut Spare,
    reach: u32,
    threads: usize,
) -> Result<Hashed, NoMemory>
    requires some { 1 ≤ threads }
    requires form { All IsBlock blocks.now }
    requires bodies { AreBodies blocks.now bodies.now }
    requires waiting { AreWaiting blocks.now waiting.now }
    ensures right { IfOk result (λ hashed. All IsRight (take hashed.right batch.now.claims.items)) }
    ensures next { IfOk result (λ hashed. IfSome hashed.next (IsBatch batch.now.ledger batch.now.digest blocks.now)) }
{
    let (right, next) = fork(
        rt,
        true,
        || -> usize
            requires { IsSync R.row × (1 ≤ threads) }
            ensures { All IsRight (take result batch.entry.now.claims.items) }
        { right_of(rt, &batch.claims, threads) },
        || -> Result<Option<Batch>, NoMemory>
            requires { IsSync R.row × All IsBlock blocks.now × AreBodies blocks.now bodies.now × AreWaiting blocks.now waiting.now }
            ensures { IfOk result (λ next. IfSome next
                (IsBatch batch.entry.now.ledger batch.entry.now.digest blocks.entry.now)) }
        {
            ahead(
                rt,
                alloc,
                &batch.ledger,
                &batch.digest,
                blocks,
                bodies,
                waiting,
                spare,
                reach,
            )
        },
    );
    Ok(Hashed { right, next: next? })
}
