//! The digests of the transactions of blocks, made by several threads before the blocks are applied.

ghost use Rattle.std.specs.Prelude.{◌≡◌, ◌*◌, ◌<◌, ◌≤◌, List, length, map, IfOk};
ghost use Rattle.std.specs.List.{All};
ghost use Rattle.std.specs.Thread.{IsSync};
ghost use Rattle.sx_block.specs.Block.{IsBlock};
ghost use Rattle.sx_follow.specs.Bodies.{AreBodies, IsBodyAt, body_above};

use std::alloc::Global;
use std::thread::Threads;
use sx_block::{Block, Digest};
use sx_bytes::NoMemory;
use sx_digests::body_digest;
use sx_fork::fork;

// The digest of the transactions of a block, where it is above this height.
fn digest_above(alloc: Global, block: &Block, height: u64) -> Result<Option<Digest>, NoMemory>
    requires { IsBlock block.now }
    ensures { IfOk result (λ body. body ≡ body_above height block.now) }
{
    if block.header.height <= height {
        return Ok(None);
    }
    Ok(Some(body_digest(alloc, block.txs.items())?))
}

// The same of each block.
fn digests_in_turn(
    alloc: Global,
    blocks: &[Block],
    height: u64,
) -> Result<Vec<Option<Digest>>, NoMemory>
    requires { All IsBlock blocks.now }
    ensures { IfOk result (λ digests. digests.items ≡ map (body_above height) blocks.now) }
{
    let mut digests = Vec::new(alloc);
    for place in 0..blocks.len() {
        digests.push(digest_above(alloc, &blocks[place], height)?)?;
    }
    Ok(digests)
}

// The same by so many threads, each of which goes over some of the blocks.
fn digests_by<R: Threads + Sync>(
    rt: &R,
    alloc: Global,
    blocks: &[Block],
    height: u64,
    threads: usize,
) -> Result<Vec<Option<Digest>>, NoMemory>
    requires some { 1 ≤ threads }
    requires form { All IsBlock blocks.now }
    ensures { IfOk result (λ digests. digests.items ≡ map (body_above height) blocks.now) }
{
    if threads < 2 {
        return digests_in_turn(alloc, blocks, height);
    }
    let others = threads - 1;
    let (front, back) = blocks.split_at(blocks.len() / threads);
    let (one, other) = fork(
        rt,
        others < 2,
        || -> Result<Vec<Option<Digest>>, NoMemory>
            requires { All IsBlock front.now }
            ensures { IfOk result (λ digests. digests.items ≡ map (body_above height) front.entry.now) }
        { digests_in_turn(alloc, front, height) },
        || -> Result<Vec<Option<Digest>>, NoMemory>
            requires { IsSync R.row × (1 ≤ others) × All IsBlock back.now }
            ensures { IfOk result (λ digests. digests.items ≡ map (body_above height) back.entry.now) }
        { digests_by(rt, alloc, back, height, others) },
    );
    let mut digests = one?;
    digests.extend_from_slice(&other?)?;
    Ok(digests)
}

/// Digests of the transactions of blocks, each at the place of its block. Those of blocks that cannot be applied any more
/// are missing, and maybe all.
#[derive(Debug, Drop)]
pub struct Bodies {
    digests: Vec<Option<Digest>>,
}

impl Bodies {
    /// No digests.
    pub fn none(alloc: Global) -> Bodies
        ensures { (blocks : List Block) → AreBodies blocks result }
    {
        Bodies {
            digests: Vec::new(alloc),
        }
    }

    /// Whether there are none.
    pub fn is_empty(&self) -> bool {
        self.digests.is_empty()
    }

    /// Those of the blocks above a height, made by so many threads.
    pub fn above<R: Threads + Sync>(
        rt: &R,
        alloc: Global,
        blocks: &[Block],
        height: u64,
        threads: usize,
    ) -> Result<Bodies, NoMemory>
        requires some { 1 ≤ threads }
        requires form { All IsBlock blocks.now }
        ensures { IfOk result (AreBodies blocks.now) }
    {
        Ok(Bodies {
            digests: digests_by(rt, alloc, blocks, height, threads)?,
        })
    }

    // The digest of the transactions of the block at a place. It is made where it is missing.
    pub(crate) fn at(
        &self,
        alloc: Global,
        blocks: &[Block],
        place: usize,
    ) -> Result<Digest, NoMemory>
        requires bodies { AreBodies blocks.now self.now }
        requires form { All IsBlock blocks.now }
        requires within { place < length blocks.now }
        ensures { IfOk result (IsBodyAt blocks.now place) }
    {
        match self.digests.get(place) {
            Some(Some(digest)) => Ok(*digest),
            _ => body_digest(alloc, blocks[place].txs.items()),
        }
    }
}
