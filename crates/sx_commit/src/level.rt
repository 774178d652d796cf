//! One level of the tree of digests.

ghost use Rattle.std.specs.Prelude.{◌≡◌, ◌<◌, ◌≤◌, ◌^◌, IfOk, length};
ghost use Rattle.sx_commit.specs.Commitments.{digest_at};
ghost use Rattle.sx_commit.specs.Levels.{AreLowest, AreNodes, IsAbove, IsLevel, level_at, lowest, node_at, nothing_at};

use crate::hashing::{empty_digest, node_digest};
use crate::subtree::digest_over;
use std::alloc::Global;
use std::thread::Threads;
use sx_block::Digest;
use sx_bytes::NoMemory;
use sx_fork::for_each_mut;
use sx_ledger::{Ledger, Parts};

// The lowest level that is kept. Each of its digests is made of 128 accounts.
pub(crate) const LOWEST: usize = 7;

// How many accounts are worth a thread of their own. Making their digests takes half a millisecond or more, and to
// start a thread a small part of that.
const WORTH_A_THREAD: usize = 1_024;

// How many of the workers make a part of the digests of so many accounts.
fn makers(count: usize, workers: u32) -> usize
    requires { 1 ≤ workers }
    ensures { 1 ≤ result }
{
    (count / WORTH_A_THREAD).clamp(1, workers as usize)
}

// The digest at the lowest level over places without an account.
fn empty_lowest() -> Digest
    ensures { result ≡ nothing_at lowest }
{
    let mut empty = empty_digest();
    for _ in 0..LOWEST {
        empty = node_digest(&empty, &empty);
    }
    empty
}

// Makes the first digests of the lowest level.
fn make_lowest<R: Threads + Sync>(rt: &R, parts: &Parts, workers: u32, digests: &mut [Digest])
    requires some { 1 ≤ workers }
    requires few { length digests.old ≤ 2 ^ 56 }
    ensures one_each { length digests.new ≡ length digests.old }
    ensures digests { AreLowest parts.now digests.new }
{
    let threads = makers(parts.accounts.items().len(), workers);
    for_each_mut(
        rt,
        digests,
        threads,
        &|place: usize, digest: &mut Digest|
            requires { place < 2 ^ 56 }
            ensures { digest.exit.now ≡ digest_at parts.entry.now lowest place }
        {
            *digest = digest_over(parts, LOWEST, place);
        },
    );
}

// The digests at the first places of a level, and the one that stands at every place after them.
#[derive(Drop)]
pub(crate) struct Level {
    digests: Vec<Digest>,
    empty: Digest,
}

impl Level {
    // The lowest level that is kept. So many workers make it.
    pub(crate) fn lowest<R: Threads + Sync>(
        rt: &R,
        alloc: Global,
        ledger: &Ledger,
        workers: u32,
    ) -> Result<Level, NoMemory>
        requires { 1 ≤ workers }
        ensures { IfOk result (λ level. IsLevel ledger.now lowest level) }
    {
        let parts = ledger.parts();
        let count = parts.accounts.items().len().div_ceil(1 << LOWEST);
        let empty = empty_lowest();
        let mut digests = vec![in alloc; empty; count]?;
        make_lowest(rt, parts, workers, &mut digests);
        Ok(Level { digests, empty })
    }

    // The digest at a place.
    pub(crate) fn at(&self, place: usize) -> Digest
        ensures { result ≡ level_at self.now place }
    {
        if place < self.digests.len() {
            self.digests[place]
        } else {
            self.empty
        }
    }

    // The digest over two places of this level.
    fn node(&self, place: usize) -> Digest
        requires { place < 2 ^ 63 }
        ensures { result ≡ node_at self.now place }
    {
        let left = self.at(2 * place);
        let right = self.at(2 * place + 1);
        node_digest(&left, &right)
    }

    // Makes the digest over each two places of this level.
    fn make_nodes(&self, digests: &mut [Digest])
        requires few { length digests.old ≤ 2 ^ 63 }
        ensures one_each { length digests.new ≡ length digests.old }
        ensures nodes { AreNodes self.now digests.new }
    {
        for place in 0..digests.len() {
            digests[place] = self.node(place);
        }
    }

    // The level above.
    pub(crate) fn above(&self, alloc: Global) -> Result<Level, NoMemory>
        ensures { IfOk result (λ level. IsAbove self.now level) }
    {
        let count = self.digests.len().div_ceil(2);
        let empty = node_digest(&self.empty, &self.empty);
        let mut digests = vec![in alloc; empty; count]?;
        self.make_nodes(&mut digests);
        Ok(Level { digests, empty })
    }
}
