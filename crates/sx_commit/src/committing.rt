//! The digest over all accounts, and proofs of one of them.

ghost use Rattle.std.specs.Prelude.{◌≡◌, ◌<◌, ◌≤◌, IfOk, Some, length, slice_get};
ghost use Rattle.sx_block.specs.Digest.{IsDigest};
ghost use Rattle.sx_commit.specs.Clashes.{IsProof};
ghost use Rattle.sx_commit.specs.Commitments.{IsGood, listed, most_places, place_beside, root_of, sibling_at};
ghost use Rattle.sx_commit.specs.Commitments.{siblings_of};
ghost use Rattle.sx_commit.specs.Levels.{lowest};

use crate::level::{LOWEST, Level};
use crate::subtree::digest_over;
use std::alloc::Global;
use std::thread::Threads;
use sx_block::{Digest, Digests, Proof};
use sx_bytes::NoMemory;
use sx_ledger::Ledger;

/// How many levels there are above the leaves, and so how many digests are beside the way from a leaf to the root.
pub const LEVELS: usize = 16;

/// The digest over all accounts: the root of the tree. Of many accounts 1 to 64 workers make the digests of a part
/// each, in threads that are started and joined once. The answer is the same for every number of them.
/// `NoMemory` is the only error.
pub fn commit<R: Threads + Sync>(
    rt: &R,
    alloc: Global,
    ledger: &Ledger,
    workers: u32,
) -> Result<Digest, NoMemory>
    requires some_worker { 1 ≤ workers }
    requires few_workers { workers ≤ 64 }
    ensures root { IfOk result (λ root. root ≡ root_of ledger.now) }
    ensures digest { IfOk result IsDigest }
{
    let mut level = Level::lowest(rt, alloc, ledger, workers)?;
    for k in LOWEST..LEVELS {
        level = level.above(alloc)?;
    }
    Ok(level.at(0))
}

// The place beside a place, under the same node.
fn beside(place: usize) -> usize
    requires { place < most_places }
    ensures { result ≡ place_beside place }
{
    if place % 2 == 0 { place + 1 } else { place - 1 }
}

// The digests beside the way from a place up to the lowest level that is kept.
fn first_siblings(alloc: Global, ledger: &Ledger, place: u32) -> Result<Vec<Digest>, NoMemory>
    requires { place < most_places }
    ensures { IfOk result (λ siblings. siblings.items ≡ listed (sibling_at ledger.now place) lowest) }
{
    let parts = ledger.parts();
    let mut siblings = Vec::with_capacity(alloc, LEVELS)?;
    for k in 0..LOWEST {
        let way = place as usize >> k;
        siblings.push(digest_over(parts, k, beside(way)))?;
    }
    Ok(siblings)
}

// The digests beside the way from a place to the root. So many workers make those of the lowest level that is kept.
pub(crate) fn siblings<R: Threads + Sync>(
    rt: &R,
    alloc: Global,
    ledger: &Ledger,
    place: u32,
    workers: u32,
) -> Result<Digests, NoMemory>
    requires place { place < most_places }
    requires some_worker { 1 ≤ workers }
    ensures { IfOk result (λ siblings. siblings ≡ siblings_of ledger.now place) }
{
    let mut siblings = first_siblings(alloc, ledger, place)?;
    let mut level = Level::lowest(rt, alloc, ledger, workers)?;
    for k in LOWEST..LEVELS {
        let way = place as usize >> k;
        let sibling = level.at(beside(way));
        siblings.push(sibling)?;
        level = level.above(alloc)?;
    }
    Ok(Digests::of(siblings))
}

/// The proof of the account at a place: it is good for the root that [`commit`] answers. Of many accounts 1 to 64
/// workers make the digests of a part each, in threads that are started and joined once. The answer is the same
/// for every number of them. `NoMemory` is the only error.
pub fn prove<R: Threads + Sync>(
    rt: &R,
    alloc: Global,
    ledger: &Ledger,
    place: u32,
    workers: u32,
) -> Result<Proof, NoMemory>
    requires place { place < length ledger.now.accounts }
    requires some_worker { 1 ≤ workers }
    requires few_workers { workers ≤ 64 }
    ensures version { IfOk result (λ proof. proof.version ≡ ledger.now.version) }
    ensures place { IfOk result (λ proof. proof.place ≡ place) }
    ensures account { IfOk result (λ proof. slice_get ledger.now.accounts place ≡ Some proof.account) }
    ensures siblings { IfOk result (λ proof. proof.siblings ≡ siblings_of ledger.now place) }
    ensures good { IfOk result (IsGood (root_of ledger.now)) }
    ensures ranges { IfOk result IsProof }
{
    let version = ledger.version();
    let account = ledger.account(place).copy()?;
    let siblings = siblings(rt, alloc, ledger, place, workers)?;
    Ok(Proof {
        version,
        place,
        account,
        siblings,
    })
}
