//! What follows of a good proof that the ledger does not bear out.
//!
//! The way of the ledger and that of the proof begin at different bytes and end at one root. So at some
//! level different bytes have one digest:
//!
//! ```text
//!     level 2         r    =    r
//!     level 1         p    =    p'      here: the two digests under p are not those under p'
//!     level 0         a    ≠    a'
//!                   ledger    proof
//! ```

ghost use Rattle.std.specs.Prelude.{◌≡◌, ◌≢◌, ◌≤◌, IfOk, length, slice_get};
ghost use Rattle.sx_commit.specs.Clashes.{AreWhole, IsClash, IsCollision, IsProof};
ghost use Rattle.sx_commit.specs.Commitments.{IsGood, bytes_of, folded, joined, joined_bytes, levels, node_bytes};
ghost use Rattle.sx_commit.specs.Commitments.{root_of};

use crate::collision::Collision;
use crate::committing::{LEVELS, siblings};
use crate::hashing::{EMPTY, NODE, write_leaf};
use crate::verifying::join;
use std::alloc::Global;
use std::thread::Threads;
use sx_block::{Digest, Proof, digest_of};
use sx_bytes::{Bytes, NoMemory, Writer};
use sx_ledger::Ledger;

// The bytes of what stands at a place of the ledger.
fn place_text(alloc: Global, ledger: &Ledger, place: u32) -> Result<Writer, NoMemory>
    ensures { IfOk result (λ text. text ≡ bytes_of ledger.now.version (slice_get ledger.now.accounts place)) }
{
    let mut text = Writer::new(alloc);
    if place < ledger.accounts() {
        write_leaf(&mut text, ledger.version(), ledger.account(place))?;
        return Ok(text);
    }
    text.put_u8(EMPTY)?;
    Ok(text)
}

// The bytes of two digests.
fn node_text(alloc: Global, left: &Digest, right: &Digest) -> Result<Bytes, NoMemory>
    ensures { IfOk result (λ bytes. bytes ≡ node_bytes left.now right.now) }
{
    let mut text = Vec::new(alloc);
    text.push(NODE)?;
    text.extend_from_slice(left.bytes())?;
    text.extend_from_slice(right.bytes())?;
    Ok(Bytes::of(text))
}

// The bytes of a digest at a place and its sibling.
fn joined_text(
    alloc: Global,
    place: u32,
    digest: &Digest,
    sibling: &Digest,
) -> Result<Bytes, NoMemory>
    ensures { IfOk result (λ bytes. bytes ≡ joined_bytes place digest.now sibling.now) }
{
    if place % 2 == 0 {
        node_text(alloc, digest, sibling)
    } else {
        node_text(alloc, sibling, digest)
    }
}

// The bytes over different digests at a place, each with its sibling, where they have one digest.
fn meeting(
    alloc: Global,
    place: u32,
    own: &Digest,
    own_sibling: &Digest,
    said: &Digest,
    said_sibling: &Digest,
) -> Result<Collision, NoMemory>
    requires differ { joined_bytes place own.now own_sibling.now ≢ joined_bytes place said.now said_sibling.now }
    requires same { joined place own.now own_sibling.now ≡ joined place said.now said_sibling.now }
    ensures { IfOk result IsCollision }
{
    let left = joined_text(alloc, place, own, own_sibling)?;
    let right = joined_text(alloc, place, said, said_sibling)?;
    Ok(Collision { left, right })
}

// Goes up from two different leaves at a place, by two lists of siblings, to the level at which they meet.
fn climb(
    alloc: Global,
    place: u32,
    own_siblings: &[Digest],
    said_siblings: &[Digest],
    own_leaf: &Digest,
    said_leaf: &Digest,
) -> Result<Collision, NoMemory>
    requires differ { own_leaf.now ≢ said_leaf.now }
    requires own_leaf { length own_leaf.now ≡ 32 }
    requires said_leaf { length said_leaf.now ≡ 32 }
    requires own_whole { length own_siblings.now ≡ levels }
    requires said_whole { length said_siblings.now ≡ levels }
    requires own_digests { AreWhole own_siblings.now }
    requires said_digests { AreWhole said_siblings.now }
    requires one_root { folded place own_siblings.now own_leaf.now levels ≡ folded place said_siblings.now said_leaf.now levels }
    ensures { IfOk result IsCollision }
{
    let mut own = *own_leaf;
    let mut said = *said_leaf;
    for k in 0..LEVELS {
        let way = place >> k;
        let own_above = join(way, &own, &own_siblings[k]);
        let said_above = join(way, &said, &said_siblings[k]);
        if own_above == said_above {
            return meeting(alloc, way, &own, &own_siblings[k], &said, &said_siblings[k]);
        }
        own = own_above;
        said = said_above;
    }
    unreachable!()
}

// Two byte strings as a collision.
fn collision(alloc: Global, left: &[u8], right: &[u8]) -> Result<Collision, NoMemory>
    ensures left { IfOk result (λ collision. collision.left ≡ left.now) }
    ensures right { IfOk result (λ collision. collision.right ≡ right.now) }
{
    let left = Bytes::of(Vec::from_slice(alloc, left)?);
    let right = Bytes::of(Vec::from_slice(alloc, right)?);
    Ok(Collision { left, right })
}

/// Nothing if the ledger has at the place of the proof what the proof says, and else two different byte strings with
/// the same SHA-256. The proof is good for the root of the ledger. Workers share the digests of the ledger as at
/// [`prove`](crate::prove). `NoMemory` is the only error.
pub fn clash<R: Threads + Sync>(
    rt: &R,
    alloc: Global,
    ledger: &Ledger,
    proof: &Proof,
    workers: u32,
) -> Result<Option<Collision>, NoMemory>
    requires good { IsGood (root_of ledger.now) proof.now }
    requires ranges { IsProof proof.now }
    requires some_worker { 1 ≤ workers }
    requires few_workers { workers ≤ 64 }
    ensures exact { IfOk result (IsClash ledger.now proof.now) }
{
    let own = place_text(alloc, ledger, proof.place)?;
    let mut said = Writer::new(alloc);
    write_leaf(&mut said, proof.version, &proof.account)?;
    if own.bytes() == said.bytes() {
        return Ok(None);
    }
    let own_leaf = digest_of(own.bytes());
    let said_leaf = digest_of(said.bytes());
    if own_leaf == said_leaf {
        let found = collision(alloc, own.bytes(), said.bytes())?;
        return Ok(Some(found));
    }
    let own_siblings = siblings(rt, alloc, ledger, proof.place, workers)?;
    let found = climb(
        alloc,
        proof.place,
        own_siblings.items(),
        proof.siblings.items(),
        &own_leaf,
        &said_leaf,
    )?;
    Ok(Some(found))
}
