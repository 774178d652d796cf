//! The blocks that go on from a digest, by the digests that they name. None is judged.

ghost use Rattle.std.specs.Prelude.{◌≡◌, ℕ, ◌+◌, ◌^◌, ◌<◌, ◌≤◌, IfOk, IfSome, length};
ghost use Rattle.sx_follow.specs.Chosen.{AreChosen, IsChosen};
ghost use Rattle.sx_follow.specs.Waiting.{AreWaiting};

use crate::waiting::Waiting;
use std::alloc::Global;
use sx_block::{Block, Digest};
use sx_bytes::NoMemory;

/// The place of the first block of a height that names the digest as that of the ledger before it.
pub fn first_named(blocks: &[Block], waiting: &Waiting, height: u64, digest: &Digest) -> Option<u32>
    requires { AreWaiting blocks.now waiting.now }
    ensures { IfSome result (IsChosen height digest.now blocks.now) }
{
    for place in waiting.at(height) {
        if blocks[*place as usize].header.parent == *digest {
            return Some(*place);
        }
    }
    None
}

/// The places of at most so many blocks, beginning with the first block of a height that names the digest, each of which
/// names the one before it as its parent.
pub fn choose(
    alloc: Global,
    blocks: &[Block],
    waiting: &Waiting,
    height: u64,
    digest: &Digest,
    most: u32,
) -> Result<Vec<u32>, NoMemory>
    requires waiting { AreWaiting blocks.now waiting.now }
    requires low { height + most < 2 ^ 64 }
    ensures { IfOk result (λ places. AreChosen height digest.now blocks.now places.items) }
{
    let mut places = Vec::new(alloc);
    let mut named = *digest;
    for above in 0..most {
        let Some(place) = first_named(blocks, waiting, height + above as u64, &named) else {
            break;
        };
        places.push(place)?;
        named = blocks[place as usize].header.after;
    }
    Ok(places)
}
