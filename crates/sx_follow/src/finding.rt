//! The next block of the chain.

ghost use Rattle.std.specs.Prelude.{◌≡◌, ◌+◌, IfNone, IfOk, IfSome};
ghost use Rattle.std.specs.List.{All};
ghost use Rattle.sx_block.specs.Block.{IsBlock};
ghost use Rattle.sx_block.specs.Validity.{digest_of_ledger};
ghost use Rattle.sx_block.specs.Chain.{NoneIsValid};
ghost use Rattle.sx_follow.specs.Follower.{NextLeaves};
ghost use Rattle.sx_follow.specs.Waiting.{places_of};

use crate::leaving::Leaving;
use crate::spare::Spare;
use crate::stepping::Stepping;
use std::alloc::Global;
use sx_block::{Block, Digest};
use sx_bytes::NoMemory;
use sx_ledger::Ledger;

// What the first block that is valid for the head leaves, if there is one. Only those of the next height can be, and
// these are their places.
pub(crate) fn find<S: Stepping>(
    by: &S,
    alloc: Global,
    head: &Ledger,
    digest: &Digest,
    blocks: &[Block],
    places: &[u32],
    spare: &mut Spare,
) -> Result<Option<Leaving>, NoMemory>
    requires ready { S.is_ready }
    requires digest { digest.now ≡ digest_of_ledger head.now }
    requires form { All IsBlock blocks.now }
    requires places { places.now ≡ places_of (head.now.height + 1) blocks.now }
    ensures found { IfOk result (λ found. IfSome found (NextLeaves head.now blocks.now)) }
    ensures none { IfOk result (λ found. IfNone found (NoneIsValid head.now blocks.now)) }
{
    for place in places {
        if let Some(left) = by.step(alloc, head, digest, &blocks[*place as usize], spare)? {
            return Ok(Some(left));
        }
    }
    Ok(None)
}
