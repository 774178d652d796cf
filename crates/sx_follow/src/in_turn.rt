//! Blocks that go on from the head, applied one after the other to one copy of it.

ghost use Rattle.std.specs.Prelude.{◌≡◌, ◌+◌, ◌<◌, IfErr, IfOk, length};
ghost use Rattle.std.specs.List.{All};
ghost use Rattle.sx_block.specs.Block.{IsBlock};
ghost use Rattle.sx_block.specs.Validity.{digest_of_ledger};
ghost use Rattle.sx_follow.specs.InTurn.{LeadsTo};
ghost use Rattle.sx_follow.specs.Chosen.{AreChosen};

use crate::leaving::{Leaving, step_in_place};
use crate::spare::Spare;
use std::alloc::Global;
use sx_block::{Block, Digest};
use sx_bytes::NoMemory;
use sx_ledger::Ledger;

// What the blocks at these places leave, each of which is applied to what the one before it leaves. Where one of them is
// refused, it is how many stand before it. All change one copy of the head, which is spare where one is refused.
pub(crate) fn apply_in_turn(
    alloc: Global,
    head: &Ledger,
    digest: &Digest,
    blocks: &[Block],
    places: &[u32],
    spare: &mut Spare,
) -> Result<Result<Leaving, usize>, NoMemory>
    requires digest { digest.now ≡ digest_of_ledger head.now }
    requires form { All IsBlock blocks.now }
    requires chosen { AreChosen (head.now.height + 1) digest.now blocks.now places.now }
    ensures applied { IfOk result (λ found. IfOk found (LeadsTo head.now blocks.now (length places.now))) }
    ensures refused { IfOk result (λ found. IfErr found (λ count. count < length places.now)) }
{
    let mut left = Leaving {
        ledger: spare.copy(alloc, head)?,
        digest: *digest,
    };
    for index in 0..places.len() {
        let block = &blocks[places[index] as usize];
        match step_in_place(alloc, left.ledger, &left.digest, block, spare)? {
            Some(next) => left = next,
            None => return Ok(Err(index)),
        }
    }
    Ok(Ok(left))
}
