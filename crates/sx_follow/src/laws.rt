//! Laws of chains.

ghost use Rattle.std.specs.Prelude.{◌≡◌};
ghost use Rattle.sx_follow.specs.Follower.{most_blocks};
ghost use Rattle.sx_block.specs.ChainLaws.{ChainGrows, EveryListHasChain, OneChain, PartGoesAsFar, ValidAreChain};
ghost use Rattle.sx_follow.specs.FollowerLaws.{FollowersAgree, FollowersReplay};

use crate::follower::Follower;
use sx_block::{block_effect_laws, check_laws};

/// Each list of blocks has one chain from a ledger on. Blocks that come behind leave it as it was up to its
/// end. Where no two different blocks have one parent, the chain of a part of them is the beginning of the
/// chain of all; so followers of the same blocks, in any order and with any repeats, have the same head
/// where none can advance. Where each block is valid in turn, the chain is the list, and the head is what a
/// replay gives. `Follower::MOST_BLOCKS` is the most that a follower takes.
pub fn follow_laws()
    ensures some { EveryListHasChain }
    ensures one { OneChain }
    ensures grows { ChainGrows }
    ensures part { PartGoesAsFar }
    ensures agree { FollowersAgree }
    ensures chain { ValidAreChain }
    ensures replay { FollowersReplay }
    ensures most { Follower.MOST_BLOCKS ≡ most_blocks }
{
    block_effect_laws();
    check_laws();
}
