//! Laws of chains of blocks.

ghost use Rattle.sx_block.specs.ChainLaws.{ChainGrows, EveryListHasChain, OneChain, PartGoesAsFar, ValidAreChain};

use crate::effect_laws::block_effect_laws;
use crate::refusal_laws::check_laws;

/// Each list of blocks has one chain from a ledger on. Blocks that come behind leave it as it was up to its end. If no
/// two different blocks have one parent, the chain of a part of them is the beginning of the chain of all. If each block
/// is valid in turn, the chain is the list.
pub fn block_chain_laws()
    ensures some { EveryListHasChain }
    ensures one { OneChain }
    ensures grows { ChainGrows }
    ensures part { PartGoesAsFar }
    ensures chain { ValidAreChain }
{
    block_effect_laws();
    check_laws();
}
