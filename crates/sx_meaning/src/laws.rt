//! Laws of inputs, and of chains of blocks.

ghost use Rattle.sx_meaning.specs.FilterLaws.{FiltersBodies};
ghost use Rattle.sx_meaning.specs.Laws.{ChainConserves, ChainKeepsLedger, FindsOne, FindsSome, FollowsReplays, ReplaysChains};
ghost use Rattle.sx_meaning.specs.Laws.{WritesOne, WritesSome};
ghost use Rattle.sx_meaning.specs.ProofLaws.{ProvedIsGood};
ghost use Rattle.sx_meaning.specs.SealLaws.{DemosAlike, DemosSettle, FiltersAlike, SealsAlike, SealsLeaveTheirMeaning};
ghost use Rattle.sx_meaning.specs.Settling.{ReplaysSettle, ValidSettles};

use sx_block::{block_chain_laws, block_effect_laws, check_laws};
use sx_commit::commitment_laws;
use sx_filter::kept_laws;

/// Of each input one thing is found, for each command: no fault, or one first fault, and one list of
/// bytes is then left of the input. So the answer to an input is a function of it. Where no fault is found,
/// each command but `seal` and `demo` may write one output, and there always is one. What a seal may write is
/// the same for any number of workers and shards, and what a filter or a demonstration may write for any number of
/// workers. What is written of one account is nothing, or a record of which a verification tells that it is good. What a
/// filter writes is the record of candidates that may be the body of a block, and all of which a gathering accepts.
pub fn input_laws()
    ensures one { FindsOne }
    ensures some { FindsSome }
    ensures one_output { WritesOne }
    ensures some_output { WritesSome }
    ensures seals_alike { SealsAlike }
    ensures filters_alike { FiltersAlike }
    ensures demos_alike { DemosAlike }
    ensures proved { ProvedIsGood }
    ensures filtered { FiltersBodies }
{
    check_laws();
    block_effect_laws();
    block_chain_laws();
    commitment_laws();
    kept_laws();
}

/// The blocks of a replay are a chain of valid ones. What a chain of valid blocks leaves of a ledger is
/// a ledger, and the total of each asset, of balances, offers and rounding, is that of the first ledger.
/// A valid block settles, and so does each block of a replay, on the ledger that the one before it left.
/// What a seal writes of a state is a block that a check of that state finds valid and that settles, and a
/// replay of the state and of what was written writes the ledger after the block. The block of a demonstration
/// settles. Where a replay writes a state, so does a follower that takes the same blocks.
pub fn chain_laws()
    ensures replays { ReplaysChains }
    ensures ledger { ChainKeepsLedger }
    ensures conserves { ChainConserves }
    ensures settles { ValidSettles }
    ensures each_settles { ReplaysSettle }
    ensures seals { SealsLeaveTheirMeaning }
    ensures demos { DemosSettle }
    ensures follows { FollowsReplays }
{
    block_effect_laws();
    block_chain_laws();
}
