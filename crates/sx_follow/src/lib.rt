//! A follower of proposed blocks.
//!
//! A [`Follower`] begins with a ledger and takes blocks that somebody proposes: in any order, with repeats and
//! gaps, and with bad ones among them. [`Follower::offer`] takes a block and judges nothing.
//! [`Follower::advance`] applies the first of all blocks taken that is valid for the head, and tells whether
//! there was one:
//!
//! ```text
//!     opening ──► head                 blocks taken, in the order in which they came
//!     height 0    height 0             B2   X1   B1   B1         X1 is refused
//!                 advance: B1 is the first that is valid
//!                 height 1             advance: B2
//!                 height 2             advance: none
//! ```
//!
//! A block that comes too early waits; one that was refused is looked at again where the head has its parent. So the
//! head is what the first blocks of the chain leave, by `IsChain` of `sx_block`: the first block of the list that is
//! valid for the opening ledger, then the first that is valid for what this leaves, and so on.
//! [`follow_laws`] says that there is one such chain, that blocks that come later only make it longer, that
//! followers of the same blocks agree where no two different ones have one parent, and that blocks in their order
//! give what a replay gives.
//!
//! Cost: the places of all blocks stand in a map by height, and only those of the next height can be valid. An
//! advance compares the parent of each of these with the head's digest, and judges those that have it, in their
//! order, up to the first that is valid. So where advances come after all blocks were taken, each block is compared
//! for one head alone, whatever the order in which they came (`waiting`). A block that is judged to its end is
//! applied to a copy of the ledger (`leaving`), which is written over the one of the block before, and takes no fresh
//! memory where it is as long.
//!
//! [`Follower::advance_all`] applies up to 32 blocks that go on from the head by the digests that they name to one copy of
//! it, one after the other. Where one of them is refused, those before it are applied once more, to another copy.
//!
//! [`Follower::par_advance_all`] applies blocks ahead, up to 32 on one thread, before it is known whether the ledgers
//! before them have the digests that they name, while other threads hash what earlier ones left (`ahead`). Where all
//! digests are the named ones, these blocks are steps of the follower, and the ledger that the last of them left is the
//! head. It ends where [`Follower::advance_all`] does.
//!
//! A forged block costs time: what was applied on top of it is dropped, those that were applied with it and stand before it
//! are applied once more, and the other blocks of its height are tried one by one. After it the follower applies one
//! block, then at most 2 at a time, then 4, and so on up to 32 again. So the first of many forged blocks costs at most 64
//! blocks that are applied in vain or twice, and one that stands soon after another costs few.
//!
//! Where nothing is applied ahead, threads only share the work of a block of 8,192 transactions or more.
//!
//! Not here: no block is ever dropped, so a follower takes 1,000,000 at most. Of two valid blocks with one
//! parent the one that came first counts, and nothing says which of them others take.
#![tactic(auto)]

mod ahead;
mod choosing;
mod finding;
mod follower;
mod in_turn;
mod laws;
mod leaving;
mod refilling;
mod spare;
mod spreading;
mod stepping;
mod waiting;

pub use follower::Follower;
pub use laws::follow_laws;
