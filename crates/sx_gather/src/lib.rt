//! Gathering: many threads decide candidates at once, and what they accept is the body of a block.
//!
//! A [`Gather`] has the candidates of a ledger and the words of their balances, sequence numbers, offers
//! and new ids, in 1 to 64 shards. A [`Pass`] is a range of the candidates. [`Gather::start`] makes the
//! first one, which has all of them; [`Gather::split`] hands the rear part of a pass to a new one, and
//! [`Gather::join`] puts two together whose ranges meet. [`Gather::submit`] decides the next candidate of
//! a pass. [`Gather::seal`] takes the pass that has decided all, and answers the outcomes and the body of
//! the accepted candidates. They are those of a gathering (`IsGathered` of `sx_layout`), whatever passes
//! there were, on whatever threads, and in whatever order their steps were made. [`Gather::par_seal`] does
//! the same, and sorts the body by several threads. Where the candidates stand in a list that is needed no
//! more, [`Gather::outcomes`] answers the outcomes alone, and [`seal_list`] or [`par_seal_list`] makes the body
//! by them, in the memory of the list.
//!
//! # Words, seats and passes
//!
//! ```text
//!     candidates    0 . . . . . . 7 8 . . . . . . . . 20
//!                   |-- pass A --|-------- pass B ------|
//!                   decided  next
//!
//!     pass A        seat 0   seat 1   seat 2     claims and notes, which stand in proofs alone
//!                      |        |        |
//!     shards        shard 0  shard 1  shard 2    words, which change in single atomic steps
//!                      |        |        |
//!     pass B        seat 0   seat 1   seat 2
//! ```
//!
//! A pass has a seat at each shard, and changes nothing but the words and its own seats. So threads share a
//! gathering by reference, each with a pass of its own that was moved to it, and no thread waits for
//! another.
//!
//! # How a candidate is decided
//!
//! 1. The ledger's static test: `Static`, and no step is made.
//! 2. The bit of its sequence number is claimed. Where it was set before: `SeqTaken`.
//! 3. A cancellation claims the bit of its offer, and a creation that of the new id. Where it was set before:
//!    `OfferTaken`, `NameTaken`. A payment and an offer take their amount out of the purse. Where it has
//!    less: `Overdraft`.
//!
//! Words only ever fall or gain bits, so a refusal stays true: what was gone is gone at the seal. Nothing
//! is given back, so the number of a candidate that came too late is used up in this gathering.
//!
//! # What a pass keeps
//!
//! `specs/Passes` says it (`IsPassOf`). All seats have the range of the pass. What a seat has claimed are
//! the marks of the decided candidates, in their order: the bit of each number that is kept, and what each
//! accepted candidate asked for, where that is in this shard. For each refusal a seat has the note of the
//! step that found it. A submit adds claims at the end, a split leaves them with the front part, and a join
//! adds those of the range that follows, so each call keeps this by itself, whatever others do meanwhile.
//!
//! At the seal the last pass has all candidates, so what is missing from the words is what it has claimed,
//! and each note is true of the words at the end. The closing law of `sx_layout` does the rest.
//!
//! # Cost
//!
//! A submit makes two steps and a search for what the candidate names, and takes no memory; another try at
//! a purse is made only where another thread took from it meanwhile. A split and a join take a step for each
//! shard, and a join copies the outcomes of the other pass: a byte for each, and 16 bytes more for an overdraft.
//! The memory for outcomes is taken by the start and by splits, as if each were an overdraft, and only what is
//! written to is used. A seal copies the candidates into memory that it takes, goes over the outcomes once to
//! move the accepted ones to the front of the copy, and sorts them there. `seal_list` does so in the list that
//! it is given, and takes no memory. `par_seal` and `par_seal_list` start threads for the sort, but none where
//! the accepted candidates come in the order of the body.
//!
//! Source: Ramseyer, Goel and Mazières, "SPEEDEX: A Scalable, Parallelizable, and Economically Efficient
//! Decentralized EXchange" (NSDI 2023), for gathering by atomic words, of balances and of used numbers. That
//! an opening balance bounds all debits, and the one order of steps for each candidate, are this project's
//! own.
//!
//! Not here: the threads that decide, and a choice of which of two candidates that exclude each other is accepted.
//! Nothing is said of fairness or of time.
#![tactic(auto)]

mod fault;
mod gather;
mod pass;
mod seal;
mod seat;
mod split;
mod submit;

pub use fault::GatherFault;
pub use gather::Gather;
pub use pass::Pass;
pub use seal::{Sealed, par_seal_list, seal_list};
