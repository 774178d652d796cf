//! Circulations of greatest value, and the potentials that show it.
//!
//! [`best`] starts from a circulation within the bounds and cancels gaining cycles until there is
//! none. A step from one asset to another moves value: a step up trades more of the pair that sells the
//! first and buys the second, where that pair is below its upper bound, and a step down trades less of
//! the pair the other way round, where that pair is above its lower bound. Each step moves value from
//! the first asset to the second, so the same amount moved round a cycle leaves each asset balanced.
//! A cycle gains where it has more steps up than down, since then more value is traded after it. In this
//! drawing the pair of A and B trades 10 both ways, and all four arrows may trade 10:
//!
//! ```text
//!          10 of 10                         10 of 10
//!       A ----------> B                  A ----------> B       up:   B to C, C to A
//!       ^ <---------- |                  ^ <---------- |       down: A to B, since B sells 10 for A
//!       |   10 of 10  |     becomes      |   0 of 10   |
//!       |             |                  |             |       2 up, 1 down: each unit that is moved
//!       +----- C <----+                  +----- C <----+       adds 1 to the traded value
//!     0 of 10    0 of 10              10 of 10   10 of 10
//! ```
//!
//! To find such a cycle, each asset has a height, 0 at first, and a walk that led to it. A step up leads
//! one higher than the asset that it leaves, and a step down one lower. Where that is above the height of
//! the asset that it comes to, this one gets that height, and the walk that led there. Where the walk
//! came to this asset before, it closes a cycle that gains. Where no step leads above a height, the
//! heights are potentials that fit the flow, and no circulation trades more.
//!
//! Invariant: the flow is a circulation within the bounds. End: a walk comes to no asset twice, so heights
//! stay below the number of assets, and each height that rises adds at least 1 to their sum; each cycle
//! that is cancelled adds at least 1 to the traded value, which the upper bounds limit.
//!
//! Cost: for n assets, a search for a cycle passes over the n² pairs at most n² times, and mostly a few
//! times. The number of cycles has no bound in n alone: from a poor circulation there can be as many as
//! units of value. `solve` of `sx_level` finds a greatest circulation in a bounded number of searches; this
//! is the plain way, to compare with. Memory is taken once for n walks and n potentials.
//!
//! Source: M. Klein, "A primal method for minimal cost flows" (1967); Ahuja, Magnanti and Orlin, "Network
//! Flows" (1993), chapter 9.
//!
//! Not here: how a first circulation is found, and which of several greatest circulations is answered.
#![tactic(auto)]

mod cancelling;
mod raising;
mod residual;
mod searching;
mod solver;
mod walk;

pub use solver::best;
