//! A circulation of greatest value within bounds, or a cut, in a bounded number of searches.
//!
//! [`solve`] answers a flow and potentials that fit the bounds, so that no circulation trades more, or a set
//! of assets into which more must go than may go out. Both are by the definitions of `sx_dual`, and a cut
//! comes exactly where there is no circulation. The method is the primal-dual one, level by level.
//!
//! Each pair starts at its upper bound and each asset at the height 0. Some assets are then bought more than
//! sold, and have a surplus, and others are sold more than bought, and have a shortage. A pair gains
//! 1 + the height of the asset sold - the height of the asset bought. One that gains nothing may trade anything
//! between its bounds: trading less of it sends from the asset bought to the asset sold, one level down, and
//! trading more of it back. As much as such pairs take is sent from surpluses to shortages. Then the assets to
//! which they still lead from a surplus rise by one. Here A has a surplus and D a shortage, and the pairs that
//! sell B for A, C for B and D for C can trade less:
//!
//! ```text
//!     level 3                                       A
//!                                                   |
//!     level 2                           A           B
//!                                       |           |
//!     level 1               A           B           C
//!                           |           |           |
//!     level 0   A B C D     B C D       C D         D
//! ```
//!
//! At last the surplus of A goes down to D. Could the pair that sells C for B trade nothing less, A and B would
//! rise on, and no asset would stand at level 1. Each pair into the assets above such a level loses, and
//! trades what it must; each pair out of them gains, and trades all that it may; and yet they are bought more
//! than sold. So they are a cut.
//!
//! Invariant: a pair that gains trades its upper bound, and one that loses its lower bound; each surplus stands
//! at the highest level, and each shortage at level 0. End: where no surplus is left, each asset balances, and
//! the heights are potentials that fit. An asset stands at each level, so there are at most n levels for n
//! assets. At each level the most is sent by capacity scaling: a search only takes arcs that have the scale
//! left, a power of two. Where it fails, the next scale is by the most that is left out of the assets that it
//! reached, since no more than that can be sent over each arc: scales at which nothing can be sent are left
//! out. A scale has four binary digits less than what is left, so that few searches fail, and less than 16
//! times the scale is left.
//!
//! Cost: each push sends the scale at least, over one of at most n(n + 1) arcs out of the assets that were
//! reached. So for upper bounds below 2^b there are at most 16n(n + 1) searches for each four digits, and in
//! all 4n²(n + 1)b, and mostly some hundred for 32 assets. What [`solve`] promises of its searches is a little
//! more. A search looks at 2n² + 4n arcs at most. The net, the heights and the flow take all the memory, before
//! the first search and after the last.
//!
//! Source: Ford and Fulkerson, "Flows in Networks" (1962), chapter 3, for the primal-dual method; Edmonds and
//! Karp, "Theoretical improvements in algorithmic efficiency for network flow problems" (1972), and Gabow,
//! "Scaling algorithms for network problems" (1985), for scaling; Ahuja, Magnanti and Orlin, "Network Flows"
//! (1993), chapters 7 and 9.
//!
//! Not here: which of several greatest circulations is answered, and which of several cuts.
#![tactic(auto)]

mod network;
mod numbers;
mod pushing;
mod raising;
mod reaching;
mod scaling;
mod separating;
mod solving;
mod trading;

pub use solving::{Solved, solve};
