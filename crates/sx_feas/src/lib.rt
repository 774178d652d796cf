//! A flow of trade within bounds, or a cut that shows that there is none.
//!
//! [`feasible`] answers a circulation within the bounds, or a set of assets into which more must go than
//! may go out. Both are by the definitions of `sx_dual`, so a cut comes exactly where there is no
//! circulation (Hoffman's condition, 1960). The method is that of augmenting paths of Ford and Fulkerson
//! (Flows in Networks, 1962), for flows with lower bounds. Each pair starts at its lower bound, so that
//! some assets are bought more than sold, and have a surplus, and others are sold more than bought, and
//! have a shortage. The net has an arc from the asset sold to the asset bought of each pair, which takes
//! what the upper bound leaves, and a reverse, which gives back what went through the arc:
//!
//!                      high - low
//!     asset 0  ----------------------->  asset 1
//!     surplus  <-----------------------  shortage
//!                what went through
//!
//! Each asset is taken once. While it has a surplus, a search finds the assets that open arcs lead to
//! from it. Where one of these has a shortage, as much is pushed to it as the surplus, the shortage and a
//! path between them take, and again for as long as there are all three. Where none has, these assets are
//! a cut: each pair out of them is at its upper bound, each pair into them at its lower one, and yet more
//! of them is bought than sold.
//!
//! Invariant: each pair trades between its bounds, and no push gives a surplus to an asset that has none.
//! So once each asset was taken, none has a surplus; as much is bought in all as sold, and so each asset
//! balances. End: each push takes at least 1 from the surplus of the asset at hand. Cost: for n assets at
//! most n² times a new pair of a surplus and a shortage is met, since from one asset no more assets come
//! to be reached as pushes go on. Paths are shortest ones, so each of these takes at most about n³ pushes
//! (Edmonds and Karp, 1972), whatever the bounds are, and mostly few. A push costs one search of 2n² arcs,
//! and each pair that is met two more. The net and the flow take all the memory.
//!
//! Not here: which circulation is found, and how much it trades.
#![tactic(auto)]

mod cutting;
mod finding;
mod network;
mod pushing;
mod totals;

pub use finding::{Feas, feasible};
