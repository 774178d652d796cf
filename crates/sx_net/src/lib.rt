//! A residual network: how much each arc still takes, and a search for a path of arcs that take enough.
//!
//! This is the method of augmenting paths of Ford and Fulkerson (Flows in Networks, 1962), with the
//! breadth-first order of Edmonds and Karp. An arc has room, and what is left of it goes down by what
//! is pushed through. Each arc has a reverse, with nothing left at first, which takes back what went
//! through the arc. So what an arc and its reverse have left add up to the arc's room at any time. Arcs
//! `2k` and `2k + 1` are each other's reverse. Here 2 is pushed along the path 0, 1, 3:
//!
//!       3/0   1   2/0                  1/2   1   0/2
//!         /       \                      /       \
//!        0         3      becomes       0         3
//!         \       /                      \       /
//!       1/0   2   4/0                  1/0   2   4/0
//!
//!       what an arc has left / what its reverse has left
//!
//! [`Net::search`] looks for a path of open arcs from one node to another: arcs that are allowed and
//! have at least a given amount left. It visits nodes in the order of their distance, at most once
//! each, and so looks at each arc at most once. Arcs that are forbidden or have nothing left cost it
//! nothing: each node keeps a list of those that can carry something, and an arc goes from list to list
//! when it is allowed, forbidden or pushed through. Where a search finds no path, the nodes that it
//! reached are all that open arcs lead to, and no open arc leaves them: they are the cut that shows that
//! there is no path. [`Net::push`] pushes an amount along the path that was found. [`Net::new`] takes all
//! memory; the other calls take none.
//!
//! [`Steps`] counts the searches, at no cost, for bounds on how often a solver searches.
//!
//! Contracts see a net as `Network`: its arcs, how many more arcs there is room for, the path that is
//! kept and the nodes that the last search reached. [`net_laws`] carries the laws of reached sets.
//!
//! Not here: which path is found where there are several, shortest paths by cost, and greatest flows.
#![tactic(auto)]

mod arc;
mod laws;
mod leaving;
mod net;
mod pushing;
mod search;
mod steps;
mod tree;

pub use laws::net_laws;
pub use net::Net;
pub use steps::Steps;
