//! What each offer of a pair gives and gets if the pair trades a given value.
//!
//! Offers of one pair trade in book order, from the lowest limit up: each takes the value that those
//! before it left, up to its whole amount. What it gives is its value in units of the sold asset,
//! rounded up, and what it gets its value in units of the bought asset, rounded down. So at most one
//! offer of a pair is filled in part. [`fill_pair`] answers the fills of the offers that trade at all,
//! and [`push_fills`] appends them to a list. Both cost what trades, and not what is on offer.
//!
//! The definitions look at each offer alone (`specs/PairFills`). [`pair_laws`] ties them to those of
//! `sx_ledger`, over the offers of all pairs.
//!
//! [`bounds_of`] answers what each pair must and may trade at given prices, as the sums over its offers, and
//! [`without_low`] the same bounds with each lower one dropped.
//!
//! Not here: how much a pair trades, and what becomes of the offers.
#![tactic(auto)]

mod bounds;
mod laws;
mod pair;

pub use bounds::{bounds_of, without_low};
pub use laws::pair_laws;
pub use pair::{fill_pair, push_fills};
