//! What is wanted of each asset in excess, at given prices.
//!
//! [`excess`] answers an [`Imbalance`]: for each asset by how much more value is wanted of it than is
//! sold of it, and both values together. What a pair of assets sells is told by its supply curve, by
//! two searches. A [`Demand`] keeps the memory that this takes, so that [`Demand::update`] takes none but
//! what threads take. It also keeps where the two searches of each pair ended, and begins those of the
//! next update there: while prices move little, each takes a few steps, however many quotes the pair
//! has. For n assets an update takes 2 n² such searches, which double their steps outward from there
//! (Bentley and Yao, "An almost optimal algorithm for unbounded searching", 1976).
//!
//! From 28 assets and 1,048,576 quotes on the pairs are shared among threads, and the answer is the same
//! whatever threads run.
//!
//! Not here: how prices are changed by it.
#![tactic(auto)]

mod balance;
mod demand;
mod imbalance;
mod pair;
mod parts;
mod sums;
mod table;

pub use balance::excess;
pub use demand::Demand;
pub use imbalance::{Imbalance, Nets, Volumes};
