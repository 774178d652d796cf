//! Prices at which trade is nearer to balance: a search by trials.
//!
//! [`search`] holds prices and tries others. In a trial the price of each asset moves with what is
//! wanted of the asset in excess: up where more of it is wanted than is sold, down where less is, by
//! the part that the excess is of the whole value, over `2^k`. The trial's prices are held instead
//! where they leave less imbalance; the next step is then greater, and else smaller. In this drawing
//! the second trial goes too far, so the third goes a smaller step from the first.
//!
//! ```text
//!     imbalance
//!        |*
//!        |    *  <- trial 1, held
//!        |            *  <- trial 2, given up
//!        |      *  <- trial 3, held
//!        +------------------- price
//! ```
//!
//! The search ends where nothing is to mend, where steps are too small, or after the rounds that it
//! is given. Its result has at most the imbalance of its start.
//! Steps that are too small to move any price are given up without a look at the demand.
//!
//! Cost: for n assets each round takes 2 n² searches in supply curves, and n² additions. Each search
//! begins where that of an earlier round ended, and takes a few steps while prices move little. From 28
//! assets and 1,048,576 quotes on threads share them. A round takes no memory but what threads take.
//!
//! Not here: nothing says that the result balances the market, or that a longer search finds better
//! prices.
//!
//! Source: Ramseyer, Goel and Mazières, "SPEEDEX: A Scalable, Parallelizable, and Economically
//! Efficient Decentralized EXchange" (NSDI 2023), for the search by tâtonnement with a step that
//! adapts. The rule in whole numbers is this project's own.
#![tactic(auto)]

mod offness;
mod point;
mod searching;
mod state;
mod step;
mod trial;

pub use searching::{Found, search, search_from};
