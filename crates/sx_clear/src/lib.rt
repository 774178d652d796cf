//! From the body of a block to the block: prices, what trades at them, and the header that shows it.
//!
//! [`clear`] answers a valid block for a ledger and an admissible body. It searches prices from those of
//! the ledger, and at the prices that it finds it takes a circulation of greatest value within the
//! bounds of the offers after the body. Where no circulation keeps the lower bounds, they are dropped and
//! the block names a cut that shows it; they are dropped nowhere else. [`clear_in_place`] is the form that the others
//! follow: it takes the prices of the best of several searches, and no copy of the ledger. [`clear_at`] takes prices that
//! are given, and starts no thread.
//!
//! The method: what the body does, the prices and the bounds of each pair are found first (`prices`). Then
//! `trade_within` answers a circulation of greatest value within the bounds, with lower bounds dropped where
//! a cut shows that none keeps them. The value is shared out among the offers of each pair in their order, rounded to
//! whole units. What the block leaves of the ledger, or of a copy, is hashed for its header.
//!
//! In [`clear_in_place`], and so in [`clear`], threads look up the accounts and offers that a large body names. One thread
//! writes such a body beside the search for prices, and others hash what it has written; the block and the body as it was
//! written are answered. They change the accounts too where there are many, and credit the sellers where many offers
//! trade, each in a part of the accounts (`sx_spread`), and one encodes the offers that are left if these are many, while
//! the accounts are hashed.
//!
//! ```text
//!                              .-> prices -.                          .-> fills, rounding -.
//!     body -> offers -> curves-+           +-> bounds -> circulation -+                    +-> block
//!                              '-----------'                          '-> potentials, cut -'
//! ```
//!
//! Cost: for n transactions and offers, n log n for sorting and looking up, at most one copy of the ledger, and
//! an encoding of it before and after the block for the two digests. A round of the search grows with
//! the logarithm of n alone, and the circulation with the number of assets.
//!
//! Source: Ramseyer, Goel and Mazières, "SPEEDEX: A Scalable, Parallelizable, and Economically Efficient
//! Decentralized EXchange" (NSDI 2023), for a batch at one price for each asset: a price search, and a
//! circulation that corrects it. The rules in whole numbers are this project's own.
//!
//! Not here: nothing says that the prices are good, only that they are those of the search and leave no
//! more imbalance than the ledger's own. Nor is it said which circulation is answered where several trade
//! the greatest value. Which transactions are the body is decided before.
#![tactic(auto)]

mod clearing;
mod clearing_in_place;
mod filling;
mod heading;
mod leaving;
mod prices;
mod trade;

pub use clearing::{clear, clear_at};
pub use clearing_in_place::{Cleared, clear_in_place};
pub use prices::curves_of;
