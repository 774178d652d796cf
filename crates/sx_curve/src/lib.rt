//! The supply of every pair of assets as a curve, and what the search for prices means.
//!
//! A [`Quote`] is what an offer says of price and amount: so much of one asset is for sale for
//! another at a limit price or better. The quotes of one pair in order of their limits make a supply
//! curve: at a rate r, all that is quoted at r or below is for sale. In this drawing 30 is quoted at
//! the limit 1, 20 at 2 and 40 at 4.
//!
//! ```text
//!     amount
//!       90 |                  +-------
//!          |                  |
//!       50 |        +---------+
//!       30 |    +---+
//!          |    |
//!        0 +----+---+----+----+-------  rate
//!               1   2    3    4
//! ```
//!
//! [`Curves::build`] sorts the quotes of all pairs once, and keeps where each pair begins and a point of
//! each quote: its limit, and the sums over the quotes of its pair up to and with it. A
//! [`CurvesBuilder`] takes in quotes that come in order, one by one, so that no list of them is needed.
//! [`Curves::below`] then tells, by one search and without memory, the sums over a pair's quotes up to
//! any limit: of their amounts, at most `2^62`, and of each amount times its limit, at most `2^118`.
//! They stand in the last point that the limit reaches, so a search reads the points of one pair and
//! nothing else.
//!
//! [`Curves::below_near`] begins its search at a guess. It goes outward from there in steps that double
//! and then halves the last one: with d quotes between the guess and the answer it makes two times
//! log d steps, and two where the guess is right. [`Curves::below_both`] does so for two limits of one pair.
//!
//! `specs/Demand` says what all pairs sell at given prices, and by how much more of each asset is
//! wanted than sold; `specs/Search` says which prices the search ends at, whatever finds them. Both
//! speak of lists of quotes and prices alone. [`value_laws`] and [`search_laws`] state what follows.
//!
//! Not here: computing that demand and that search. Nothing says that a search balances the market,
//! or that its prices are good.
//!
//! Source: Ramseyer, Goel and Mazières, "SPEEDEX: A Scalable, Parallelizable, and Economically
//! Efficient Decentralized EXchange" (NSDI 2023), for the demand of a batch, its interpolation by μ
//! and the search by tâtonnement. The rule in whole numbers is this project's own. The search from a
//! guess: Bentley and Yao, "An almost optimal algorithm for unbounded searching" (Information Processing
//! Letters 5, 1976).
#![tactic(auto)]

mod begins;
mod curves;
mod curves_builder;
mod laws;
mod limits;
mod points;
mod quote;
mod sums;

pub use curves::Curves;
pub use curves_builder::CurvesBuilder;
pub use laws::{search_laws, value_laws};
pub use quote::Quote;
pub use sums::Sums;
