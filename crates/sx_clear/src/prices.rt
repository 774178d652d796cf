//! Price discovery: from the body of a block to prices, and to what each pair may trade at them.
//!
//! One pass over the body finds what it does and the offers after it ([`Body`]). Their quotes make supply curves, on which
//! prices are searched from those of the ledger, and the sums that the curves keep are the bounds of each pair: what has to
//! trade at the prices that are found, and what may ([`Opened`]). With no rounds the prices are the ledger's own, and no
//! curves are made: then the offers are summed up one by one, as they are at prices that are given ([`open_at`]).
//!
//! ```text
//!     body -> offers -> curves -> prices -> bounds
//!          \-> digest, or encoding and digest
//! ```
//!
//! [`written_and_opened`] makes the encoding of the body and its digest beside that, by a thread of its own if the body is
//! large. [`curves_of`] answers the curves alone.
//!
//! Cost: for n transactions and offers, n log n for looking up, and for sorting where the offers do not stand in order. A
//! round of the search grows with the logarithm of n alone, and the bounds take two searches in each pair's curve.
//!
//! Source: Ramseyer, Goel and Mazières, "SPEEDEX: A Scalable, Parallelizable, and Economically Efficient Decentralized
//! EXchange" (NSDI 2023), for a price search over the demand of offers. The rules in whole numbers are this project's own.
//!
//! Not here: what trades at the prices (`trade`), and the block (`clearing`). Nothing says that the prices are good, only that they
//! are those of the search.

mod body;
mod bounding;
mod curves;
mod digests;
mod opening;
mod quotes;
mod ranges;

pub use body::Body;
pub use curves::curves_of;
pub use digests::{Digests, digest_of_body, digest_of_parent};
pub use opening::{Opened, Search, WORKERS, open_at, written_and_opened};
pub use ranges::price_ranges;
