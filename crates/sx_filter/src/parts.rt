//! Candidates by ranges of accounts, so that each of several threads has the candidates of a range to itself.
//!
//! [`prepared_of`] cuts the ids of accounts into ranges, one for each worker and at most eight, where there are enough
//! candidates. Each thread goes over some of the parts in which the candidates come, once. It copies each candidate into
//! the list of its range, and counts what the candidates would add to the ledger:
//!
//! ```text
//!     part 1  ──►  | ids below 100 | ids below 200 | ..     so many accounts and offers more
//!     part 2  ──►  | ids below 100 | ids below 200 | ..     so many accounts and offers more
//! ```
//!
//! [`room_for_parts`] tells whether a ledger has room for candidates, and takes no memory for it. [`empty_lists`] and
//! [`put`] fill lists in the same way for other classes of accounts.
//!
//! Cost: a copy of each candidate, 40 bytes, and a comparison with at most seven ids.
//!
//! Not here: what becomes of the candidates of a range (`bands`).

mod by_range;
mod counting;
mod lists;
mod preparing;
mod ranges;

pub use by_range::ByRange;
pub use counting::room_for_parts;
pub use lists::{empty_lists, put};
pub use preparing::{Prepared, prepared_of};
