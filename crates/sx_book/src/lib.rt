//! The order books of all ordered pairs of assets, for callers that keep books between blocks.
//!
//! Contracts see [`Books`] as a `Book`: how many assets there are, and all offers in the order of their
//! [`Key`](sx_ledger::Key)s, so that those of one pair stand together. [`Books::add`] puts an offer at its
//! place in that order, [`Books::cancel`] takes one out, and [`Books::reduce`] lets the offers of one pair
//! trade. Two offers at two prices, as they are kept:
//!
//!     map, by key       (0, 1, 5, ..) -> 3     (0, 1, 8, ..) -> 0     (1, 0, 2, ..) -> 2
//!
//!     list of (0, 1)    front ---> 3 ---> 0
//!     list of (1, 0)    front ---> 2
//!
//!     pool              0: offer at 8     1: free     2: offer at 2     3: offer at 5
//!
//! Each pair has a linked list, and all lists share one pool of nodes. A map leads from each key to the
//! node of its offer. Only `Store` changes them, and always both: what the map has is, from the first key
//! to the last, what the lists have, from the first list to the last.
//!
//! With n offers in the books, `add` and `cancel` take log n steps, and `cancel` unlinks from the middle of
//! a list. `build` takes n log n, `offers` as many as the pair has offers, `reduce` as many as there are up to
//! the last fill, and log n for each offer that leaves. `cancel` and `reduce` take no memory.
//!
//! Not here: what each offer of a pair trades, and accounts.
#![tactic(auto)]

mod books;
mod fault;
mod store;
mod walking;

pub use books::{Books, book_laws};
pub use fault::{Absent, BookFault};
