//! Decoding a long list of transactions by several threads.
//!
//! [`par_read_candidates`] answers a payload of candidates as `read_candidates` of `sx_tx` does, with the same errors,
//! and [`par_read_candidates_in_parts`] does so by threads each of which has a vector of its own. [`par_read_list`]
//! answers the list at a place of a payload, and where it ends.
//!
//! Where a transaction begins, only those before it tell. So it is guessed where the parts begin, all threads decode at
//! the same time, and then it is seen whether each part ends where the next one begins:
//!
//! ```text
//!     count | part 1 ......... | part 2 ......... | part 3 ......... | end of the payload
//!             thread 1 ───────►  thread 2 ───────►  thread 3 ───────►
//! ```
//!
//! Where one does not, or anything is amiss, one thread decodes the payload from its first byte, and so finds the first
//! fault.
//!
//! Cost: one pass over the bytes, divided among threads, one for each 256 KiB. If transactions differ in length, one pass
//! more over the bytes of their kinds alone. A payload with a fault is decoded once more.
//!
//! Not here: what the bytes of a transaction mean, and decoding by one thread (`sx_tx`).
#![tactic(auto)]

mod guess;
mod parts_reading;
mod reading_in_parts;

pub use parts_reading::par_read_candidates_in_parts;
pub use reading_in_parts::{par_read_candidates, par_read_list};
