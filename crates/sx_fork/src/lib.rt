//! Work that is split among threads.
//!
//! [`fork`] and [`fork_mut`] make two calls at the same time, [`for_each_mut`] one at each place of a list, and
//! [`map_indices`] one for each number below a bound. What comes of it is what the calls would have done one after the
//! other: the contracts name the result of each call, and how many threads there are changes nothing. All threads have
//! ended when a call returns. Where a thread cannot be made, its work is done by the thread that asked for it.
//!
//! The thread that asks starts one thread for each part, one after the other, and then only waits:
//!
//! ```text
//!     this thread   start 1, start 2, start 3, start 4, wait ............ go on
//!     thread 1      |===== part 1 =====|
//!     thread 2        |===== part 2 =====|
//!     thread 3          |===== part 3 =====|
//!     thread 4            |===== part 4 =====|
//! ```
//!
//! That is one thread more than there have to be, since this one could do a part too. But Linux often puts a new thread on
//! the processor of the thread that starts it, and moves it to an idle one only some milliseconds later. A thread that
//! goes on to work keeps it waiting for so long, and one that waits makes room for it. For the same reason one thread
//! starts all others: where each one starts the next in turn, these delays add up.
//!
//! Cost: the work itself, and some 0.03 milliseconds to start and join each thread.
//!
//! Not here: a pool of threads, a choice of how many there should be, and any promise that threads run at the same time
//! or that the work is done sooner.
//!
//! Source: the fork-join model of Conway, "A Multiprocessor System Design" (AFIPS 1963).
#![tactic(auto)]

mod each;
mod forking;
mod indices;

pub use each::for_each_mut;
pub use forking::{fork, fork_mut};
pub use indices::map_indices;
