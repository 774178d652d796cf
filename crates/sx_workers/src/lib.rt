//! Gathering by worker threads: the outcomes of candidates and the body of a block, by 1 to 64 workers at once.
//!
//! [`gather_all`] and [`gather_list`] answer outcomes and a body that are those of a gathering by the rules of
//! `sx_layout`, for every number of workers and whatever their threads do. Each worker has a part of the
//! candidates, as even as can be, and a pass of `sx_gather` over them. All passes are made before the first
//! worker starts. Each moves into the thread of its worker and comes back, and then they are joined in the order
//! of their parts:
//!
//! ```text
//!     candidates    0 . . . . . . . . . 10
//!     split         [ 0..2 | 2..5 | 5..7 | 7..10 ]         the whole pass, from its end to its front
//!                      |      |      |      |
//!     work          worker 0  1      2      3              on the same words, in any order of their steps
//!                      |      |      |      |
//!     join          [ 0..2 ]- 2..5 - 5..7 - 7..10 ->       into the first pass, from its front to its end
//!     seal          0 . . . . . . . . . 10
//! ```
//!
//! A worker submits its candidates one after the other. A submit takes no memory, has no lock and waits for
//! nobody, so a worker that stops keeps no other from going on. Each worker has its pass on its own stack
//! meanwhile: passes that stand side by side in memory share cache lines. For several workers as many threads
//! are started, while the calling one waits, and one worker is the calling thread. Where there are several, the
//! body is sorted by up to four threads, unless it comes in order. Where no thread can be started for a part of this, it is done
//! in a thread that is there: the answer is as good, and there is none that speaks of threads. All threads have
//! ended when the call returns.
//!
//! A [`Gate`] is called before each candidate. No clause speaks of it, and [`NoGate`] does nothing.
//!
//! Cost: that of `sx_gather` for each candidate, divided among the workers, and a split, a join and a thread
//! for each worker but the first. The memory is that of one gathering, and of the outcomes once more, since
//! the first pass takes in those of the others: a byte for each, and 16 bytes more for an overdraft.
//! [`gather_list`] makes the body in the memory of the candidates, which its caller hands over, and
//! [`gather_all`] in a copy of them.
//!
//! Not here: what a pass decides, and why its outcomes are right whatever others do (`sx_gather`). Nothing is
//! promised of which of two candidates that exclude each other is accepted, nor that workers run at the
//! same time, which a test shows.
#![tactic(auto)]

mod gate;
mod gathering;
mod parts;
mod working;

pub use gate::{Gate, NoGate};
pub use gathering::{gather_all, gather_list};
