//! What a block does to a ledger, on several threads.
//!
//! [`apply_spread`] answers the ledger after a block, whose effects are known already. The answer is that of
//! `apply` of `sx_apply`, which does the same on one thread, whatever the number of workers.
//!
//! ```text
//!     accounts      | a b c | d e f | g h i |      one part for each worker
//!
//!     the body          w1      w2      w3         each account by its own sums in the tally
//!     one thread    those that are created come in
//!     the trade         w1      w2      w3         each part by the fills of its own sellers
//!     one thread    offers lose what they give
//! ```
//!
//! A part of the accounts is changed in place by one thread, and no account lies in two parts, so no worker waits
//! for another but at the end of each step. Where there is little to do, no thread is started.
//!
//! [`par_apply_accounts`] and [`par_execute`] are the two halves of it, for a caller that has no block yet: the ledger
//! after a body, and the ledger after trading. They answer what `apply_accounts` of `sx_tally` and `execute` of
//! `sx_apply` do.
//!
//! Offers are lessened on one thread: each is copied once, to its place among those that are left, which depends on
//! all before it.
//!
//! Not here: whether a block is valid, and what its effects are (`sx_check`).
#![tactic(auto)]

mod body;
mod paying;
mod sharing;
mod spreading;
mod trading;

pub use body::par_apply_accounts;
pub use spreading::apply_spread;
pub use trading::par_execute;
