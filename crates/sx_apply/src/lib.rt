//! What a block does to a ledger, on one thread but for [`par_tally_of`].
//!
//! [`apply_body`] answers the ledger after the transactions of a block, before anything trades, and
//! [`trade`] what trading leaves of that: offers lose what they give, sellers are credited with what
//! they get, the rounding of the block is kept, the prices are the ledger's, and the height rises by
//! one. The two in turn give the ledger after the block. [`apply`] does both with [`Effects`] that are
//! known already, since whoever judged the block had to find them. All answers are exactly those of the
//! definitions of `sx_ledger` and `sx_block`, which are plain sums. [`execute`] is the trade where it is
//! known what each offer trades, for callers that have no header yet. [`pay_sellers`] does the part of it that
//! lies in the accounts, some of them at a time, and [`settle`] the rest.
//!
//! [`tally_of`] answers what a body does, [`fills_of`] what each offer trades, and [`rounding_of`] what rounding keeps
//! of each asset. They go over sorted lists once, and [`fills_of`] only over the offers that trade: where a pair ends it
//! finds by halving the offers that are left. [`par_tally_of`] answers the same as [`tally_of`], with threads that look
//! accounts and offers up. By [`apply_laws`] a valid block has what the calls ask for.
//!
//! Not here: whether a block is valid, what pairs may trade (`sx_fill`), and how its prices and its flow are found.
#![tactic(auto)]

mod applying;
mod capacity;
mod effects;
mod fills;
mod laws;
mod lessening;
mod proceeds;
mod rounding;
mod tallying;
mod trading;

pub use applying::{apply, apply_body};
pub use effects::Effects;
pub use fills::fills_of;
pub use laws::apply_laws;
pub use proceeds::pay_sellers;
pub use rounding::rounding_of;
pub use tallying::{par_tally_of, tally_of};
pub use trading::{execute, settle, trade};
