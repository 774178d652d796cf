//! Whether a block is valid for a ledger, by sums over plain lists.
//!
//! [`check`] answers Ok exactly if a block is valid for a ledger, and else the first of seventeen reasons,
//! [`Invalid`](sx_block::Invalid), in the order of their numbers, except that the last comes where the tenth would if the
//! block is of version 2. [`check_laws`](sx_block::check_laws) says that each block is valid or has one first reason,
//! and never both.
//!
//! A caller that applies blocks does the same in steps. [`judge`] is all of it but `WrongAfter`, with the effects that
//! an execution need not compute again, and [`close`] is that reason, once the ledger after the block is known.
//! [`judge_applicable`] needs no digest of the ledger: a block of which it says Ok can be applied, and then [`named`] and
//! [`close`] are what is left. Where it refuses a block, [`first_reason`] tells the first reason once that digest is
//! known. [`survey_of`] is the part of it that needs no header, and [`par_survey_of`] the same by threads that look
//! accounts and offers up. Threads of [`judge_applicable`] look for an account that is overdrawn. No other call starts a
//! thread.
//!
//! A header needs not be trusted: that no circulation trades more value follows from its potentials,
//! and that lower bounds could not be kept from its cut. No solver, book or curve is used.
//!
//! `sx_block` has the rules in their order, the reasons, and when each is the first: the rules before that of a reason hold,
//! and its own is broken.
//!
//! Not here: how blocks are made, and running many of them.
#![tactic(auto)]

mod body;
mod fault;
mod header;
mod judged;
mod judging;
mod market;
mod rounding;
mod survey;

pub use fault::CheckFault;
pub use header::named;
pub use judged::Judged;
pub use judging::{check, close, first_reason, judge, judge_applicable};
pub use survey::{Survey, par_survey_of, survey_of};
pub use sx_block::{Checked, Invalid, check_laws};
