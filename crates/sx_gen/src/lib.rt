//! The demonstration: a market that is made from a number.
//!
//! [`demo_state`] is the state before it: 8 assets at one price, and 1,000 accounts that hold as much
//! of each. [`demo_candidates`] are 4,000 offers and 1,000 payments, whose assets, limits, amounts and
//! payees are drawn by xoshiro256++, started from the number. One number always gives the same list.
//!
//! [`demo_laws`] says that the list has 5,000 transactions, each within its ranges.
//!
//! Not here: gathering, clearing, and the text of the demonstration.
#![tactic(auto)]

mod candidates;
mod drawing;
mod laws;
mod state;

pub use candidates::demo_candidates;
pub use laws::demo_laws;
pub use state::demo_state;
