//! Ledgers as bytes: the payload of a state, both ways.
//!
//! [`read_state`] answers a [`Ledger`](sx_ledger::Ledger) exactly where the bytes are the encoding of one, and else the
//! first fault from left to right, and [`par_read_state`] the same, with threads that decode the accounts and the
//! offers, look up the owners of the offers and add up the totals. [`write_state`] appends the one encoding, and
//! [`state_length`] tells how long it is; [`write_opening`], [`write_accounts`] and [`write_offers`] append it piece by
//! piece. [`read_account`] and [`write_account`] do the same for one account, and [`read_prices`] reads a price for each
//! asset. Any call that takes memory may answer out of memory instead.
//!
//! [`account_laws`] and [`state_laws`] say that encoding and decoding are inverse to each other, and that no encoding is
//! a prefix of another.
//!
//! Not here: what a ledger keeps (`sx_ledger`), and the frame around a payload (`sx_record`).
#![tactic(auto)]

mod account_decoding;
mod account_reading;
mod account_sums;
mod entry_readers;
mod entry_sums;
mod laws;
mod offer_decoding;
mod offer_reading;
mod offer_standing;
mod offer_sums;
mod owners;
mod reading;
mod sizes;
mod totals;
mod writing;

pub use account_reading::read_account;
pub use laws::{account_laws, state_laws};
pub use reading::{par_read_state, read_prices, read_state};
pub use sizes::LONGEST_STATE;
pub use writing::{
    state_length, write_account, write_accounts, write_offers, write_opening, write_state,
};
