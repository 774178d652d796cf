//! The accounts and offers of a ledger after an admissible body, of which the [`Tally`](crate::tally::Tally) is known.
//!
//! [`offers_after`] answers what the body changes the offers to, and [`apply_accounts`] the ledger after
//! it: exactly those of the definitions of `sx_ledger`. [`apply_to_account`] makes one account what it is
//! after the body, and [`complete_accounts`] the ledger once each account is so, for callers that change
//! many accounts at the same time.
//!
//! Balances change in place, and only those of accounts that are debited or credited. Of the accounts only those
//! that are created are sorted, and one pass puts them among the others, in the memory of these. Of the offers only
//! those that are made are sorted, by two numbers each in place of the five of a key, and one pass puts them among
//! those that are kept. Where none is made or cancelled, [`OfferChange`] says so, and the offers stay where they are.
//!
//! Not here: whether the body is admissible, which the tally tells , and what trades afterwards.

mod accounts;
mod applying;
mod created;
mod offers;
mod sorting;

pub use accounts::apply_to_account;
pub use applying::{apply_accounts, complete_accounts};
pub use offers::{OfferChange, offers_after};
