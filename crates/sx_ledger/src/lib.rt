//! The state between two blocks: accounts with their balances, offers, the prices of the last block
//! and the rounding kept so far; and the rules by which a block changes it.
//!
//! A [`Ledger`] keeps, at every moment: one price and one rounding per asset, accounts strictly by
//! id with one balance per asset, offers strictly by their [`Key`] with their owners there, every
//! number in its range, and for each asset a total of balances, offers and rounding of at most
//! `2^62`. Contracts see a ledger as its [`Parts`].
//!
//! A ledger is of version 1, in which the sequence numbers that a block skipped are lost, or of version 2, in which they
//! stay open; [`Ledger::migrate`] makes a ledger one of version 2. [`Ledger::static_check`] answers the first reason,
//! a [`Static`], why the ledger refuses a transaction by itself, and [`Ledger::places_of`] the same
//! with the [`Places`] where its account and what it names stand. [`Ledger::find`] and
//! [`Ledger::find_offer`] search for an account and for an offer, a [`LedgerIndex`] finds many of a
//! ledger's accounts and offers fast and an [`AccountIndex`] many of a list of accounts, and
//! [`Ledger::copy`] makes a ledger of its own. Any call that takes memory may answer out of memory
//! instead.
//!
//! An [`Account`] has its [`Window`](sx_tx::Window) and its balances, an [`Offer`] its terms and its
//! amount, and a [`Fill`] what an offer trades. [`Accounts`], [`Offers`] and [`Fills`] are lists.
//!
//! `specs/` holds the definitions that the crates above share: effects of transactions, the body of
//! a block and what it leaves, bounds of trade, fills, rounding and what trading leaves.
//! [`posting_laws`], [`bound_laws`], [`body_laws`] and [`refusal_laws`] carry their laws. The first refused transaction of
//! a body, the first that repeats another and the first [`Overdraft`] are defined here too.
//!
//! Not here: a ledger as bytes (`sx_state`), computing what a block leaves, and whether a block is valid.
#![tactic(auto)]

mod account;
mod copying;
mod effect_laws;
mod fill;
mod finding;
mod first_refusal;
mod index;
mod key;
mod ledger;
mod ledger_index;
mod offer;
mod offer_marks;
mod overdraft;
mod parts;
mod place_table;
mod places;
mod statics;
mod totals;

pub use account::{Account, Accounts};
pub use effect_laws::{body_laws, bound_laws, posting_laws};
pub use fill::{Fill, Fills};
pub use first_refusal::refusal_laws;
pub use index::AccountIndex;
pub use key::Key;
pub use ledger::Ledger;
pub use ledger_index::LedgerIndex;
pub use offer::{Offer, Offers};
pub use overdraft::Overdraft;
pub use parts::Parts;
pub use places::{Places, Target};
pub use statics::Static;
