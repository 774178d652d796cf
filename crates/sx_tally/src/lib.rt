//! What a body of transactions does to the accounts and offers of a ledger, added up.
//!
//! [`precheck`] goes over the transactions once. It answers the first that the ledger refuses by itself,
//! or, where none is, a [`Tally`] of what all of them do: debits and credits, the sequence numbers that
//! are used, the offers that are cancelled and made, and the accounts that are created. Contracts see a
//! tally through its relation to the list of transactions (`IsTally`), where each part is a plain sum or
//! a plain list. [`par_precheck`] answers the same, and has threads look up where what the transactions name
//! stands.
//!
//! The tally tells the rest of what makes a body admissible (`IsAdmissibleIn` of `sx_ledger`), and no
//! transaction is looked at again: [`Tally::cancelled_again`] and [`Tally::created_again`] tell the first
//! transaction that cancels an offer or creates an account that one before it does, [`Tally::created`]
//! and [`Tally::made`] how many accounts and offers come, and [`Tally::first_overdraft`] the first account
//! and asset whose debits are above what may be spent, by the rule of either version.
//! [`Tally::par_first_overdraft`] answers the same, and has each of several threads look at a part of the
//! accounts. Only it and [`par_precheck`] start threads.
//!
//! Only accounts that are debited or credited have sums of their own, and only their balances are read.
//!
//! Below that, part by part: `look_up` finds the places of the accounts and offers that transactions name, by several
//! threads or by one. `hold` puts what a transaction debits and credits at its places behind what is pending, as one
//! entry for each, and `Postings` adds up many entries at once:
//!
//! ```text
//!     account 7, at place 2, pays 5 of asset 0 to account 9, at place 3
//!
//!         debit    place 2   asset 0   5
//!         credit   place 3   asset 0   5
//! ```
//!
//! Contracts say of `hold` that what is posted and what is pending together are the plain sums over the transactions
//! (`debits` and `credits` of `sx_ledger`).
//!
//! Each payee and each cancelled offer is searched for once, and an account once where its transactions stand together.
//! An account gets a row of sums, one for each asset, with its first posting: one that no transaction debits or credits
//! takes 8 bytes. A sum takes 8 bytes as long as all amounts together are below 2^64, and 16 bytes from then on.
//!
//! [`offers_after`] answers what the body changes the offers to, and [`apply_accounts`] the accounts after it.
//!
//! Not here: the definitions (`sx_ledger`), whether transactions stand in order, and what trades afterwards.
#![tactic(auto)]

mod after;
mod cancellations;
mod creations;
mod entries;
mod entry;
mod kinds;
mod lookup;
mod overdraft;
mod pending;
mod postings;
mod prechecking;
mod ranges;
mod repeats;
mod sums;
mod tally;
mod units;
mod used;

pub use after::{OfferChange, apply_accounts, apply_to_account, complete_accounts, offers_after};
pub use prechecking::{PrecheckFault, par_precheck, precheck};
pub use tally::Tally;
