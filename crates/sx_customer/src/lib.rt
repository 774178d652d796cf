//! A customer of the top call: what `run` promises, said again of balances, offers and totals.
//!
//! Each call hands words, a source and a sink to `run` and does nothing else. Its contract is read from the clauses of
//! `run`, and says what the answer means to one who has an account in the ledger: what the account has afterwards, what
//! its offers trade and at which rate, that nothing of an asset is lost but what the block records as rounding, that no
//! other trade within the bounds comes to more, and which outcome each candidate has. So this crate is an example of how
//! a program embeds the exchange, and a reader of `run`: if a clause of `run` said less, these contracts would not be
//! proved.
//!
//! [`ask`] says of each answer but `Refused` what it means, whatever the words ask for, and for any source and sink. The
//! other calls say what was written at `Done`, and why a seal, a check or a replay was refused; they take a source and a
//! sink in memory. `specs/Fairness` has what a block does to accounts, offers and totals, and `specs/Made` how a block
//! comes from its candidates.
//!
//! Cost: that of `run`.
//!
//! Not here: any rule of the exchange, and words, of which [`seal_line`] alone makes some.
#![tactic(auto)]

mod asking;
mod filtering;
mod proving;
mod replaying;
mod sealing;
mod telling;
mod words;

pub use asking::ask;
pub use filtering::filter;
pub use proving::{prove, verify};
pub use replaying::{check, follow, replay};
pub use sealing::{demonstrate, seal};
pub use telling::{interleave, migrate, show};
pub use words::seal_line;
