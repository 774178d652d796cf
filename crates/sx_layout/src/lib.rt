//! Which words gathering works on: a place for each balance, sequence number, offer and new id.
//!
//! A [`Layout`] says which word of which shard holds what: each balance is a purse, and each sequence
//! number, each offer and each new id is a bit, at a [`Spot`]. [`layout_laws`] says that no two of them
//! share a purse or a bit, that each has a word, and what the words are at the opening.
//!
//! A [`Setting`] is a layout with its ledger and its candidates: [`Setting::asked`] tells the words that a
//! candidate asks for, its number's bit and then a bit or an amount out of a purse, on any number of
//! shards. [`asked_laws`] says that they are there and that the bits are clear at the opening.
//!
//! `specs/Marks` says which claims decided candidates leave in a shard. [`closing_law`] ties them to the gathering that
//! `sx_outcome` defines: if the closing words, these claims and the opening words add up, and each refusal is one that
//! the closing words show, the outcomes are those of a gathering. It speaks of lists alone, whoever made the steps.
//! [`marks_laws`] says how the claims grow.
//!
//! Not here: outcomes and scripts as values and bytes (`sx_outcome`), and who makes the steps (`sx_script` in turns,
//! `sx_gather` by threads).
#![tactic(auto)]

mod asked;
mod dealing;
mod laws;
mod layout;
mod new_ids;
mod opening;
mod setting;
mod share;
mod spot;
mod stage;

pub use asked::{Asked, Wanted};
pub use laws::{asked_laws, closing_law, layout_laws, marks_laws};
pub use layout::Layout;
pub use setting::Setting;
pub use spot::Spot;
pub use stage::{Ahead, Next, Stage};
pub use sx_outcome::{
    NoRoom, Outcome, Outcomes, Script, read_outcomes, read_script, room, write_outcomes,
};
