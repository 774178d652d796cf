//! Gathering by actors that take turns.
//!
//! [`run_script`] gathers candidates by 1 to 8 actors that take turns as a script says, on one thread.
//! `specs/Running` says what each turn does and what is left to do after the last one, and the outcomes
//! are exactly those. They can be encoded, and they are those of a gathering, whatever the actors and the
//! order of their turns: its own contract says so.
//!
//! Not here: actors that run at the same time (`sx_gather`, `sx_workers`), and the bytes of a script (`sx_outcome`).
#![tactic(auto)]

mod acting;
mod deciding;
mod hand;
mod one_shard;
mod run_form;
mod running;

pub use run_form::run_laws;
pub use running::run_script;
