//! The top call of speedex: from words and bytes to bytes and a status.
//!
//! [`run`] carries the theorem of the program. It says, of every source and every sink: which words are
//! a command; what is found of an input, which is no fault or its first fault, of form or of a block that is
//! not valid; that the answer is what is found; what may be written where there is no fault, and that
//! nothing is written at one; and that a fault of reading or writing is answered only where the source's or
//! the sink's count of faults rose, and, where it rises at failures alone, wherever it rose.
//!
//! `seal` makes a block of candidates: worker threads gather them, and the body that they make is cleared at
//! searched prices by a greatest circulation. `check` tells whether a block is valid for a state, and `replay`
//! runs a chain of blocks from a state to the state after them. What a block leaves is `ledger_after`: plain
//! sums over the list of transactions and the list of offers. `interleave` tells what becomes of candidates
//! where a script says who makes the next step: `outcomes_of_run`, a function of the state, the candidates and
//! the script. `migrate` writes a state in version 2, and `show` what a record holds as a text. `filter` writes those
//! candidates that no other one stands in the way of. `prove` writes what shows one account of a state without the
//! state, and `verify` tells whether such a proof is good. `follow` takes proposed blocks in any order, and writes the
//! state after the chain that they make. `demo` makes a block of a market that is drawn from a number, and writes its
//! summary.
//!
//! What is found of an input is one thing, and so is the output of each command but `seal` and `demo`, of
//! which `IsSealed` and `IsDemonstrated` say what it may be: [`input_laws`]. [`chain_laws`] says that a chain
//! of valid blocks makes and loses nothing of any asset, what each of its blocks keeps, and that what a seal
//! wrote is found valid by a check and replayed to exactly the ledger after its block.
//!
//! Not promised: how long a run takes, that the system runs a thread to its end, that two threads run at
//! once, which of two candidates that exclude each other a seal accepts and which of several greatest
//! circulations it takes, that two ledgers of one digest are the same, and what a source gave or a sink
//! received that tells nothing of its bytes.
//!
//! Data flows from `sx_input` (bytes to what records hold) through `commands` (a file for each command, from what was read
//! to what is answered) and `output` (what a command writes, some of it in pieces that threads encoded: `pieces`) to
//! `running` (what a command found to what is written and to a status). What is found of an input is defined in
//! `sx_meaning`, and texts and statuses are those of `sx_text`.
#![tactic(auto)]

mod candidates_writing;
mod commands;
mod output;
mod pieces;
mod running;
mod state_writing;

pub use running::run;
pub use sx_meaning::{chain_laws, input_laws};
pub use sx_text::{Status, Text, status_line};
