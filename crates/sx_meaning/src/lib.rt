//! What an input means: what each command finds of it, and what it may write.
//!
//! An input is a list of bytes. Its records hold items (`specs/Items`). For each command it is defined which
//! items may come (`specs/Expected`, `specs/Replays`) and what is found of those that came: no fault, the first
//! fault of form, or the first reason why a block or candidates are refused (`specs/Findings`). Where there is
//! no fault, `specs/Outputs` and `specs/Sealing` say what may be written. `specs/Answers` and `specs/Status` say
//! what an answer of the program tells of all this.
//!
//! ```text
//!     bytes -> items -> finding -> no fault -> what may be written
//! ```
//!
//! What is found of an input is one thing, and so is the output of each command but `seal` and `demo`, of
//! which `IsSealed` and `IsDemonstrated` say what it may be: [`input_laws`]. [`chain_laws`] says that a chain
//! of valid blocks makes and loses nothing of any asset, what each of its blocks keeps, and that what a seal
//! wrote is found valid by a check and replayed to exactly the ledger after its block.
//!
//! Not here: any code of the program. `sx_input` reads inputs, and `sx_run` computes what is found and written.
#![tactic(auto)]

mod laws;

pub use laws::{chain_laws, input_laws};
