//! A file for each command: from what was read to what is answered.
//!
//! [`check`] reads a state and a block, and answers the line of a valid block or the first reason why the block is
//! refused. [`replay`] reads a state and blocks, each of which may have the outcomes of its candidates after it.
//! Each block is judged on the ledger so far and applied before the next record is read, so that one ledger and one
//! block are in memory at once. It answers the record of the ledger after all blocks.
//!
//! ```text
//!     state -> head -> block -> judged, applied -> head -> block -> .. -> head -> state
//! ```
//!
//! [`follow`] reads the same records, takes all blocks and judges none as it comes. Then it applies the ones that make a
//! chain, and answers the record of the ledger after it.
//!
//! [`seal`] gathers candidates by worker threads and clears the body that they make (`making`), and [`demonstrate`] does
//! the same with a market that is drawn from a number. [`filter`] keeps the candidates that conflict with no other,
//! [`prove`] writes a Merkle proof of an account and [`verify`] judges one.
//!
//! What may be answered is defined in `sx_meaning`.
//!
//! Not here: why a block is refused (`sx_check`), what it does to a ledger (`sx_spread`), and how a chain is found
//! (`sx_follow`).

mod advancing;
mod checking;
mod demonstrating;
mod filtering;
mod following;
pub mod interleaving;
mod leaving;
mod making;
pub mod migrating;
mod proving;
mod replaying;
mod sealing;
pub mod showing;
mod verifying;

pub use checking::check;
pub use demonstrating::demonstrate;
pub use filtering::filter;
pub use following::follow;
pub use making::{Made, MadeInPlace, Numbers, make, make_in_place};
pub use proving::prove;
pub use replaying::replay;
pub use sealing::seal;
pub use verifying::verify;
