//! Blocks: a header and transactions, their encoding, and what makes a block valid.
//!
//! A [`Block`] is what one batch decided: the prices, the value that each pair of assets trades, the potentials that
//! show that no more could be traded, what rounding keeps, the digests that chain it to the ledgers before and after
//! it, and the transactions. [`read_block`] answers the block exactly where a payload is the encoding of one, and else
//! the first fault from left to right, and [`par_read_block`] has several threads decode the transactions;
//! [`write_block`] appends the one encoding. [`block_laws`] says that no two blocks share an encoding and that each
//! fits a record. [`header_length`] tells where in a payload the bytes begin of which the digest of the transactions is
//! made, and [`write_header`] appends those before them.
//!
//! `specs/Validity` defines the ledger after a block and when a block is valid for a ledger: by sixteen
//! rules, in the order of `specs/Rule`. `specs/Effects` defines which flows can be traded, and what an offer trades,
//! gives and gets in a block.
//!
//! Why a block is refused is defined beside it: [`Invalid`] has the seventeen reasons, and `specs/Refusals` says when each
//! is the first. `specs/Chain` defines the chain that proposed blocks make, whatever their order.
//!
//! What follows stands as laws, for every ledger and every block. Each law is a clause of a function with an empty body,
//! or with calls of other laws alone: who stands on one calls its function, which does nothing when the program runs.
//!
//! ```text
//!     validity_laws       rules        ──►  a body, a flow that fits the bounds, what can be traded
//!     check_laws          a block      ──►  it is valid, or refused for one first reason, and never both
//!     fill_laws           an offer     ──►  what it gives and gets is worth what it trades, up to less than a unit
//!     limit_laws          a flow       ──►  which offers trade, in full or in part
//!     trade_laws          a flow       ──►  each asset's total stays, and a ledger is left
//!     block_effect_laws   valid block  ──►  all of this, and that no circulation trades more
//!     block_chain_laws    blocks       ──►  they have one chain, and more blocks only make it longer
//! ```
//!
//! Not here: digests of ledgers and bodies (`sx_digests`), computing the ledger after a block (`sx_apply`), deciding
//! whether a block is valid (`sx_check`), and what follows for inputs and outputs (`sx_meaning`).
#![tactic(auto)]

mod chain_laws;
mod checked;
mod digest;
mod effect_laws;
mod header;
mod header_reading;
mod header_writing;
mod invalid;
mod laws;
mod proof;
mod reading;
mod reading_in_parts;
mod refusal_laws;
mod rule_laws;
mod trade;
mod trade_reading;
mod writing;

pub use chain_laws::block_chain_laws;
pub use checked::Checked;
pub use digest::{Digest, Digests, digest_of};
pub use effect_laws::{block_effect_laws, fill_laws, limit_laws, trade_laws};
pub use header::{Block, Header};
pub use invalid::Invalid;
pub use laws::block_laws;
pub use proof::Proof;
pub use reading::read_block;
pub use reading_in_parts::par_read_block;
pub use refusal_laws::check_laws;
pub use rule_laws::validity_laws;
pub use writing::{header_length, write_block, write_header};
