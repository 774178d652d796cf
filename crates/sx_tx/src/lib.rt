//! Transactions: what they are, their encoding as bytes, and which of an account's sequence numbers
//! may come next.
//!
//! A [`Tx`] is a payment, a new account, a new offer or the end of an offer, under a sequence number
//! of its account. [`read_tx`] answers one exactly where the bytes at the place begin with its
//! encoding, and else the first fault from left to right, with the reader back where it was.
//! [`read_id`], [`read_seq`], [`read_asset`], [`read_amount`] and [`read_limit`] do the same for one
//! field. [`read_candidates`] reads a whole payload of candidates: a count and that many
//! transactions, in any order and with repeats. [`decode_tx`] does what [`read_tx`] does in a list, where a reader
//! that was refused is read no further.
//! [`write_tx`] and [`write_candidates`] append the encoding, or nothing where memory runs out.
//! [`tx_laws`] and [`list_laws`] say that decoding inverts encoding, that no two values share an
//! encoding, and that none is a prefix of another.
//!
//! A [`Window`] says which of an account's sequence numbers were used: all up to the last one, and
//! in version 2 some of the [`Window::OPEN`] after it. [`Window::place`] is where a number stands
//! among these. [`Window::next`] is the window after a block, and [`window_laws`] says in the words
//! of used numbers what it is.
//!
//! Not here: whether an account, an asset or an offer is there, what a transaction does (`sx_ledger`), and decoding by
//! several threads (`sx_parts`).
#![tactic(auto)]

mod fields;
mod kind;
mod laws;
mod reading;
mod tx;
mod tx_list;
mod window;
mod writing;

pub use fields::{read_amount, read_asset, read_id, read_limit, read_seq};
pub use kind::Kind;
pub use laws::{list_laws, tx_laws, window_laws};
pub use reading::{decode_tx, read_candidates, read_tx};
pub use tx::Tx;
pub use tx_list::{MOST_TRANSACTIONS, TxList, TxParts};
pub use window::{Window, WindowFault};
pub use writing::{write_candidates, write_tx};
