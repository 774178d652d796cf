//! Digests of ledgers and of transactions, by SHA-256.
//!
//! [`ledger_digest`] and [`body_digest`] are the two digests of a block's header: that of a whole state record, and
//! that of a list of transactions. [`digest_of`] is the digest of bytes, and [`record_digest`] that of a record. Ledgers
//! and lists are written and hashed piece by piece:
//!
//! ```text
//!     frame, opening | 1,024 accounts | 1,024 accounts | .. | number of offers | 1,024 offers | ..
//! ```
//!
//! Three calls have threads help. [`par_ledger_digest`] has one encode the offers of a large ledger while another one
//! hashes the accounts. [`par_written_body`] answers the bytes of a list of transactions with their digest, and has one
//! write while another one hashes. A [`StateDigest`] is the digest of a state record, which a thread of its own makes
//! where the record is large.
//!
//! Cost: each entry is encoded once, and each byte hashed once.
//!
//! Not here: what a header's digests are of, which `specs/Validity` of `sx_block` says, and digests of single accounts
//! (`sx_commit`).
#![tactic(auto)]

mod body_writing;
mod hashing;
mod hashing_in_parallel;
mod pieces;
mod state_digest;

pub use body_writing::{WrittenBody, par_written_body};
pub use hashing::{body_digest, ledger_digest, record_digest};
pub use hashing_in_parallel::par_ledger_digest;
pub use state_digest::{DigestOf, StateDigest};
