//! One digest over all accounts of a ledger, and proofs of one account.
//!
//! [`commit`] answers the root of a tree of digests. Its leaves are the digests of the accounts, each at its
//! place in the ledger, and of nothing at the places after them:
//!
//! ```text
//!     level 2             r
//!                     /       \
//!     level 1       p           q
//!                 /   \       /   \
//!     level 0   a       b   c       -        a, b and c: three accounts; -: a place without one
//! ```
//!
//! There are sixteen levels above the leaves, and so a place for each account that a ledger may have. [`prove`]
//! answers the [`Proof`] of one account: the account, and the digest beside the way from its leaf to the root at
//! each level. In the drawing, what shows that b stands at place 1 is b itself and the digests a and q.
//! [`verify`] tells whether a proof leads up to a root, without the ledger. [`commitment_laws`] says that the
//! proof of what the ledger says does, and that no proof leads up to two roots. Of a good proof of anything else
//! [`clash`] makes a [`Collision`]: two different byte strings with the same SHA-256.
//!
//! The bytes of which a digest is made begin with 0 for an account, 1 for two digests and 2 for a place without an
//! account, so that none is taken for another.
//!
//! Cost: all places after the accounts have one digest at each level, so that a root or a proof takes about
//! twice as many digests as there are accounts. Each digest of level 7 is made of its 128 places at once, and no
//! digest below it is kept; the levels above are made one after the other. So the call takes memory for a digest of
//! each 128 accounts, and for one level more. Where there are 2,048 accounts or more, several threads make a part of
//! level 7 each. They are started and joined once.
//!
//! [`read_proof`] answers a root and a proof exactly if a payload is the encoding of both, and else the first fault from
//! left to right; [`write_proof`] appends the one encoding. [`proof_laws`] says that no other root and proof have it and
//! that each fits a record.
//!
//! ```text
//!     root | version | number of assets | place | account | sixteen digests, the lowest first
//! ```
//!
//! Not here: that nobody finds such a collision, for which SHA-256 is trusted, and the frame around a payload
//! (`sx_record`).
//!
//! Source: Ralph C. Merkle, "A Digital Signature Based on a Conventional Encryption Function" (CRYPTO 1987). The
//! bytes of the leaves and the number of levels are this project's own.
#![tactic(auto)]

mod clashing;
mod collision;
mod committing;
mod encoding_laws;
mod hashing;
mod laws;
mod leaf;
mod level;
mod proof_reading;
mod proof_writing;
mod subtree;
mod verifying;

pub use clashing::clash;
pub use collision::Collision;
pub use committing::{LEVELS, commit, prove};
pub use encoding_laws::proof_laws;
pub use laws::commitment_laws;
pub use proof_reading::read_proof;
pub use proof_writing::write_proof;
pub use sx_block::Proof;
pub use verifying::{leads_to, verify};
