//! Blocks that are applied ahead of the digests.
//!
//! To hash the ledger that a block leaves takes longer than to apply the block, and the next block cannot be valid before
//! the digest is known. But a block names the digests of the ledgers before and after it, so that the next blocks are
//! found by these names alone. [`ahead`] applies up to 32 of them on one thread, each to the ledger that the one
//! before it leaves. All of them change one copy of the ledger, and what each leaves is kept as the encoding that its
//! digest is made of. That is a [`Batch`]. [`hash_and_apply`] has other threads hash the encodings of a batch, while the
//! batch on top of it is applied. Then digests and names are compared:
//!
//! ```text
//!     ledger ──► copy ──► after B1 ──► after B2 ──►  ..  ──► after B32     one thread, in place
//!                             │            │                     │
//!                         encoding     encoding     ..       encoding      hashed by the others, then compared
//! ```
//!
//! A block of a batch can be applied to the ledger before it, whatever digests it names (`IsApplicable`). Where the
//! ledgers have the digests that are named, it is valid.
//!
//! Which blocks these are, `waiting` finds. [`Bodies`] has the digests of the transactions of the blocks above a height,
//! which all threads make before blocks are applied ahead, so that the thread that applies them hashes nothing.
//!
//! The encodings of the ledgers ahead have about 16 MiB at most. Where two of them are longer than 8 MiB, or one is shorter
//! than 16 KiB, nothing is applied ahead. The memory of encodings and copies is used again (`spare`).
//!
//! Cost: a block is compared with the digest once for each batch that begins below it, judged and applied once, and its
//! ledger encoded and hashed once.
//!
//! Not here: what is done with a batch whose digests are right, or wrong (`follower`).

mod applying;
mod batch;
mod bodies;
mod hashing;
mod pipeline;

pub use applying::{ahead, goes_ahead};
pub use batch::{Batch, Claim, keep_states};
pub use bodies::Bodies;
pub use pipeline::{Hashed, hash_and_apply};
