//! Reading an input: from the bytes of a source to what its records hold.
//!
//! [`take`] reads the next record, which has to be there and to have the tag of what is wanted, and answers
//! what it holds: a ledger, candidates, a block, outcomes, a script, or a root and a proof for it, each of which is a
//! [`Payload`]. [`end`] says that nothing comes after it. A command that takes records of several tags uses [`next`],
//! which answers a record or the end, and [`decoded`], which answers what the record holds. [`take_head`] reads the
//! state at the beginning of an input with its digest, and [`take_block`] and [`decoded_block`] a block with that of its
//! transactions and the survey of them.
//!
//! Threads share what takes long. Several read the payload of a large state or of many candidates. A thread makes the
//! digest of a large state while the state is read, and goes on until the digest is needed ([`StateDigest`]). Another
//! makes that of many transactions while these are decoded and surveyed.
//!
//! ```text
//!     source -> next -> record -> decoded -> ledger, candidates, block, outcomes or script
//! ```
//!
//! [`Stop`] says why a command stops. Where the source tells the bytes that it has left, a fault of form is
//! exactly the first fault that `sx_meaning` finds there, with its offset in the whole input. A fault of reading
//! is answered only where the source's count of faults rose.
//!
//! A payload is in memory twice for a moment: as bytes, and as what they hold. [`take_with_spare`] answers the memory of
//! the bytes too, for a caller that writes as much.
//!
//! Not here: what a command does with what was read, and writing, but for [`written`], the record of a ledger.
#![tactic(auto)]

mod head;
mod incoming;
mod opening;
mod payloads;
mod stop;
mod stream;

pub use head::{Head, written};
pub use incoming::{Incoming, decoded_block, take_block};
pub use opening::take_head;
pub use payloads::{Payload, decoded};
pub use stop::Stop;
pub use stream::{Taken, end, end_of, next, stop_at, take, take_with_spare};
pub use sx_digests::{DigestOf, StateDigest};
