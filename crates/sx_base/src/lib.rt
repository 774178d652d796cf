//! What every other crate stands on: input and output as two traits, and the small types of the
//! exchange.
//!
//! A [`Source`] gives bytes and a [`Sink`] takes them. Each call answers how many, or [`Failed`],
//! and that only where a count of faults has risen, so a caller's own answer "reading failed" can
//! be tied to it. A count that rises at failures alone is called strict: then a call that did not
//! fail leaves it as it was. [`take_exact`] and [`put_all`] go on until all is done. [`MemSource`]
//! and [`MemSink`] are in memory, tell all their bytes and fail at the calls that they are told to;
//! [`StdSource`] and [`StdSink`] adapt `std::io` and tell nothing of the bytes.
//! [`AssetId`], [`Seq`] and [`Amount`] keep their ranges, [`AccountId`] is any integer, and
//! [`Balances`] is a list, of which up to eight stand in the value itself.
//!
//! Not here: files, clocks, threads, buffering, retries after a failure, and any claim that a
//! source ever gives a byte. What `std::io` gives and takes is trusted.
#![tactic(auto)]

mod account_id;
mod amount;
mod asset_id;
mod balances;
mod exact;
mod failed;
mod mem_sink;
mod mem_source;
mod memory;
mod seq;
mod sink;
mod source;
mod std_sink;
mod std_source;

pub use account_id::AccountId;
pub use amount::{Amount, AmountRange};
pub use asset_id::{AssetId, AssetRange};
pub use balances::{BalanceVec, Balances};
pub use exact::{TakeFault, put_all, take_exact};
pub use failed::Failed;
pub use mem_sink::MemSink;
pub use mem_source::MemSource;
pub use seq::{Seq, SeqRange};
pub use sink::Sink;
pub use source::Source;
pub use std_sink::StdSink;
pub use std_source::StdSource;
