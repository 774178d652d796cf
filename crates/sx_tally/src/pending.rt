//! Debits and credits that are pending: they are of transactions that are entered, and are posted later, many at once.

ghost use Rattle.std.specs.Prelude.{IfOk};
ghost use Rattle.sx_tally.specs.Postings.{IsNonePending};

use crate::entry::Entry;
use std::alloc::Global;
use sx_bytes::NoMemory;

/// The debits and credits that are pending, and room for the rows that are found when they are posted.
#[derive(Drop)]
pub struct Pending {
    pub debits: Vec<Entry>,
    pub credits: Vec<Entry>,
    pub rows: Vec<usize>,
}

impl Pending {
    /// Nothing is pending, with room for what so many transactions debit and credit.
    pub fn none(alloc: Global, room: usize) -> Result<Pending, NoMemory>
        ensures { IfOk result IsNonePending }
    {
        Ok(Pending {
            debits: Vec::with_capacity(alloc, room)?,
            credits: Vec::with_capacity(alloc, room)?,
            rows: Vec::with_capacity(alloc, room)?,
        })
    }
}
