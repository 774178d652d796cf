//! What a seat knows, and what the table is told when it is made.
use std::collections::LinkedList;
use std::snapshot::Snapshot;
use sx_event::{Claim, Note};

/// A view of the core, and a copy of the purse words at the opening.
///
/// It is the view of a seat, which stands in proofs alone: no value of it is made.
pub struct Known {
    /// Whether the seat is live, and not taken in by another.
    pub live: bool,
    /// The first candidate of its range.
    pub from: u32,
    /// The end of its range.
    pub end: u32,
    /// What it has taken, the latest at the end.
    pub claims: LinkedList<Claim>,
    /// What it has seen, the latest at the end.
    pub notes: LinkedList<Note>,
    /// The purse words at the opening.
    pub opening: LinkedList<u64>,
}

/// What the table is told when it is made: the words at the opening, of which the first is 0 and the next `purses` are the purse words, and
/// the number of candidates.
#[derive(Drop)]
pub struct Opening {
    pub words: Snapshot<Vec<u64>>,
    pub purses: usize,
    pub count: u32,
}
