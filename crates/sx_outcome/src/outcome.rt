//! What became of a candidate.

use sx_bytes::ListOf;
use sx_ledger::Static;

/// What gathering made of one candidate: accepted, or why not. The outcomes have the numbers 0 to 5 in
/// this order.
#[derive(Clone, Copy, Debug, PartialEq, Eq)]
pub enum Outcome {
    /// The candidate is accepted.
    Accepted,
    /// The ledger refuses it, whatever stands beside it.
    Static(Static),
    /// Another candidate has taken its sequence number.
    SeqTaken,
    /// Another candidate has taken the offer that it cancels.
    OfferTaken,
    /// Another candidate has taken the id of the account that it creates.
    NameTaken,
    /// Of the asset that it debits `seen` units were left, and it needs `need`, which is more.
    Overdraft { seen: u64, need: u64 },
}

/// The outcomes of candidates, in the order of the candidates.
pub type Outcomes = ListOf<Outcome>;

/// How many outcomes a list may have: one for each candidate.
pub const MOST_OUTCOMES: u32 = 1_000_000;
