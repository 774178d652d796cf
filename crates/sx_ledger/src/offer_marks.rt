//! Marks of offers, which tell about where an offer stands.

use crate::key::Key;
use crate::offer::Offer;
use std::alloc::Global;
use sx_bytes::NoMemory;

// One offer of so many has a mark.
const STRIDE: usize = 8;

/// A mark of the offer at every eighth place, side by side to be searched fast. Offers stand by their keys.
///
/// Contracts see nothing of the marks: where they tell that an offer stands is a guess, which
/// [`Ledger::find_offer_near`](crate::ledger::Ledger::find_offer_near) tests.
#[derive(Debug, Drop)]
pub(crate) struct OfferMarks {
    marks: Vec<u64>,
}

// The mark of a key: what it sells, what it buys and its limit without the last two bits, in one number. The mark of a
// later key is never less.
fn mark_of(key: &Key) -> u64 {
    let pair = u64::from(key.sell.get()) * 32 + u64::from(key.buy.get());
    (pair << 54) + (key.limit.get() >> 2)
}

// How many marks are less than a mark, where none is greater. Few marks are equal, so the last one mostly tells it.
fn lesser(marks: &[u64], mark: u64) -> usize {
    match marks.last() {
        Some(last) if *last == mark => marks.partition_point(|one| *one < mark),
        _ => marks.len(),
    }
}

impl OfferMarks {
    /// The marks of offers that stand by their keys.
    pub(crate) fn of(alloc: Global, offers: &[Offer]) -> Result<OfferMarks, NoMemory> {
        let marks = offers
            .iter()
            .step_by(STRIDE)
            .map(|offer| mark_of(&offer.key()))
            .collect(alloc)?;
        Ok(OfferMarks { marks })
    }

    /// The places among which an offer of this key stands, if there is one: the first, and the one after the last,
    /// which may be more than there are offers. It stands after the last offer with a lesser mark, and before the first
    /// with a greater one.
    pub(crate) fn range(&self, key: &Key) -> (usize, usize) {
        let mark = mark_of(key);
        let marks = self.marks.as_slice();
        let end = marks.partition_point(|one| *one <= mark);
        let begin = lesser(&marks[..end], mark).saturating_sub(1);
        (begin.saturating_mul(STRIDE), end.saturating_mul(STRIDE))
    }
}
