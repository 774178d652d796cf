//! What a block does, as it is found while the block is judged.

use sx_ledger::Fills;
use sx_tally::{OfferChange, Tally};

/// What a block does to a ledger, as it is found while the block is judged: what its transactions do, what they change
/// the offers to, and what of the offers after them trades, by their places in that list.
#[derive(Debug, Drop)]
pub struct Effects {
    pub tally: Tally,
    pub offers: OfferChange,
    pub fills: Fills,
}
