//! What a candidate asks for.

use crate::spot::Spot;

/// What a candidate asks for once its sequence number is claimed.
#[derive(Clone, Copy, Debug, PartialEq, Eq)]
pub enum Wanted {
    /// The bit of the offer that it cancels or of the id that it creates: a bit word, and a bit of it,
    /// below 64.
    Bit { at: Spot, bit: u32 },
    /// So many units out of a purse: the amount of a payment or of an offer.
    Units { purse: Spot, need: u64 },
}

/// All that a candidate asks for.
#[derive(Clone, Copy, Debug, PartialEq, Eq)]
pub struct Asked {
    /// The bit word of its sequence number.
    pub number: Spot,
    /// The bit of that word, below 64.
    pub bit: u32,
    /// What it asks for then.
    pub wanted: Wanted,
}
