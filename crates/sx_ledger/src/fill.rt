//! What each offer trades in a block.

use sx_bytes::ListOf;

/// What an offer trades in a block: its place in a list of offers, the value that it trades in units
/// of `2^-24`, the units of the sold asset that it gives, and those of the bought asset that it gets.
#[derive(Clone, Copy, Debug, PartialEq, Eq)]
pub struct Fill {
    pub place: u32,
    pub value: u128,
    pub gives: u64,
    pub gets: u64,
}

/// A list of fills.
pub type Fills = ListOf<Fill>;
