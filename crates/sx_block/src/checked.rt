//! What is told of a block that is valid.

/// What the header of a valid block says of the block.
#[derive(Clone, Copy, Debug, PartialEq, Eq)]
pub struct Checked {
    /// How many blocks there are up to this one.
    pub height: u64,
    /// The value that all pairs of assets trade, in units of `2^-24`.
    pub value: u128,
    /// Whether the lower bounds were dropped.
    pub dropped: bool,
}
