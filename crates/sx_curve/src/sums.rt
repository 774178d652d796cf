//! What several quotes have in all.

/// Two sums over quotes of one pair.
#[derive(Clone, Copy, Debug, PartialEq, Eq)]
pub struct Sums {
    /// The amounts, in units of the sold asset.
    pub amount: u64,
    /// Each amount times its limit, in units of `2^-24` of the bought asset.
    pub weighted: u128,
}
