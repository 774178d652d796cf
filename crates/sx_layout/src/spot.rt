//! Where a word is.

/// Where a word is: in which shard, and where among the shard's purses or among its bit words.
#[derive(Clone, Copy, Debug, PartialEq, Eq)]
pub struct Spot {
    pub shard: u32,
    pub word: u32,
}
