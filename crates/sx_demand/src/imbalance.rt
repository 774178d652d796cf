//! What is wanted of each asset in excess, and how much of it is wanted and sold.

use sx_bytes::ListOf;

/// A signed value for each asset, at the asset's number, in units of `2^-24`.
pub type Nets = ListOf<i128>;

/// A value for each asset, at the asset's number, in units of `2^-24`.
pub type Volumes = ListOf<u128>;

/// How far each asset is from balance.
#[derive(Debug, PartialEq, Eq, Drop)]
pub struct Imbalance {
    /// The value that is wanted of each asset, less the value of it that is sold.
    pub net: Nets,
    /// Both values of each asset together.
    pub volume: Volumes,
}
