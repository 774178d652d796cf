//! An account that spends more than it may.

use sx_base::{AccountId, AssetId};

/// An account whose transactions debit more of an asset than it may spend.
#[derive(Clone, Copy, Debug, PartialEq, Eq)]
pub struct Overdraft {
    /// The account.
    pub account: AccountId,
    /// The asset.
    pub asset: AssetId,
    /// What the account held at the opening, in units of the asset.
    pub opening: u64,
    /// What the body credits to it, in units of the asset.
    pub credits: u128,
    /// What its transactions debit, in units of the asset.
    pub debits: u128,
}
