//! One debit or one credit.

use sx_base::{Amount, AssetId};

/// Units of an asset, for the account at a place.
#[derive(Clone, Copy)]
pub struct Entry {
    pub place: u32,
    pub asset: AssetId,
    pub amount: Amount,
}
