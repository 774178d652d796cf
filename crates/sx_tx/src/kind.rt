//! The four kinds of transaction.

use sx_base::{AccountId, Amount, AssetId, Seq};
use sx_price::Limit;

/// What a transaction does. The kinds have the numbers 1 to 4 in this order.
#[derive(Clone, Copy, Debug, PartialEq, Eq)]
pub enum Kind {
    /// Gives `amount` units of `asset` to the account `to`.
    // The asset stands first, since a field of one byte takes no memory of its own beside the number of the kind.
    Pay {
        asset: AssetId,
        to: AccountId,
        amount: Amount,
    },
    /// Opens the account `id`.
    Create {
        id: AccountId,
    },
    /// Offers `amount` units of the asset `sell` for the asset `buy`, at `limit` or better.
    Offer {
        sell: AssetId,
        buy: AssetId,
        limit: Limit,
        amount: Amount,
    },
    /// Ends the account's own offer of these assets, this limit and this sequence number.
    Cancel {
        sell: AssetId,
        buy: AssetId,
        limit: Limit,
        seq: Seq,
    },
}
