//! Quotes.

use sx_base::{Amount, AssetId};
use sx_price::Limit;

/// So much of `sell` is on offer for `buy`, at `limit` or better: what an offer says of price and
/// amount. Quotes are ordered by the asset that they sell, the asset that they buy, the limit and
/// the amount.
#[derive(Clone, Copy, Debug, PartialEq, Eq, PartialOrd, Ord)]
pub struct Quote {
    pub sell: AssetId,
    pub buy: AssetId,
    pub limit: Limit,
    pub amount: Amount,
}
