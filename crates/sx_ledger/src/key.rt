//! The keys of offers.

use sx_base::{AccountId, AssetId, Seq};
use sx_price::Limit;

/// What tells an offer from every other, in the order in which offers stand: what is sold, what is
/// bought, the limit, the account and the sequence number of the offer.
#[derive(Clone, Copy, Debug, PartialEq, Eq, PartialOrd, Ord)]
pub struct Key {
    pub sell: AssetId,
    pub buy: AssetId,
    pub limit: Limit,
    pub account: AccountId,
    pub seq: Seq,
}
