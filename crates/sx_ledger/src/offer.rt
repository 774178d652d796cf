//! Offers.

ghost use Rattle.std.specs.Prelude.{◌≡◌};
ghost use Rattle.sx_ledger.specs.Order.{key_of};

use crate::key::Key;
use sx_base::{AccountId, Amount, AssetId, Seq};
use sx_bytes::ListOf;
use sx_price::Limit;

/// An offer of an account: it sells `amount` units of `sell` for `buy`, at `limit` or better. Its
/// sequence number `seq` is that of the transaction that made it.
#[derive(Clone, Copy, Debug, PartialEq, Eq)]
pub struct Offer {
    pub sell: AssetId,
    pub buy: AssetId,
    pub limit: Limit,
    pub account: AccountId,
    pub seq: Seq,
    pub amount: Amount,
}

impl Offer {
    /// What tells the offer from every other.
    pub fn key(&self) -> Key
        ensures { result ≡ key_of self.now }
    {
        Key {
            sell: self.sell,
            buy: self.buy,
            limit: self.limit,
            account: self.account,
            seq: self.seq,
        }
    }
}

/// A list of offers.
pub type Offers = ListOf<Offer>;
