//! What a ledger is made of.

use crate::account::Accounts;
use crate::offer::Offers;
use sx_base::Balances;
use sx_price::Prices;

/// What a ledger is made of: the version of its form, its height (how many blocks came before),
/// the price of each asset in units of `2^-24`, the units of each asset kept by rounding, the
/// accounts by id, and the offers by their keys.
#[derive(Debug, Drop)]
pub struct Parts {
    pub version: u8,
    pub height: u64,
    pub prices: Prices,
    pub rounding: Balances,
    pub accounts: Accounts,
    pub offers: Offers,
}
