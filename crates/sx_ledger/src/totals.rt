//! What there is of an asset: in all balances, on offer, and kept by rounding.

ghost use Rattle.std.specs.Prelude.{◌≡◌, ◌<◌, ◌≤◌, All, length, sum_by};
ghost use Rattle.sx_base.specs.Ranges.{most_amount};
ghost use Rattle.sx_ledger.specs.Ledger.{assets_of, balance_at, offered, total_of};

use crate::account::Account;
use crate::ledger::Ledger;
use crate::offer::Offer;
use sx_base::AssetId;

// What all accounts hold of an asset.
fn held(accounts: &[Account], asset: usize) -> u128
    requires { All (λ account. asset < length account.balances) accounts.now }
    ensures { result ≡ sum_by (balance_at asset) accounts.now }
{
    let mut held = 0;
    for account in accounts {
        held += u128::from(account.balances.items()[asset]);
    }
    held
}

// What is on offer of an asset.
fn on_offer(offers: &[Offer], asset: AssetId) -> u128
    ensures { result ≡ sum_by (offered asset) offers.now }
{
    let mut on_offer = 0;
    for offer in offers {
        if offer.sell == asset {
            on_offer += u128::from(offer.amount.get());
        }
    }
    on_offer
}

impl Ledger {
    /// What there is of an asset, in whole units: in all balances, on offer, and kept by rounding.
    /// It is at most `2^62`.
    pub fn total(&self, asset: AssetId) -> u64
        requires { asset < assets_of self.now }
        ensures total { result ≡ total_of self.now asset }
        ensures in_range { result ≤ most_amount }
    {
        let parts = self.parts();
        let held = held(parts.accounts.items(), usize::from(asset.get()));
        let on_offer = on_offer(parts.offers.items(), asset);
        (held + on_offer + u128::from(self.rounding(asset))) as u64
    }
}
