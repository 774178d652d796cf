//! Copies of a ledger and of an account. Each list is copied with its own allocator.

ghost use Rattle.std.specs.Prelude.{◌≡◌, IfOk};

use crate::account::{Account, Accounts};
use crate::ledger::Ledger;
use crate::offer::Offers;
use crate::parts::Parts;
use sx_bytes::NoMemory;
use sx_price::Prices;

fn copy_prices(prices: &Prices) -> Result<Prices, NoMemory>
    ensures { IfOk result (λ copy. copy ≡ prices.now) }
{
    let mut copy = Vec::with_capacity(prices.allocator(), prices.items().len())?;
    copy.extend_from_slice(prices.items())?;
    Ok(Prices::of(copy))
}

impl Account {
    /// An account of its own with the same parts. `NoMemory` is the only error.
    pub fn copy(&self) -> Result<Account, NoMemory>
        ensures { IfOk result (λ copy. copy ≡ self.now) }
    {
        Ok(Account {
            id: self.id,
            window: self.window,
            balances: self.balances.copy()?,
        })
    }
}

fn copy_accounts(accounts: &Accounts) -> Result<Accounts, NoMemory>
    ensures { IfOk result (λ copy. copy ≡ accounts.now) }
{
    let entries = accounts.items();
    let mut copy = Vec::with_capacity(accounts.allocator(), entries.len())?;
    for account in entries {
        copy.push(account.copy()?)?;
    }
    Ok(Accounts::of(copy))
}

fn copy_offers(offers: &Offers) -> Result<Offers, NoMemory>
    ensures { IfOk result (λ copy. copy ≡ offers.now) }
{
    let mut copy = Vec::with_capacity(offers.allocator(), offers.items().len())?;
    copy.extend_from_slice(offers.items())?;
    Ok(Offers::of(copy))
}

impl Ledger {
    /// A ledger of its own with the same parts.
    pub fn copy(&self) -> Result<Ledger, NoMemory>
        ensures { IfOk result (λ copy. copy ≡ self.now) }
    {
        let parts = self.parts();
        Ok(Ledger::of(Parts {
            version: parts.version,
            height: parts.height,
            prices: copy_prices(&parts.prices)?,
            rounding: parts.rounding.copy()?,
            accounts: copy_accounts(&parts.accounts)?,
            offers: copy_offers(&parts.offers)?,
        }))
    }
}
