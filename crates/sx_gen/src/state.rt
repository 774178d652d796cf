//! The state before the demonstration.

ghost use Rattle.std.specs.Prelude.{◌≡◌, ◌^◌, ◌<◌, IfOk, replicate};
ghost use Rattle.sx_gen.specs.State.{account_at, accounts_of, demo_parts};

use std::alloc::Global;
use sx_base::{AccountId, BalanceVec, Balances};
use sx_bytes::NoMemory;
use sx_ledger::{Account, Accounts, Ledger, Offers, Parts};
use sx_price::{Price, Prices};
use sx_tx::Window;

pub(crate) const ASSETS: u64 = 8;

pub(crate) const ACCOUNTS: u64 = 1_000;

// The price of each asset, in units of 2^-24.
pub(crate) const PRICE: u64 = 1 << 24;

// What each account holds of each asset.
const BALANCE: u64 = 1_000_000;

fn balances(alloc: Global, units: u64) -> Result<Balances, NoMemory>
    ensures { IfOk result (λ balances. balances ≡ replicate 8 units) }
{
    Ok(Balances::of(BalanceVec::from_elem(alloc, units, ASSETS as usize)?))
}

fn prices(alloc: Global) -> Result<Prices, NoMemory>
    ensures { IfOk result (λ prices. prices ≡ replicate 8 (2 ^ 24)) }
{
    let price = Price::new(PRICE).unwrap();
    Ok(Prices::of(vec![in alloc; price; ASSETS as usize]?))
}

// The account at place `i`, whose id is one greater.
fn account(alloc: Global, i: u64) -> Result<Account, NoMemory>
    requires { i < 1000 }
    ensures { IfOk result (λ account. account ≡ account_at i) }
{
    Ok(Account {
        id: AccountId(1 + i),
        window: Window { last: 0, used: 0 },
        balances: balances(alloc, BALANCE)?,
    })
}

fn accounts(alloc: Global) -> Result<Accounts, NoMemory>
    ensures { IfOk result (λ accounts. accounts ≡ accounts_of 1000) }
{
    let mut accounts = Vec::with_capacity(alloc, ACCOUNTS as usize)?;
    for i in 0..ACCOUNTS {
        accounts.push(account(alloc, i)?)?;
    }
    Ok(Accounts::of(accounts))
}

/// The state before the demonstration: height 0, 8 assets of price 1 that rounding kept nothing of,
/// the accounts 1 to 1,000 with 1,000,000 units of each, and no offers.
pub fn demo_state(alloc: Global) -> Result<Ledger, NoMemory>
    ensures { IfOk result (λ ledger. ledger ≡ demo_parts) }
{
    let parts = Parts {
        version: 1,
        height: 0,
        prices: prices(alloc)?,
        rounding: balances(alloc, 0)?,
        accounts: accounts(alloc)?,
        offers: Offers::of(Vec::new(alloc)),
    };
    Ok(Ledger::of(parts))
}
