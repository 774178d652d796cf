//! What sellers get.

ghost use Rattle.std.specs.Prelude.{◌≡◌, ℕ, ◌+◌, ◌^◌, ◌<◌, IfOk, OnErr, OnOk, length, map, slice_set, All};
ghost use Rattle.sx_apply.specs.FillSums.{paid_by, proceeds_by};
ghost use Rattle.sx_apply.specs.Paying.{CanPay};
ghost use Rattle.sx_ledger.specs.Ledger.{balance_at, ids};

use std::alloc::Global;
use std::mem;
use sx_base::{AssetId, BalanceVec, Balances};
use sx_bytes::NoMemory;
use sx_ledger::{Account, AccountIndex, Accounts, Fill, Offer};

// Adds units of an asset to what an account holds.
fn credit(alloc: Global, account: &mut Account, asset: AssetId, units: u64)
    requires asset { asset < length account.old.balances }
    requires fits { balance_at asset account.old + units < 2 ^ 64 }
    ensures { account.new ≡ record account.old { balances = slice_set account.old.balances asset (balance_at asset account.old + units) } }
{
    let none = Balances::of(BalanceVec::new(alloc));
    let mut balances = mem::replace(&mut account.balances, none).into_items();
    balances[usize::from(asset.get())] += units;
    account.balances = Balances::of(balances);
}

// Credits each seller with what the fills of his offers get.
fn credit_sellers(
    alloc: Global,
    accounts: &mut [Account],
    index: &AccountIndex,
    offers: &[Offer],
    fills: &[Fill],
)
    requires index { index.now ≡ ids accounts.old }
    requires places { All (λ fill. fill.place < length offers.now) fills.now }
    requires assets { All (λ offer. All (λ account. offer.buy < length account.balances) accounts.old) offers.now }
    requires fits { All (λ account. (asset : ℕ) → asset < length account.balances → balance_at asset account + proceeds_by offers.now fills.now account.id.0 asset < 2 ^ 64) accounts.old }
    ensures { accounts.new ≡ map (paid_by offers.now fills.now) accounts.old }
{
    for fill in fills {
        let offer = &offers[fill.place as usize];
        if let Some(place) = index.find(offer.account) {
            credit(alloc, &mut accounts[place as usize], offer.buy, fill.gets);
        }
    }
}

/// Credits the sellers among some accounts, which stand by id, with what the fills of their offers get, and
/// passes over the fills of others. So the accounts of a ledger may be credited in parts, in any order and at
/// the same time. The accounts are indexed first: at `NoMemory` none has changed. Where nothing was filled, no
/// account is looked up, and no memory is taken.
pub fn pay_sellers(
    alloc: Global,
    offers: &[Offer],
    fills: &[Fill],
    accounts: &mut [Account],
) -> Result<(), NoMemory>
    requires { CanPay offers.now fills.now accounts.old }
    ensures paid { OnOk result (accounts.new ≡ map (paid_by offers.now fills.now) accounts.old) }
    ensures kept { OnErr result (accounts.new ≡ accounts.old) }
{
    if fills.is_empty() {
        return Ok(());
    }
    let index = AccountIndex::of(alloc, accounts)?;
    credit_sellers(alloc, accounts, &index, offers, fills);
    Ok(())
}

// The accounts, each with what the fills of its offers get.
pub fn with_proceeds(
    alloc: Global,
    accounts: Accounts,
    offers: &[Offer],
    fills: &[Fill],
) -> Result<Accounts, NoMemory>
    requires { CanPay offers.now fills.now accounts }
    ensures { IfOk result (λ paid. paid ≡ map (paid_by offers.now fills.now) accounts) }
{
    let mut entries = accounts.into_items();
    pay_sellers(alloc, offers, fills, &mut entries)?;
    Ok(Accounts::of(entries))
}
