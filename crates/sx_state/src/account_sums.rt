//! What all accounts hold of each asset, which several threads add up, each of a part of the accounts.

ghost use Rattle.std.specs.Prelude.{◌≡◌, ℕ, ◌+◌, ◌*◌, ◌<◌, ◌≤◌, ◌^◌, All, length, sum_by, slice_index};
ghost use Rattle.std.specs.Thread.{IsSync};
ghost use Rattle.sx_base.specs.Ranges.{most_amount, most_assets};
ghost use Rattle.sx_ledger.specs.Ledger.{balance_at, most_accounts};

use crate::offer_sums::{MOST_ASSETS, add_sums};
use std::thread::Threads;
use sx_fork::fork_mut;
use sx_ledger::Account;

// Adds the balances of one account, or what rounding keeps.
pub fn add_balances(sums: &mut [u128], balances: &[u64])
    requires few { length balances.now ≤ length sums.old }
    requires room { All (λ sum. sum ≤ 2 ^ 127) sums.old }
    ensures as_many { length sums.new ≡ length sums.old }
    ensures added { (asset : ℕ) → asset < length sums.old → slice_index sums.new asset ≡ slice_index sums.old asset + slice_index balances.now asset }
{
    for asset in 0..balances.len() {
        sums[asset] += u128::from(balances[asset]);
    }
}

// Adds the balances of all accounts to nothing.
fn add_accounts(sums: &mut [u128], accounts: &[Account])
    requires assets { length sums.old ≡ most_assets }
    requires zero { All (λ sum. sum ≡ 0) sums.old }
    requires few_assets { All (λ account. length account.balances ≤ most_assets) accounts.now }
    requires few { length accounts.now ≤ most_accounts }
    requires in_range { All (λ account. All (λ balance. balance ≤ most_amount) account.balances) accounts.now }
    ensures sums { (asset : ℕ) → asset < most_assets → slice_index sums.new asset ≡ sum_by (balance_at asset) accounts.now }
    ensures small { All (λ sum. sum ≤ length accounts.now * 2 ^ 62) sums.new }
{
    for account in accounts {
        add_balances(sums, account.balances.items());
    }
}

// What accounts hold of each asset.
pub fn held_of(accounts: &[Account]) -> [u128; MOST_ASSETS]
    requires few_assets { All (λ account. length account.balances ≤ most_assets) accounts.now }
    requires few { length accounts.now ≤ most_accounts }
    requires in_range { All (λ account. All (λ balance. balance ≤ most_amount) account.balances) accounts.now }
    ensures sums { (asset : ℕ) → asset < most_assets → slice_index result asset ≡ sum_by (balance_at asset) accounts.now }
    ensures small { All (λ sum. sum ≤ length accounts.now * 2 ^ 62) result }
{
    let mut sums = [0; MOST_ASSETS];
    add_accounts(&mut sums, accounts);
    sums
}

// The same by so many threads.
pub fn held_by<R: Threads + Sync>(
    rt: &R,
    threads: usize,
    accounts: &[Account],
) -> [u128; MOST_ASSETS]
    requires some { 1 ≤ threads }
    requires few_assets { All (λ account. length account.balances ≤ most_assets) accounts.now }
    requires few { length accounts.now ≤ most_accounts }
    requires in_range { All (λ account. All (λ balance. balance ≤ most_amount) account.balances) accounts.now }
    ensures sums { (asset : ℕ) → asset < most_assets → slice_index result asset ≡ sum_by (balance_at asset) accounts.now }
    ensures small { All (λ sum. sum ≤ length accounts.now * 2 ^ 62) result }
{
    if threads < 2 {
        return held_of(accounts);
    }
    let others = threads - 1;
    let (front, back) = accounts.split_at(accounts.len() / threads);
    let (mut sums, more) = fork_mut(
        rt,
        others < 2,
        &mut || -> [u128; MOST_ASSETS]
            requires few { length front.now ≤ most_accounts }
            requires few_assets { All (λ account. length account.balances ≤ most_assets) front.now }
            requires in_range { All (λ account. All (λ balance. balance ≤ most_amount) account.balances) front.now }
            ensures sums { (asset : ℕ) → asset < most_assets → slice_index result asset ≡ sum_by (balance_at asset) front.entry.now }
            ensures small { All (λ sum. sum ≤ length front.entry.now * 2 ^ 62) result }
        { held_of(front) },
        &mut || -> [u128; MOST_ASSETS]
            requires ready { IsSync R.row × (1 ≤ others) × (length back.now ≤ most_accounts) }
            requires few_assets { All (λ account. length account.balances ≤ most_assets) back.now }
            requires in_range { All (λ account. All (λ balance. balance ≤ most_amount) account.balances) back.now }
            ensures sums { (asset : ℕ) → asset < most_assets → slice_index result asset ≡ sum_by (balance_at asset) back.entry.now }
            ensures small { All (λ sum. sum ≤ length back.entry.now * 2 ^ 62) result }
        { held_by(rt, others, back) },
    );
    add_sums(&mut sums, &more);
    sums
}
