//! What all accounts hold and what is on offer, of each asset, which threads add up side by side.

ghost use Rattle.std.specs.Prelude.{◌≡◌, ℕ, ◌*◌, ◌<◌, ◌≤◌, ◌^◌, All, length, sum_by, slice_index};
ghost use Rattle.std.specs.Thread.{IsSync};
ghost use Rattle.sx_base.specs.Ranges.{most_amount, most_assets};
ghost use Rattle.sx_ledger.specs.Ledger.{balance_at, most_accounts, most_offers, offered};

use crate::account_sums::{held_by, held_of};
use crate::offer_sums::{MOST_ASSETS, sums_by, sums_of};
use std::thread::Threads;
use sx_fork::fork_mut;
use sx_ledger::{Account, Offer};

// What all accounts hold and what is on offer, of each asset.
#[derive(Clone, Copy)]
pub struct Sums {
    pub held: [u128; MOST_ASSETS],
    pub on_offer: [u128; MOST_ASSETS],
}

// By this thread alone.
pub fn entry_sums(accounts: &[Account], offers: &[Offer]) -> Sums
    requires few_assets { All (λ account. length account.balances ≤ most_assets) accounts.now }
    requires few_accounts { length accounts.now ≤ most_accounts }
    requires in_range { All (λ account. All (λ balance. balance ≤ most_amount) account.balances) accounts.now }
    requires few_offers { length offers.now ≤ most_offers }
    ensures held { (asset : ℕ) → asset < most_assets → slice_index result.held asset ≡ sum_by (balance_at asset) accounts.now }
    ensures held_small { All (λ sum. sum ≤ length accounts.now * 2 ^ 62) result.held }
    ensures on_offer { (asset : ℕ) → asset < most_assets → slice_index result.on_offer asset ≡ sum_by (offered asset) offers.now }
    ensures on_offer_small { All (λ sum. sum ≤ length offers.now * 2 ^ 62) result.on_offer }
{
    Sums {
        held: held_of(accounts),
        on_offer: sums_of(offers),
    }
}

// By so many threads for the accounts, and so many for the offers.
pub fn entry_sums_by<R: Threads + Sync>(
    rt: &R,
    account_threads: usize,
    offer_threads: usize,
    accounts: &[Account],
    offers: &[Offer],
) -> Sums
    requires some_account_thread { 1 ≤ account_threads }
    requires some_offer_thread { 1 ≤ offer_threads }
    requires few_assets { All (λ account. length account.balances ≤ most_assets) accounts.now }
    requires few_accounts { length accounts.now ≤ most_accounts }
    requires in_range { All (λ account. All (λ balance. balance ≤ most_amount) account.balances) accounts.now }
    requires few_offers { length offers.now ≤ most_offers }
    ensures held { (asset : ℕ) → asset < most_assets → slice_index result.held asset ≡ sum_by (balance_at asset) accounts.now }
    ensures held_small { All (λ sum. sum ≤ length accounts.now * 2 ^ 62) result.held }
    ensures on_offer { (asset : ℕ) → asset < most_assets → slice_index result.on_offer asset ≡ sum_by (offered asset) offers.now }
    ensures on_offer_small { All (λ sum. sum ≤ length offers.now * 2 ^ 62) result.on_offer }
{
    let (held, on_offer) = fork_mut(
        rt,
        offer_threads == 1,
        &mut || -> [u128; MOST_ASSETS]
            requires ready { IsSync R.row × (1 ≤ account_threads) × (length accounts.now ≤ most_accounts) }
            requires few_assets { All (λ account. length account.balances ≤ most_assets) accounts.now }
            requires in_range { All (λ account. All (λ balance. balance ≤ most_amount) account.balances) accounts.now }
            ensures sums { (asset : ℕ) → asset < most_assets → slice_index result asset ≡ sum_by (balance_at asset) accounts.entry.now }
            ensures small { All (λ sum. sum ≤ length accounts.entry.now * 2 ^ 62) result }
        { held_by(rt, account_threads, accounts) },
        &mut || -> [u128; MOST_ASSETS]
            requires { IsSync R.row × (1 ≤ offer_threads) × (length offers.now ≤ most_offers) }
            ensures sums { (asset : ℕ) → asset < most_assets → slice_index result asset ≡ sum_by (offered asset) offers.entry.now }
            ensures small { All (λ sum. sum ≤ length offers.entry.now * 2 ^ 62) result }
        { sums_by(rt, offer_threads, offers) },
    );
    Sums { held, on_offer }
}
