//! What is on offer of each asset, which several threads add up, each of a part of the offers.

ghost use Rattle.std.specs.Prelude.{◌≡◌, ℕ, ◌+◌, ◌*◌, ◌<◌, ◌≤◌, ◌^◌, All, length, sum_by, slice_index};
ghost use Rattle.std.specs.Thread.{IsSync};
ghost use Rattle.sx_base.specs.Ranges.{most_assets};
ghost use Rattle.sx_ledger.specs.Ledger.{most_offers, offered};

use std::thread::Threads;
use sx_base::AssetId;
use sx_fork::fork_mut;
use sx_ledger::Offer;

// The most assets that there are.
pub const MOST_ASSETS: usize = AssetId::LIMIT as usize;

// Adds sums of as many assets or more.
pub fn add_sums(totals: &mut [u128], sums: &[u128])
    requires enough { length totals.old ≤ length sums.now }
    requires room { All (λ total. total ≤ 2 ^ 101) totals.old }
    requires small { All (λ sum. sum ≤ 2 ^ 80) sums.now }
    ensures as_many { length totals.new ≡ length totals.old }
    ensures added { (asset : ℕ) → asset < length totals.old → slice_index totals.new asset ≡ slice_index totals.old asset + slice_index sums.now asset }
{
    for asset in 0..totals.len() {
        totals[asset] += sums[asset];
    }
}

// Adds what is on offer of each asset to nothing.
fn add_offers(sums: &mut [u128], offers: &[Offer])
    requires assets { length sums.old ≡ most_assets }
    requires zero { All (λ sum. sum ≡ 0) sums.old }
    requires few { length offers.now ≤ most_offers }
    ensures sums { (asset : ℕ) → asset < most_assets → slice_index sums.new asset ≡ sum_by (offered asset) offers.now }
    ensures small { All (λ sum. sum ≤ length offers.now * 2 ^ 62) sums.new }
{
    for offer in offers {
        sums[usize::from(offer.sell.get())] += u128::from(offer.amount.get());
    }
}

// What is on offer of each asset.
pub fn sums_of(offers: &[Offer]) -> [u128; MOST_ASSETS]
    requires few { length offers.now ≤ most_offers }
    ensures sums { (asset : ℕ) → asset < most_assets → slice_index result asset ≡ sum_by (offered asset) offers.now }
    ensures small { All (λ sum. sum ≤ length offers.now * 2 ^ 62) result }
{
    let mut sums = [0; MOST_ASSETS];
    add_offers(&mut sums, offers);
    sums
}

// The same by so many threads.
pub fn sums_by<R: Threads + Sync>(rt: &R, threads: usize, offers: &[Offer]) -> [u128; MOST_ASSETS]
    requires some { 1 ≤ threads }
    requires few { length offers.now ≤ most_offers }
    ensures sums { (asset : ℕ) → asset < most_assets → slice_index result asset ≡ sum_by (offered asset) offers.now }
    ensures small { All (λ sum. sum ≤ length offers.now * 2 ^ 62) result }
{
    if threads < 2 {
        return sums_of(offers);
    }
    let others = threads - 1;
    let (front, back) = offers.split_at(offers.len() / threads);
    let (mut sums, more) = fork_mut(
        rt,
        others < 2,
        &mut || -> [u128; MOST_ASSETS]
            requires { length front.now ≤ most_offers }
            ensures sums { (asset : ℕ) → asset < most_assets → slice_index result asset ≡ sum_by (offered asset) front.entry.now }
            ensures small { All (λ sum. sum ≤ length front.entry.now * 2 ^ 62) result }
        { sums_of(front) },
        &mut || -> [u128; MOST_ASSETS]
            requires { IsSync R.row × (1 ≤ others) × (length back.now ≤ most_offers) }
            ensures sums { (asset : ℕ) → asset < most_assets → slice_index result asset ≡ sum_by (offered asset) back.entry.now }
            ensures small { All (λ sum. sum ≤ length back.entry.now * 2 ^ 62) result }
        { sums_by(rt, others, back) },
    );
    add_sums(&mut sums, &more);
    sums
}
