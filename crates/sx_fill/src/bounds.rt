//! The bounds of what each pair may trade, by sums over the offers.

ghost use Rattle.std.specs.Prelude.{◌≡◌, ◌≢◌, ℕ, ◌+◌, ◌*◌, ◌^◌, ◌<◌, ◌≤◌, [], false, length, slice_index, if◌then◌else◌, IfOk, All};
ghost use Rattle.sx_fill.specs.Bounds.{AreOffers, AreValues, HasBounds};
ghost use Rattle.sx_dual.specs.Tables.{IsAssetCount, entry_at};
ghost use Rattle.sx_ledger.specs.Bounds.{high_of, low_of, may_trade_at as may_at, must_trade_at as must_at, price_of};
ghost use Rattle.sx_price.specs.Limits.{IsPrice};

use std::alloc::Global;
use sx_bytes::NoMemory;
use sx_dual::Bounds;
use sx_ledger::Offer;
use sx_price::{Mu, Prices, may_trade, must_trade, value};

// Whether an offer must trade at the prices.
fn must_trade_at(prices: &Prices, mu: Mu, offer: &Offer) -> bool
    requires sell { offer.now.sell < length prices.now }
    requires buy { offer.now.buy < length prices.now }
    ensures { result ≡ must_at prices.now mu offer.now }
{
    let sell = prices.items()[usize::from(offer.sell.get())];
    let buy = prices.items()[usize::from(offer.buy.get())];
    must_trade(sell, buy, offer.limit, mu)
}

// Whether an offer may trade at the prices.
fn may_trade_at(prices: &Prices, offer: &Offer) -> bool
    requires sell { offer.now.sell < length prices.now }
    requires buy { offer.now.buy < length prices.now }
    ensures { result ≡ may_at prices.now offer.now }
{
    let sell = prices.items()[usize::from(offer.sell.get())];
    let buy = prices.items()[usize::from(offer.buy.get())];
    may_trade(sell, buy, offer.limit)
}

// Adds what an offer is worth at the prices to the entry of its pair, where it counts. An offer is
// worth at most 2^102, and there are at most 2^18 of them, so that no entry passes 2^120.
fn add_value(entries: &mut [u128], prices: &Prices, offer: &Offer, counts: bool)
    requires full { length entries.old ≡ length prices.now * length prices.now }
    requires sell { offer.now.sell < length prices.now }
    requires buy { offer.now.buy < length prices.now }
    requires room { (place : ℕ) → slice_index entries.old place + 2 ^ 102 < 2 ^ 128 }
    ensures full { length entries.new ≡ length entries.old }
    ensures small { (place : ℕ) → slice_index entries.new place ≤ slice_index entries.old place + 2 ^ 102 }
    ensures here { entry_at (length prices.now) entries.new offer.now.sell offer.now.buy ≡ entry_at (length prices.now) entries.old offer.now.sell offer.now.buy + (if counts then price_of prices.now offer.now.sell * offer.now.amount else 0) }
    ensures elsewhere { (place : ℕ) → place ≢ offer.now.sell * length prices.now + offer.now.buy → slice_index entries.new place ≡ slice_index entries.old place }
{
    if !counts {
        return;
    }
    let items = prices.items();
    let sell = usize::from(offer.sell.get());
    let buy = usize::from(offer.buy.get());
    entries[sell * items.len() + buy] += value(items[sell], offer.amount.get());
}

// Adds what each offer is worth at the prices: to the entries of `low` where it must trade, and to
// those of `high` where it may.
fn add_offers(low: &mut [u128], high: &mut [u128], prices: &Prices, mu: Mu, offers: &[Offer])
    requires offers { AreOffers (length prices.now) offers.now }
    requires low { AreValues (length prices.now) prices.now (must_at prices.now mu) [] low.old }
    requires high { AreValues (length prices.now) prices.now (may_at prices.now) [] high.old }
    ensures low { AreValues (length prices.now) prices.now (must_at prices.now mu) offers.now low.new }
    ensures high { AreValues (length prices.now) prices.now (may_at prices.now) offers.now high.new }
{
    for offer in offers {
        add_value(low, prices, offer, must_trade_at(prices, mu, offer));
        add_value(high, prices, offer, may_trade_at(prices, offer));
    }
}

/// The bounds of each pair at these prices, no lower one dropped, in units of `2^-24`: the value of all
/// its offers that must trade by the margin `mu`, and that of all that may. The offers are as those of a
/// ledger of as many assets. It goes over them once. `NoMemory` is the only error.
pub fn bounds_of(
    alloc: Global,
    offers: &[Offer],
    prices: &Prices,
    mu: Mu,
) -> Result<Bounds, NoMemory>
    requires assets { IsAssetCount (length prices.now) }
    requires prices { All IsPrice prices.now }
    requires offers { AreOffers (length prices.now) offers.now }
    ensures { IfOk result (HasBounds (length prices.now) (low_of prices.now mu false offers.now) (high_of prices.now offers.now)) }
{
    let assets = prices.items().len();
    let mut low = vec![in alloc; 0; assets * assets]?;
    let mut high = vec![in alloc; 0; assets * assets]?;
    add_offers(&mut low, &mut high, prices, mu, offers);
    Ok(Bounds::of(assets as u32, low, high))
}

/// The same bounds with each lower one dropped, so that it is 0. It takes no memory.
pub fn without_low(bounds: Bounds) -> Bounds
    ensures { (n : ℕ) (low high : ℕ → ℕ → ℕ) → HasBounds n low high bounds → HasBounds n (λ sell buy. 0) high result }
{
    let assets = bounds.assets();
    let (mut low, high) = bounds.into_entries();
    low.fill(0);
    Bounds::of(assets, low, high)
}
