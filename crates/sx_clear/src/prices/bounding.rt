//! The bounds of what each pair may trade, by the sums that supply curves keep. No offer is looked at.

ghost use Rattle.std.specs.Prelude.{◌≡◌, ◌*◌, ◌/◌, ◌%◌, ◌^◌, ◌<◌, ◌≤◌, false, List, IfOk, length};
ghost use Rattle.std.specs.List.{filter};
ghost use Rattle.std.specs.List.Sorted.{IsPermutation};
ghost use Rattle.sx_fill.specs.Bounds.{HasBounds};
ghost use Rattle.sx_clear.specs.Bounding.{AreValues, may_value, must_value};
ghost use Rattle.sx_multi.specs.Quotes.{quotes_of as the_quotes_of};
ghost use Rattle.sx_curve.specs.Demand.{e_must, may_at, price_of};
ghost use Rattle.sx_curve.specs.Quotes.{amounts, pair_of};
ghost use Rattle.sx_ledger.specs.Bounds.{high_of, low_of};
ghost use Rattle.sx_ledger.specs.declared.offer.Offer.{Offer};

use std::alloc::Global;
use sx_base::AssetId;
use sx_bytes::NoMemory;
use sx_curve::Curves;
use sx_dual::Bounds;
use sx_price::{Mu, Price, Prices, value};

// One, in units of 2^-24.
const ONE: u128 = 1 << 24;

// A sold and a bought asset, each with its price.
#[derive(Clone, Copy)]
struct Pair {
    sell: AssetId,
    buy: AssetId,
    sell_price: Price,
    buy_price: Price,
}

// The asset of this number.
fn asset_of(number: usize) -> AssetId
    requires { number < 32 }
    ensures { result ≡ number }
{
    AssetId::new(number as u8).unwrap()
}

// The pair at a place of a table, which has a row for each price.
fn pair_at(prices: &[Price], place: usize) -> Pair
    requires few { length prices.now ≤ 32 }
    requires place { place < length prices.now * length prices.now }
    ensures sell { result.sell ≡ place / length prices.now }
    ensures buy { result.buy ≡ place % length prices.now }
    ensures sell_price { result.sell_price ≡ price_of prices.now (place / length prices.now) }
    ensures buy_price { result.buy_price ≡ price_of prices.now (place % length prices.now) }
{
    let (sell, buy) = (place / prices.len(), place % prices.len());
    Pair {
        sell: asset_of(sell),
        buy: asset_of(buy),
        sell_price: prices[sell],
        buy_price: prices[buy],
    }
}

// The value of the quotes of a pair that must trade: those whose limit the rate reaches even when it is cut by the part
// `mu` of it.
fn least_of(curves: &Curves, pair: Pair, mu: Mu) -> u128
    ensures value { result ≡ pair.sell_price
        * e_must pair.sell_price pair.buy_price mu (pair_of pair.sell pair.buy curves.now.quotes) }
    ensures in_range { result ≤ 2 ^ 102 }
{
    let parts = 1u128 << mu.get();
    let rate = u128::from(pair.sell_price.get()) * ONE * (parts - 1);
    let price = u128::from(pair.buy_price.get()) * parts;
    let sums = curves.below(pair.sell, pair.buy, rate, price);
    value(pair.sell_price, sums.amount)
}

// The value of the quotes of a pair that may trade: those whose limit the rate reaches.
fn most_of(curves: &Curves, pair: Pair) -> u128
    ensures value { result ≡ pair.sell_price
        * amounts (filter (may_at pair.sell_price pair.buy_price) (pair_of pair.sell pair.buy curves.now.quotes)) }
    ensures in_range { result ≤ 2 ^ 102 }
{
    let rate = u128::from(pair.sell_price.get()) * ONE;
    let price = u128::from(pair.buy_price.get());
    let sums = curves.below(pair.sell, pair.buy, rate, price);
    value(pair.sell_price, sums.amount)
}

// Writes the value of what each pair must trade at its place.
fn write_least(entries: &mut [u128], curves: &Curves, prices: &[Price], mu: Mu)
    requires few { length prices.now ≤ 32 }
    requires full { length entries.old ≡ length prices.now * length prices.now }
    ensures { AreValues (length prices.now) (must_value curves.now.quotes prices.now mu) entries.new }
{
    for (place, entry) in entries.iter_mut().enumerate() {
        *entry = least_of(curves, pair_at(prices, place), mu);
    }
}

// Writes the value of what each pair may trade at its place.
fn write_most(entries: &mut [u128], curves: &Curves, prices: &[Price])
    requires few { length prices.now ≤ 32 }
    requires full { length entries.old ≡ length prices.now * length prices.now }
    ensures { AreValues (length prices.now) (may_value curves.now.quotes prices.now) entries.new }
{
    for (place, entry) in entries.iter_mut().enumerate() {
        *entry = most_of(curves, pair_at(prices, place));
    }
}

// The bounds of each pair at these prices, by the supply curves of the offers: two searches for each pair.
pub(crate) fn bounds_by_curves(
    alloc: Global,
    curves: &Curves,
    prices: &Prices,
    mu: Mu,
) -> Result<Bounds, NoMemory>
    requires assets { curves.now.assets ≡ length prices.now }
    ensures { IfOk result (λ bounds. (offers : List Offer) → IsPermutation (the_quotes_of offers) curves.now.quotes
        → HasBounds (length prices.now) (low_of prices.now mu false offers) (high_of prices.now offers) bounds) }
{
    let assets = curves.assets();
    let items = prices.items();
    let mut low = vec![in alloc; 0; items.len() * items.len()]?;
    let mut high = vec![in alloc; 0; items.len() * items.len()]?;
    write_least(&mut low, curves, items, mu);
    write_most(&mut high, curves, items);
    Ok(Bounds::of(assets, low, high))
}
