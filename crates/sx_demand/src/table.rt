//! The values that all pairs sell, in a table with a row of 32 entries for each sold asset. Each entry also
//! keeps where the searches among the pair's quotes ended, for the next prices are mostly near the last.

ghost use Rattle.std.specs.Prelude.{◌≡◌, ◌*◌, ◌/◌, ◌%◌, ◌<◌, ◌≤◌, ◌^◌, length};
ghost use Rattle.sx_curve.specs.Demand.{sold_value};
ghost use Rattle.sx_demand.specs.Table.{IsSoldAt, IsTable};

use crate::pair::{Pair, value_of};
use crate::parts::Guesses;
use rayon::prelude::*;
use std::thread::Threads;
use sx_base::AssetId;
use sx_curve::Curves;
use sx_price::{Mu, Price};

// How many entries a row has: one for each asset that there may be.
pub(crate) const ROW: usize = 32;

// What a pair sells, and the guesses for the next prices.
#[derive(Clone, Copy, Debug)]
pub(crate) struct Entry {
    pub value: u128,
    pub guesses: Guesses,
}

// The entry of a pair at no prices yet.
pub(crate) const FIRST: Entry = Entry {
    value: 0,
    guesses: Guesses { may: 0, must: 0 },
};

// From how many assets and quotes on the places are shared among threads. To start the threads of a
// round takes as long as hundreds of places, and a place takes few steps where the guesses are near. For
// 2^18 quotes of 32 assets rounds took less time without threads than with them.
const MANY_ASSETS: usize = 28;

const MANY_QUOTES: usize = 1 << 20;

// The asset of this number.
fn asset_of(number: usize) -> AssetId
    requires { number < 32 }
    ensures { result ≡ number }
{
    AssetId::new(number as u8).unwrap()
}

// The value that the pair at a place sells, or 0 where there is no price of its bought asset.
fn value_at(curves: &Curves, prices: &[Price], mu: Mu, place: usize, guesses: &mut Guesses) -> u128
    requires place { place < 32 * length prices.now }
    requires few { length prices.now ≤ 32 }
    ensures { IsSoldAt curves.now.quotes prices.now mu place result }
{
    let (sell, buy) = (place / ROW, place % ROW);
    if buy >= prices.len() {
        return 0;
    }
    let pair = Pair {
        sell: asset_of(sell),
        buy: asset_of(buy),
        sell_price: prices[sell],
        buy_price: prices[buy],
    };
    value_of(curves, &pair, mu, guesses)
}

// The values of all pairs, one after another.
fn fill_here(entries: &mut [Entry], curves: &Curves, prices: &[Price], mu: Mu)
    requires size { length entries.old ≡ 32 * length prices.now }
    requires few { length prices.now ≤ 32 }
    ensures { IsTable curves.now.quotes prices.now mu entries.new }
{
    for (place, entry) in entries.iter_mut().enumerate() {
        entry.value = value_at(curves, prices, mu, place, &mut entry.guesses);
    }
}

// The same, with the places shared among threads.
fn fill_in_threads<R: Threads + Sync>(
    rt: &R,
    entries: &mut [Entry],
    curves: &Curves,
    prices: &[Price],
    mu: Mu,
)
    requires size { length entries.old ≡ 32 * length prices.now }
    requires few { length prices.now ≤ 32 }
    ensures { IsTable curves.now.quotes prices.now mu entries.new }
{
    par_for_each_mut(
        rt,
        entries,
        |place: usize, entry: &mut Entry|
            requires { (place < 32 * length prices.now) × (length prices.now ≤ 32) }
            ensures { IsSoldAt curves.entry.now.quotes prices.entry.now mu place entry.new.value }
        {
            entry.value = value_at(curves, prices, mu, place, &mut entry.guesses);
        },
    );
}

// The values of all pairs.
pub(crate) fn fill<R: Threads + Sync>(
    rt: &R,
    entries: &mut [Entry],
    curves: &Curves,
    prices: &[Price],
    mu: Mu,
)
    requires size { length entries.old ≡ 32 * length prices.now }
    requires few { length prices.now ≤ 32 }
    ensures { IsTable curves.now.quotes prices.now mu entries.new }
{
    if prices.len() >= MANY_ASSETS && curves.count() >= MANY_QUOTES {
        fill_in_threads(rt, entries, curves, prices, mu);
    } else {
        fill_here(entries, curves, prices, mu);
    }
}
