//! The best of several searches.

ghost use Rattle.std.specs.Prelude.{◌≡◌, ◌<◌, ◌≤◌, IfOk, length};
ghost use Rattle.sx_curve.specs.Demand.{imbalance};
ghost use Rattle.sx_curve.specs.Search.{searched_prices};
ghost use Rattle.sx_multi.specs.Posted.{posted};

use crate::slots::search_each;
use std::alloc::Global;
use std::thread::Threads;
use sx_bytes::NoMemory;
use sx_curve::Curves;
use sx_price::{Mu, Prices};
use sx_search::Found;

// What leaves less imbalance, and of equal ones the first.
fn nearer(best: Found, found: Found) -> Found
    ensures tried { found.off < best.off → result ≡ found }
    ensures held { best.off ≤ found.off → result ≡ best }
{
    if found.off < best.off { found } else { best }
}

/// The prices of the best of 1 to 8 searches from `start`, each of at most so many rounds of one trial each:
/// those that leave the least imbalance, and of equal ones those of the search with the least number. There
/// is a price for each asset of the curves. `NoMemory` is the only error, and comes where one of the
/// searches has none, or there is none for the list of them.
pub fn search_many<R: Threads + Sync>(
    rt: &R,
    alloc: Global,
    curves: &Curves,
    start: &Prices,
    mu: Mu,
    rounds: u32,
    searches: u32,
) -> Result<Prices, NoMemory>
    requires assets { length start.now ≡ curves.now.assets }
    requires some { 1 ≤ searches }
    requires few { searches ≤ 8 }
    ensures exact { IfOk result (λ prices. prices ≡ posted curves.now.quotes start.now mu rounds searches) }
    ensures mends { IfOk result (λ prices. imbalance curves.now.quotes prices mu
        ≤ imbalance curves.now.quotes (searched_prices curves.now.quotes start.now mu rounds) mu) }
    ensures one { searches ≡ 1 →
        IfOk result (λ prices. prices ≡ searched_prices curves.now.quotes start.now mu rounds) }
{
    let slots = search_each(rt, alloc, curves, start, mu, rounds, searches)?;
    let mut ends = slots.into_iter();
    let first = ends.next().unwrap();
    let end = first.unwrap();
    let mut best = end?;
    for slot in ends {
        let tried = slot.unwrap();
        let found = tried?;
        let nearest = nearer(best, found);
        best = nearest;
    }
    Ok(best.prices)
}
