//! Supply curves are built, and prices searched on them.

ghost use Rattle.std.specs.Prelude.{◌≡◌, ◌≤◌, ◌^◌, All, IfOk, length};
ghost use Rattle.sx_bench.specs.Quotes.{IsSmall};

use crate::quotes::draw_quotes;
use crate::report::{self, ROUNDS};
use anyhow::{Result, ensure};
use std::alloc::Global;
use std::rt::Clock;
use std::thread::Threads;
use std::time::Instant;
use sx_curve::{Curves, Quote};
use sx_price::{Mu, Price, Prices};

pub const NAME: &str = "search";

pub const WHAT: &str =
    "builds the curves of SIZE offers of ASSETS assets, and searches prices for 500 rounds";

// The most offers that are drawn.
const MOST_OFFERS: usize = 1 << 20;

// How many rounds a search makes at most.
const TRIALS: u32 = 500;

// The exponent of μ: the least margin, which makes a search longest.
const MU: u8 = Mu::MOST;

// The curves of these offers.
fn curves_of(alloc: Global, assets: u32, quotes: Vec<Quote>) -> Result<Curves>
    requires assets { (2 ≤ assets) × (assets ≤ 32) }
    requires count { length quotes.items ≤ 2 ^ 20 }
    requires small { All (IsSmall assets) quotes.items }
    ensures { IfOk result (λ curves. curves.assets ≡ assets) }
{
    Ok(Curves::build(alloc, assets, quotes)?)
}

// The curves, and the nanoseconds that it took to build them.
fn build_once<R: Clock + AllocGlobal>(
    rt: &R,
    assets: u32,
    quotes: &[Quote],
) -> Result<(Curves, u128)>
    requires assets { (2 ≤ assets) × (assets ≤ 32) }
    requires count { length quotes.now ≤ 2 ^ 20 }
    requires small { All (IsSmall assets) quotes.now }
    ensures { IfOk result (λ made. made.0.assets ≡ assets) }
{
    let quotes = quotes.to_vec(rt.alloc())?;
    let start = Instant::now(rt)?;
    let curves = curves_of(rt.alloc(), assets, quotes)?;
    Ok((curves, start.elapsed(rt)?.as_nanos()))
}

// Whether the search has all its rounds to make: one of twice as many rounds ends at other prices.
fn is_long<R: Threads + Sync + AllocGlobal>(
    rt: &R,
    curves: &Curves,
    prices: &Prices,
) -> Result<bool>
    requires { length prices.now ≡ curves.now.assets }
{
    let mu = Mu::new(MU)?;
    let found = sx_search::search(rt, rt.alloc(), curves, prices, mu, TRIALS)?;
    let later = sx_search::search(rt, rt.alloc(), curves, prices, mu, 2 * TRIALS)?;
    Ok(found.items() != later.items())
}

// The nanoseconds that a search from these prices takes.
fn search_once<R: Threads + Sync + Clock + AllocGlobal>(
    rt: &R,
    curves: &Curves,
    prices: &Prices,
) -> Result<u128>
    requires { length prices.now ≡ curves.now.assets }
{
    let mu = Mu::new(MU)?;
    let start = Instant::now(rt)?;
    let _found = sx_search::search(rt, rt.alloc(), curves, prices, mu, TRIALS)?;
    Ok(start.elapsed(rt)?.as_nanos())
}

/// Prints the least times of several runs: that of the curves, and that of the search.
pub fn measure<R: Threads + Sync + Clock + Print + AllocGlobal>(
    rt: &R,
    size: u32,
    assets: u32,
) -> Result<()> {
    ensure!(2 <= assets && assets <= 32, "from 2 to 32 assets");
    let quotes = draw_quotes(rt.alloc(), size, assets)?;
    ensure!(quotes.len() <= MOST_OFFERS, "at most {MOST_OFFERS} offers");
    let one = Price::new(1 << 24)?;
    let prices = Prices::of(vec![in rt.alloc(); one; assets as usize]?);
    let mut building = u128::MAX;
    let mut searching = u128::MAX;
    for round in 0..ROUNDS {
        let (curves, built_in) = build_once(rt, assets, &quotes)?;
        if round == 0 {
            ensure!(is_long(rt, &curves, &prices)?, "the search ends early");
        }
        building = building.min(built_in);
        searching = searching.min(search_once(rt, &curves, &prices)?);
    }
    let title = format!(in rt.alloc(); "curves {size} {assets}")?;
    report::print(rt, &title, building, u64::from(size), "offers")?;
    let title = format!(in rt.alloc(); "{NAME} {size} {assets}")?;
    report::print(rt, &title, searching, u64::from(TRIALS), "rounds")?;
    Ok(())
}
