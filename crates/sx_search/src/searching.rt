//! The search.

ghost use Rattle.std.specs.Prelude.{◌≡◌, ◌≤◌, IfOk, length};
ghost use Rattle.sx_curve.specs.Demand.{imbalance};
ghost use Rattle.sx_curve.specs.Search.{first_held, searched_from, searched_prices, usual_exponent};
ghost use Rattle.sx_search.specs.Points.{held_at};
ghost use Rattle.sx_search.specs.States.{IsState};

use crate::point::point_of;
use crate::state::State;
use std::alloc::Global;
use std::thread::Threads;
use sx_bytes::NoMemory;
use sx_curve::Curves;
use sx_price::{Mu, Price, Prices};

// The exponent of the first step where the caller names none.
const USUAL: u32 = 4;

/// Where a search ended: its prices, and how far these leave all assets from balance, the sum over the
/// assets of the value that is wanted of each more or less than is sold of it, in units of `2^-24`.
#[derive(Debug, Drop)]
pub struct Found {
    pub prices: Prices,
    pub off: u128,
}

// What a search from these prices holds before its first trial.
fn begin<R: Threads + Sync>(
    rt: &R,
    alloc: Global,
    curves: &Curves,
    start: &[Price],
    mu: Mu,
    first: u32,
) -> Result<State, NoMemory>
    requires assets { length start.now ≡ curves.now.assets }
    requires exponent { first ≤ 8 }
    ensures state { IfOk result (λ state. IsState curves.now.assets curves.now.quotes mu state) }
    ensures held { IfOk result (λ state. held_at state.held state.exponent ≡ first_held first start.now) }
{
    let assets = curves.assets();
    let mut held = point_of(alloc, assets, start)?;
    let trial = point_of(alloc, assets, start)?;
    held.update(rt, curves, mu);
    Ok(State {
        held,
        trial,
        exponent: first,
    })
}

/// Where the search from `start` ends whose first step has the exponent `first`, from 1 to 8, in at most
/// so many rounds of one trial each. There is a price for each asset of the curves. `NoMemory` is the only
/// error.
pub fn search_from<R: Threads + Sync>(
    rt: &R,
    alloc: Global,
    curves: &Curves,
    start: &Prices,
    mu: Mu,
    rounds: u32,
    first: u32,
) -> Result<Found, NoMemory>
    requires assets { length start.now ≡ curves.now.assets }
    requires some { 1 ≤ first }
    requires small { first ≤ 8 }
    ensures exact { IfOk result (λ found. found.prices ≡ searched_from first curves.now.quotes start.now mu rounds) }
    ensures off { IfOk result (λ found. found.off ≡ imbalance curves.now.quotes found.prices mu) }
    ensures mends { IfOk result (λ found. found.off ≤ imbalance curves.now.quotes start.now mu) }
{
    let mut state = begin(rt, alloc, curves, start.items(), mu, first)?;
    let mut left = rounds;
    while left > 0 && state.goes_on() {
        state.try_once(rt, curves, mu);
        left -= 1;
    }
    Ok(Found {
        off: state.held.off,
        prices: Prices::of(state.held.prices),
    })
}

/// The prices that the search from `start` ends at whose first step has the exponent 4, in at most so many
/// rounds. There is a price for each asset of the curves. `NoMemory` is the only error.
pub fn search<R: Threads + Sync>(
    rt: &R,
    alloc: Global,
    curves: &Curves,
    start: &Prices,
    mu: Mu,
    rounds: u32,
) -> Result<Prices, NoMemory>
    requires { length start.now ≡ curves.now.assets }
    ensures exact { IfOk result (λ prices. prices ≡ searched_prices curves.now.quotes start.now mu rounds) }
    ensures mends { IfOk result (λ prices. imbalance curves.now.quotes prices mu ≤ imbalance curves.now.quotes start.now mu) }
{
    Ok(search_from(rt, alloc, curves, start, mu, rounds, USUAL)?.prices)
}
