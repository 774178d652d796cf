//! The demand at given prices.

ghost use Rattle.std.specs.Prelude.{◌≡◌, ◌≤◌, ◌^◌, All, IfOk, length, unsigned_abs};
ghost use Rattle.sx_demand.specs.Excess.{nets_of, volumes_of};

use crate::demand::Demand;
use crate::imbalance::Imbalance;
use std::alloc::Global;
use std::thread::Threads;
use sx_bytes::NoMemory;
use sx_curve::Curves;
use sx_price::{Mu, Prices};

/// By how much more value is wanted of each asset than is sold of it at these prices, and both values
/// together, at most `2^108`. There is a price for each asset of the curves. `NoMemory` is the only
/// error. For n assets it takes 2 n² searches, each of twice as many steps as the number of a pair's quotes
/// has binary digits, shared among threads from 28 assets and 1,048,576 quotes on; the answer is the
/// same whatever threads run.
pub fn excess<R: Threads + Sync>(
    rt: &R,
    alloc: Global,
    curves: &Curves,
    prices: &Prices,
    mu: Mu,
) -> Result<Imbalance, NoMemory>
    requires { length prices.now ≡ curves.now.assets }
    ensures net { IfOk result (λ imbalance. imbalance.net ≡ nets_of curves.now.quotes prices.now mu) }
    ensures volume { IfOk result (λ imbalance. imbalance.volume ≡ volumes_of curves.now.quotes prices.now mu) }
    ensures net_range { IfOk result (λ imbalance. All (λ net. unsigned_abs net ≤ 2 ^ 107) imbalance.net) }
    ensures volume_range { IfOk result (λ imbalance. All (λ volume. volume ≤ 2 ^ 108) imbalance.volume) }
{
    let mut demand = Demand::new(alloc, curves.assets())?;
    demand.update(rt, curves, prices.items(), mu);
    Ok(demand.into_imbalance())
}
