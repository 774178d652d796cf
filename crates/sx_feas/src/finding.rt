//! The search for a circulation.

ghost use Rattle.std.specs.Prelude.{◌≡◌, ℕ, ◌+◌, ◌<◌, ◌≤◌, IfNone, IfOk, IfSome};
ghost use Rattle.sx_dual.specs.Circulation.{IsBalanced};
ghost use Rattle.sx_dual.specs.Tables.{value_of};
ghost use Rattle.sx_dual.specs.Cuts.{IsCutOf};
ghost use Rattle.sx_feas.specs.Feas.{IsAnswer};
ghost use Rattle.sx_feas.specs.Shape.{IsShaped, KeepsCovered, bought_now, sold_now, traded};

use crate::cutting::{explore, reached_assets};
use crate::network::{network_of, traded_by};
use crate::pushing::{relieve, relieve_more};
use crate::totals::{first_short, surplus};
use std::alloc::Global;
use std::sync::ledger::Ledger;
use sx_bytes::NoMemory;
use sx_dual::{Bounds, Cut, Flow};
use sx_net::{Net, Steps};

/// A circulation within some bounds, or a cut that shows that there is none.
#[derive(Debug, Drop)]
pub enum Feas {
    Flow(Flow),
    Cut(Cut),
}

// Pushes from an asset until it has no surplus, or answers the cut that shows that it always has one.
fn drain<L: Ledger>(bounds: &Bounds, net: &mut Net, asset: u32, steps: &mut Steps<L>) -> Option<Cut>
    requires nodes { net.old.nodes ≡ bounds.now.assets + 1 }
    requires shaped { IsShaped bounds.now net.old.arcs }
    requires asset { asset < bounds.now.assets }
    ensures nodes { net.new.nodes ≡ bounds.now.assets + 1 }
    ensures shaped { IsShaped bounds.now net.new.arcs }
    ensures kept { KeepsCovered bounds.now net.old.arcs net.new.arcs }
    ensures covered { IfNone result
        (bought_now bounds.now net.new.arcs asset ≤ sold_now bounds.now net.new.arcs asset) }
    ensures cut { IfSome result (λ cut. IsCutOf bounds.now cut.0) }
    ensures rising { steps.old ≤ steps.new }
{
    while surplus(bounds, net, asset) > 0 {
        explore(bounds, net, asset, steps);
        match first_short(bounds, net) {
            Some(other) => {
                relieve(bounds, net, asset, other, steps);
                relieve_more(bounds, net, asset, other, steps);
            }
            None => return Some(reached_assets(net, bounds.assets())),
        }
    }
    None
}

// Drains each asset in turn, or answers a cut.
fn drain_all<L: Ledger>(bounds: &Bounds, net: &mut Net, steps: &mut Steps<L>) -> Option<Cut>
    requires nodes { net.old.nodes ≡ bounds.now.assets + 1 }
    requires shaped { IsShaped bounds.now net.old.arcs }
    ensures shaped { IsShaped bounds.now net.new.arcs }
    ensures balanced { IfNone result ((asset : ℕ) → asset < bounds.now.assets
        → IsBalanced bounds.now.assets (traded bounds.now net.new.arcs) asset) }
    ensures cut { IfSome result (λ cut. IsCutOf bounds.now cut.0) }
    ensures rising { steps.old ≤ steps.new }
{
    for asset in 0..bounds.assets() {
        match drain(bounds, net, asset, steps) {
            Some(cut) => return Some(cut),
            None => {}
        }
    }
    None
}

// What each pair trades.
fn flow_of(alloc: Global, bounds: &Bounds, net: &Net) -> Result<Flow, NoMemory>
    requires { IsShaped bounds.now net.now.arcs }
    ensures assets { IfOk result (λ flow. flow.assets ≡ bounds.now.assets) }
    ensures values { IfOk result (λ flow. (sell buy : ℕ) → sell < bounds.now.assets → buy < bounds.now.assets
        → value_of flow sell buy ≡ traded bounds.now net.now.arcs sell buy) }
{
    let assets = bounds.assets();
    let mut values = Vec::with_capacity(alloc, (assets * assets) as usize)?;
    for place in 0..assets * assets {
        values.push(traded_by(bounds, net, place / assets, place % assets))?;
    }
    Ok(Flow::of(assets, values))
}

/// A circulation within the bounds, or a cut if there is none. `steps` counts its searches, and never
/// falls. It may answer `NoMemory` in place of any other answer.
pub fn feasible<L: Ledger>(
    alloc: Global,
    bounds: &Bounds,
    steps: &mut Steps<L>,
) -> Result<Feas, NoMemory>
    ensures answer { IfOk result (IsAnswer bounds.now) }
    ensures rising { steps.old ≤ steps.new }
{
    let mut net = network_of(alloc, bounds)?;
    match drain_all(bounds, &mut net, steps) {
        Some(cut) => Ok(Feas::Cut(cut)),
        None => Ok(Feas::Flow(flow_of(alloc, bounds, &net)?)),
    }
}
