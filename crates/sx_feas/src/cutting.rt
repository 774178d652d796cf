//! The assets that a search reached.

ghost use Rattle.std.specs.Prelude.{◌≡◌, ℕ, ◌+◌, ◌<◌, ◌≤◌, ◌^◌, ◌↔◌, Contains, IsTrue};
ghost use Rattle.sx_dual.specs.Cuts.{is_in};
ghost use Rattle.sx_net.specs.Paths.{Reaches};
ghost use Rattle.sx_feas.specs.Shape.{IsShaped};

use std::sync::ledger::Ledger;
use sx_dual::{Bounds, Cut};
use sx_net::{Net, Steps};

// Searches for the node to which no arc leads, and so reaches each node that can be reached from an asset.
pub fn explore<L: Ledger>(bounds: &Bounds, net: &mut Net, asset: u32, steps: &mut Steps<L>)
    requires nodes { net.old.nodes ≡ bounds.now.assets + 1 }
    requires shaped { IsShaped bounds.now net.old.arcs }
    requires asset { asset < bounds.now.assets }
    ensures nodes { net.new.nodes ≡ net.old.nodes }
    ensures arcs { net.new.arcs ≡ net.old.arcs }
    ensures reached { (v : ℕ) → Contains net.new.reached v ↔ Reaches net.new.arcs 1 asset v }
    ensures counted { steps.new ≡ steps.old + 1 }
{
    net.search(asset, bounds.assets(), 1, steps);
}

// A set of earlier assets, with this asset too where the last search reached it.
fn with_reached(net: &Net, set: u32, asset: u32) -> u32
    requires few { asset < 32 }
    requires nodes { asset < net.now.nodes }
    requires earlier { set < 2 ^ asset }
    ensures within { result < 2 ^ (asset + 1) }
    ensures itself { IsTrue (is_in result asset) ↔ Contains net.now.reached asset }
    ensures others { (a : ℕ) → a < asset → is_in result a ≡ is_in set a }
{
    if net.reached(asset) {
        set | 1 << asset
    } else {
        set
    }
}

// The assets that the last search reached.
pub fn reached_assets(net: &Net, assets: u32) -> Cut
    requires few { assets ≤ 32 }
    requires nodes { assets ≤ net.now.nodes }
    ensures within { result.0 < 2 ^ assets }
    ensures reached { (asset : ℕ) → asset < assets
        → IsTrue (is_in result.0 asset) ↔ Contains net.now.reached asset }
{
    let mut set = 0;
    for asset in 0..assets {
        set = with_reached(net, set, asset);
    }
    Cut(set)
}
