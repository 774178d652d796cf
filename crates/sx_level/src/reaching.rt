//! The assets that a search reached.

ghost use Rattle.std.specs.Prelude.{◌≡◌, ℕ, ◌+◌, ◌<◌, ◌≤◌, ◌^◌, ◌↔◌, Contains, IsTrue};
ghost use Rattle.sx_dual.specs.Cuts.{is_in};

use sx_dual::{Bounds, Cut};
use sx_net::Net;

// A set of earlier assets, with this asset too where the last search reached it.
fn with_reached(net: &Net, set: u32, asset: u32) -> u32
    requires few { asset < 32 }
    requires nodes { asset < net.now.nodes }
    requires earlier { set < 2 ^ asset }
    ensures within { result < 2 ^ (asset + 1) }
    ensures itself { IsTrue (is_in result asset) ↔ Contains net.now.reached asset }
    ensures others { (a : ℕ) → a < asset → is_in result a ≡ is_in set a }
{
    if net.reached(asset) {
        set | 1 << asset
    } else {
        set
    }
}

// The assets that the last search reached.
pub fn reached_assets(bounds: &Bounds, net: &Net) -> Cut
    requires { bounds.now.assets ≤ net.now.nodes }
    ensures within { result.0 < 2 ^ bounds.now.assets }
    ensures reached { (a : ℕ) → a < bounds.now.assets → IsTrue (is_in result.0 a) ↔ Contains net.now.reached a }
{
    let mut set = 0;
    for asset in 0..bounds.assets() {
        set = with_reached(net, set, asset);
    }
    Cut(set)
}
