//! What each pair may trade at most, and what it trades.

ghost use Rattle.std.specs.Prelude.{◌≡◌, ℕ, ◌*◌, ◌<◌, ◌≤◌, ◌^◌, IfOk};
ghost use Rattle.sx_dual.specs.Tables.{high_of, value_of};
ghost use Rattle.sx_level.specs.Shape.{IsShaped, traded};

use crate::numbers::asset_of;
use std::alloc::Global;
use sx_bytes::NoMemory;
use sx_dual::{Bounds, Flow};
use sx_net::Net;

// The greatest upper bound.
pub fn greatest_high(bounds: &Bounds) -> u128
    ensures most { (s b : ℕ) → s < bounds.now.assets → b < bounds.now.assets → high_of bounds.now s b ≤ result }
    ensures least { (m : ℕ) → ((s b : ℕ) → s < bounds.now.assets → b < bounds.now.assets → high_of bounds.now s b ≤ m)
        → result ≤ m }
{
    let assets = bounds.assets();
    let mut most = 0;
    for place in 0..assets * assets {
        let high = bounds.high(asset_of(place / assets), asset_of(place % assets));
        most = high.max(most);
    }
    most
}

// What a pair trades.
fn traded_by(bounds: &Bounds, net: &Net, sell: u32, buy: u32) -> u128
    requires shaped { IsShaped bounds.now net.now.arcs }
    requires sell { sell < bounds.now.assets }
    requires buy { buy < bounds.now.assets }
    ensures value { result ≡ traded bounds.now net.now.arcs sell buy }
    ensures in_range { result ≤ 2 ^ 102 }
{
    let place = sell * bounds.assets() + buy;
    bounds.high(asset_of(sell), asset_of(buy)) - net.left(2 * place + 1)
}

// What each pair trades.
pub fn flow_of(alloc: Global, bounds: &Bounds, net: &Net) -> Result<Flow, NoMemory>
    requires { IsShaped bounds.now net.now.arcs }
    ensures assets { IfOk result (λ flow. flow.assets ≡ bounds.now.assets) }
    ensures values { IfOk result (λ flow. (sell buy : ℕ) → sell < bounds.now.assets → buy < bounds.now.assets
        → value_of flow sell buy ≡ traded bounds.now net.now.arcs sell buy) }
{
    let assets = bounds.assets();
    let mut values = Vec::with_capacity(alloc, (assets * assets) as usize)?;
    for place in 0..assets * assets {
        values.push(traded_by(bounds, net, place / assets, place % assets))?;
    }
    Ok(Flow::of(assets, values))
}
