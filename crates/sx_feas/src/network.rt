//! The net of some bounds.
//!
//! For n assets its nodes are the assets 0 to n - 1 and the node n, to which no arc leads. Arc
//! `2 * (sell * n + buy)` goes from the asset sold to the asset bought and has the room high - low. What
//! goes through it is traded beyond the lower bound.

ghost use Rattle.std.specs.Prelude.{◌≡◌, ◌+◌, ◌*◌, ◌<◌, ◌≤◌, ◌^◌, IfOk};
ghost use Rattle.sx_feas.specs.Shape.{HasArcs, IsShaped, traded};

use std::alloc::Global;
use sx_base::AssetId;
use sx_bytes::NoMemory;
use sx_dual::Bounds;
use sx_net::Net;

// The asset of a number.
pub fn asset_of(number: u32) -> AssetId
    requires { number < 32 }
    ensures { result ≡ number }
{
    AssetId::new(number as u8).unwrap()
}

// What a pair trades.
pub fn traded_by(bounds: &Bounds, net: &Net, sell: u32, buy: u32) -> u128
    requires shaped { IsShaped bounds.now net.now.arcs }
    requires sell { sell < bounds.now.assets }
    requires buy { buy < bounds.now.assets }
    ensures value { result ≡ traded bounds.now net.now.arcs sell buy }
    ensures in_range { result ≤ 2 ^ 102 }
    ensures itself { sell ≡ buy → result ≡ 0 }
{
    let place = sell * bounds.assets() + buy;
    bounds.high(asset_of(sell), asset_of(buy)) - net.left(2 * place)
}

fn add_pair(bounds: &Bounds, net: &mut Net, sell: u32, buy: u32)
    requires few { bounds.now.assets ≤ 32 }
    requires sell { sell < bounds.now.assets }
    requires buy { buy < bounds.now.assets }
    requires arcs { HasArcs bounds.now net.old (sell * bounds.now.assets + buy) }
    ensures { HasArcs bounds.now net.new (sell * bounds.now.assets + buy + 1) }
{
    let from = asset_of(sell);
    let to = asset_of(buy);
    net.arc(sell, buy, bounds.high(from, to) - bounds.low(from, to));
}

fn add_pairs(bounds: &Bounds, net: &mut Net, sell: u32)
    requires sell { sell < bounds.now.assets }
    requires arcs { HasArcs bounds.now net.old (sell * bounds.now.assets) }
    ensures { HasArcs bounds.now net.new ((sell + 1) * bounds.now.assets) }
{
    for buy in 0..bounds.assets() {
        add_pair(bounds, net, sell, buy);
    }
}

// The net of the bounds, before any push.
pub fn network_of(alloc: Global, bounds: &Bounds) -> Result<Net, NoMemory>
    ensures nodes { IfOk result (λ net. net.nodes ≡ bounds.now.assets + 1) }
    ensures shaped { IfOk result (λ net. IsShaped bounds.now net.arcs) }
{
    let assets = bounds.assets();
    let mut net = Net::new(alloc, assets + 1, assets * assets)?;
    for sell in 0..assets {
        add_pairs(bounds, &mut net, sell);
    }
    Ok(net)
}
