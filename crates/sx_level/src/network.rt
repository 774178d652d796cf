//! The net of some bounds.
//!
//! For n assets its nodes are the assets 0 to n - 1, the source n and the sink n + 1. Arc
//! `2 * (sell * n + buy)` goes from the asset bought to the asset sold and has the room high - low: what
//! goes through it is traded less than the upper bound. After these come an arc from the source to each
//! asset, with the room of its surplus, and then an arc from each asset to the sink, with that of its
//! shortage. The arcs of source and sink go one way.

ghost use Rattle.std.specs.Prelude.{◌≡◌, ℕ, ◌+◌, ◌-◌, ◌*◌, ◌<◌, ◌≤◌, ◌^◌, false, length, IfOk};
ghost use Rattle.sx_dual.specs.Circulation.{bought, sold};
ghost use Rattle.sx_dual.specs.Tables.{high_of};
ghost use Rattle.sx_level.specs.Building.{HasArcs, IsAdded, SameBelow, first_shortage, first_surplus};
ghost use Rattle.sx_level.specs.Shape.{AreMatched, IsShaped, shortage_of, sink_place, source_place, surplus_of, traded};

use crate::numbers::asset_of;
use std::alloc::Global;
use sx_bytes::NoMemory;
use sx_dual::Bounds;
use sx_net::Net;

// What is sold and what is bought of an asset where each pair trades its upper bound.
#[derive(Clone, Copy)]
struct Totals {
    sold: u128,
    bought: u128,
}

fn totals_of(bounds: &Bounds, asset: u32) -> Totals
    requires { asset < bounds.now.assets }
    ensures sold { result.sold ≡ sold bounds.now.assets (high_of bounds.now) asset }
    ensures bought { result.bought ≡ bought bounds.now.assets (high_of bounds.now) asset }
{
    let mut sold = 0;
    let mut bought = 0;
    for other in 0..bounds.assets() {
        let sale = bounds.high(asset_of(asset), asset_of(other));
        let purchase = bounds.high(asset_of(other), asset_of(asset));
        sold += sale;
        bought += purchase;
    }
    Totals { sold, bought }
}

fn add_pair(bounds: &Bounds, net: &mut Net, place: u32)
    requires few { bounds.now.assets ≤ 32 }
    requires place { place < bounds.now.assets * bounds.now.assets }
    requires arcs { HasArcs bounds.now net.old place }
    ensures { HasArcs bounds.now net.new (place + 1) }
{
    let sell = place / bounds.assets();
    let buy = place % bounds.assets();
    let from = asset_of(sell);
    let to = asset_of(buy);
    net.arc(buy, sell, bounds.high(from, to) - bounds.low(from, to));
}

fn add_pairs(bounds: &Bounds, net: &mut Net)
    requires few { bounds.now.assets ≤ 32 }
    requires arcs { HasArcs bounds.now net.old 0 }
    ensures { HasArcs bounds.now net.new (bounds.now.assets * bounds.now.assets) }
{
    for place in 0..bounds.assets() * bounds.assets() {
        add_pair(bounds, net, place);
    }
}

// Adds an arc that goes one way.
fn add_one_way(net: &mut Net, tail: u32, head: u32, room: u128)
    requires spare { 0 < net.old.spare }
    requires tail { tail < net.old.nodes }
    requires head { head < net.old.nodes }
    ensures nodes { net.new.nodes ≡ net.old.nodes }
    ensures spare { net.new.spare + 1 ≡ net.old.spare }
    ensures count { length net.new.arcs ≡ length net.old.arcs + 2 }
    ensures kept { SameBelow net.old.arcs net.new.arcs (length net.old.arcs) }
    ensures added { (k : ℕ) → length net.old.arcs ≡ 2 * k → IsAdded net.new.arcs k tail head room false }
{
    let arc = net.arc(tail, head, room);
    net.allow(arc + 1, false);
}

fn add_source(bounds: &Bounds, net: &mut Net, asset: u32)
    requires asset { asset < bounds.now.assets }
    requires arcs { HasArcs bounds.now net.old (source_place bounds.now.assets asset) }
    ensures { HasArcs bounds.now net.new (source_place bounds.now.assets asset + 1) }
{
    let totals = totals_of(bounds, asset);
    add_one_way(
        net,
        bounds.assets(),
        asset,
        totals.bought.saturating_sub(totals.sold),
    );
}

fn add_sources(bounds: &Bounds, net: &mut Net)
    requires { HasArcs bounds.now net.old (source_place bounds.now.assets 0) }
    ensures { HasArcs bounds.now net.new (source_place bounds.now.assets bounds.now.assets) }
{
    for asset in 0..bounds.assets() {
        add_source(bounds, net, asset);
    }
}

fn add_sink(bounds: &Bounds, net: &mut Net, asset: u32)
    requires asset { asset < bounds.now.assets }
    requires arcs { HasArcs bounds.now net.old (sink_place bounds.now.assets asset) }
    ensures { HasArcs bounds.now net.new (sink_place bounds.now.assets asset + 1) }
{
    let totals = totals_of(bounds, asset);
    add_one_way(
        net,
        asset,
        bounds.assets() + 1,
        totals.sold.saturating_sub(totals.bought),
    );
}

fn add_sinks(bounds: &Bounds, net: &mut Net)
    requires { HasArcs bounds.now net.old (sink_place bounds.now.assets 0) }
    ensures { HasArcs bounds.now net.new (sink_place bounds.now.assets bounds.now.assets) }
{
    for asset in 0..bounds.assets() {
        add_sink(bounds, net, asset);
    }
}

// The net of the bounds, before any push. Each pair trades its upper bound.
pub fn network_of(alloc: Global, bounds: &Bounds) -> Result<Net, NoMemory>
    ensures nodes { IfOk result (λ net. net.nodes ≡ bounds.now.assets + 2) }
    ensures shaped { IfOk result (λ net. IsShaped bounds.now net.arcs) }
    ensures matched { IfOk result (λ net. AreMatched bounds.now net.arcs) }
    ensures full { IfOk result (λ net. (s b : ℕ) → s < bounds.now.assets → b < bounds.now.assets
        → traded bounds.now net.arcs s b ≡ high_of bounds.now s b) }
    ensures surplus { IfOk result (λ net. (a : ℕ) → a < bounds.now.assets
        → surplus_of bounds.now.assets net.arcs a ≡ first_surplus bounds.now a) }
{
    let assets = bounds.assets();
    let mut net = Net::new(alloc, assets + 2, assets * assets + assets + assets)?;
    add_pairs(bounds, &mut net);
    add_sources(bounds, &mut net);
    add_sinks(bounds, &mut net);
    Ok(net)
}

// What is left of an asset's surplus.
pub fn surplus(bounds: &Bounds, net: &Net, asset: u32) -> u128
    requires shaped { IsShaped bounds.now net.now.arcs }
    requires asset { asset < bounds.now.assets }
    ensures { result ≡ surplus_of bounds.now.assets net.now.arcs asset }
{
    let assets = bounds.assets();
    net.left(2 * (assets * assets + asset))
}

// What is left of an asset's shortage.
pub fn shortage(bounds: &Bounds, net: &Net, asset: u32) -> u128
    requires shaped { IsShaped bounds.now net.now.arcs }
    requires asset { asset < bounds.now.assets }
    ensures { result ≡ shortage_of bounds.now.assets net.now.arcs asset }
{
    let assets = bounds.assets();
    net.left(2 * (assets * assets + assets + asset))
}
