//! Rising heights, and the pairs that gain nothing.

ghost use Rattle.std.specs.Prelude.{◌≡◌, ◌≢◌, ℕ, ◌+◌, ◌*◌, ◌<◌, ◌≤◌, ◌==◌, length, slice_index, if◌then◌else◌};
ghost use Rattle.sx_dual.specs.Cuts.{is_in};
ghost use Rattle.sx_level.specs.Shape.{IsShaped, AreAllowed, SameButAllowed};
ghost use Rattle.sx_net.specs.Arcs.{is_allowed};

use crate::numbers::asset_of;
use sx_dual::{Bounds, Cut};
use sx_net::Net;

// By how much an asset rises with a set.
fn rise_of(set: Cut, asset: u32) -> u32
    requires { asset < 32 }
    ensures rise { result ≡ (if is_in set.0 asset then 1 else 0) }
    ensures small { result ≤ 1 }
{
    if set.contains(asset_of(asset)) { 1 } else { 0 }
}

// Raises the assets of a set by one.
pub fn raise(heights: &mut [u32], set: Cut)
    requires count { length heights.old ≤ 32 }
    requires low { (a : ℕ) → a < length heights.old → slice_index heights.old a ≤ 32 }
    ensures { (a : ℕ) → a < length heights.old
        → slice_index heights.new a ≡ (if is_in set.0 a then 1 else 0) + slice_index heights.old a }
{
    for asset in 0..heights.len() {
        heights[asset] += rise_of(set, asset as u32);
    }
}

// Allows the arc at a place and its reverse where its pair gains nothing, and else forbids both.
fn allow_pair(net: &mut Net, heights: &[u32], place: u32, sell: u32, buy: u32)
    requires few { 2 * place + 1 < length net.old.arcs }
    requires assets { length heights.now ≤ 32 }
    requires place { place < length heights.now * length heights.now }
    requires low { (a : ℕ) → a < length heights.now → slice_index heights.now a ≤ 32 }
    requires sell { sell < length heights.now }
    requires buy { buy < length heights.now }
    ensures nodes { net.new.nodes ≡ net.old.nodes }
    ensures kept { SameButAllowed net.old.arcs net.new.arcs }
    ensures forth { is_allowed net.new.arcs (2 * place)
        ≡ (slice_index heights.now buy == slice_index heights.now sell + 1) }
    ensures back { is_allowed net.new.arcs (2 * place + 1)
        ≡ (slice_index heights.now buy == slice_index heights.now sell + 1) }
    ensures others { (a : ℕ) → a ≢ 2 * place → a ≢ 2 * place + 1
        → is_allowed net.new.arcs a ≡ is_allowed net.old.arcs a }
{
    let on = heights[buy as usize] == heights[sell as usize] + 1;
    net.allow(2 * place, on);
    net.allow(2 * place + 1, on);
}

// Allows the arcs of the pairs that gain nothing, and no other pair's.
pub fn allow_pairs(bounds: &Bounds, net: &mut Net, heights: &[u32])
    requires count { length heights.now ≡ bounds.now.assets }
    requires low { (a : ℕ) → a < length heights.now → slice_index heights.now a ≤ 32 }
    requires shaped { IsShaped bounds.now net.old.arcs }
    ensures nodes { net.new.nodes ≡ net.old.nodes }
    ensures kept { SameButAllowed net.old.arcs net.new.arcs }
    ensures shaped { IsShaped bounds.now net.new.arcs }
    ensures allowed { AreAllowed bounds.now net.new.arcs heights.now }
{
    let assets = bounds.assets();
    for place in 0..assets * assets {
        allow_pair(net, heights, place, place / assets, place % assets);
    }
}
