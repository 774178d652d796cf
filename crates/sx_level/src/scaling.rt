//! A greatest flow over the pairs that gain nothing, by scaling.

ghost use Rattle.std.specs.Prelude.{◌≡◌, ℕ, ◌+◌, ◌-◌, ◌*◌, ◌<◌, ◌≤◌, ◌^◌, length, slice_index};
ghost use Rattle.sx_level.specs.Borders.{LeavesAtMost, border_at, border_between};
ghost use Rattle.sx_level.specs.Following.{Follows, HasBelow};
ghost use Rattle.sx_level.specs.Shape.{IsShaped, AreMatched, AreAllowed, surplus_of, total_surplus};
ghost use Rattle.sx_level.specs.Solved.{arc_count};

use crate::network::{shortage, surplus};
use crate::numbers::{asset_of, digits_of};
use crate::pushing::push_all;
use crate::reaching::reached_assets;
use std::sync::ledger::Ledger;
use sx_dual::{Bounds, Cut};
use sx_net::{Net, Steps};

// The greatest surplus of an asset.
pub fn greatest_surplus(bounds: &Bounds, net: &Net) -> u128
    requires { IsShaped bounds.now net.now.arcs }
    ensures most { (a : ℕ) → a < bounds.now.assets → surplus_of bounds.now.assets net.now.arcs a ≤ result }
    ensures least { (m : ℕ) → ((a : ℕ) → a < bounds.now.assets → surplus_of bounds.now.assets net.now.arcs a ≤ m)
        → result ≤ m }
{
    let mut most = 0;
    for asset in 0..bounds.assets() {
        most = surplus(bounds, net, asset).max(most);
    }
    most
}

// What is left from the source to an asset outside of a set, or from one inside to the sink.
fn left_at(bounds: &Bounds, net: &Net, set: Cut, asset: u32) -> u128
    requires few { bounds.now.assets ≤ 32 }
    requires shaped { IsShaped bounds.now net.now.arcs }
    requires asset { asset < bounds.now.assets }
    ensures { result ≡ border_at bounds.now.assets net.now.arcs set.0 asset }
{
    if set.contains(asset_of(asset)) {
        shortage(bounds, net, asset)
    } else {
        surplus(bounds, net, asset)
    }
}

// What a pair that gains nothing has left out of the set.
fn left_between(bounds: &Bounds, net: &Net, heights: &[u32], set: Cut, sell: u32, buy: u32) -> u128
    requires few { bounds.now.assets ≤ 32 }
    requires shaped { IsShaped bounds.now net.now.arcs }
    requires count { length heights.now ≡ bounds.now.assets }
    requires allowed { AreAllowed bounds.now net.now.arcs heights.now }
    requires low { (a : ℕ) → a < bounds.now.assets → slice_index heights.now a ≤ 32 }
    requires sell { sell < bounds.now.assets }
    requires buy { buy < bounds.now.assets }
    ensures { result ≡ border_between bounds.now.assets net.now.arcs set.0 sell buy }
{
    let place = sell * bounds.assets() + buy;
    if heights[buy as usize] != heights[sell as usize] + 1 {
        0
    } else if set.goes_out(asset_of(sell), asset_of(buy)) {
        net.left(2 * place + 1)
    } else if set.goes_in(asset_of(sell), asset_of(buy)) {
        net.left(2 * place)
    } else {
        0
    }
}

// The most that an allowed arc has left that leads out of a set between an asset and another one or the
// source or the sink.
fn left_by(bounds: &Bounds, net: &Net, heights: &[u32], set: Cut, sell: u32) -> u128
    requires few { bounds.now.assets ≤ 32 }
    requires shaped { IsShaped bounds.now net.now.arcs }
    requires count { length heights.now ≡ bounds.now.assets }
    requires allowed { AreAllowed bounds.now net.now.arcs heights.now }
    requires low { (a : ℕ) → a < bounds.now.assets → slice_index heights.now a ≤ 32 }
    requires sell { sell < bounds.now.assets }
    ensures at { border_at bounds.now.assets net.now.arcs set.0 sell ≤ result }
    ensures between { (b : ℕ) → b < bounds.now.assets
        → border_between bounds.now.assets net.now.arcs set.0 sell b ≤ result }
    ensures least { (m : ℕ) → LeavesAtMost bounds.now.assets net.now.arcs set.0 m → result ≤ m }
{
    let mut most = left_at(bounds, net, set, sell);
    for buy in 0..bounds.assets() {
        most = left_between(bounds, net, heights, set, sell, buy).max(most);
    }
    most
}

// The most that an allowed arc has left that leads out of the source and a set.
fn left_out(bounds: &Bounds, net: &Net, heights: &[u32], set: Cut) -> u128
    requires shaped { IsShaped bounds.now net.now.arcs }
    requires count { length heights.now ≡ bounds.now.assets }
    requires allowed { AreAllowed bounds.now net.now.arcs heights.now }
    requires low { (a : ℕ) → a < bounds.now.assets → slice_index heights.now a ≤ 32 }
    ensures most { LeavesAtMost bounds.now.assets net.now.arcs set.0 result }
    ensures least { (m : ℕ) → LeavesAtMost bounds.now.assets net.now.arcs set.0 m → result ≤ m }
{
    let mut most = 0;
    for sell in 0..bounds.assets() {
        most = left_by(bounds, net, heights, set, sell).max(most);
    }
    most
}

// The scale for what has at most so many digits: a power of two that has four digits less, or 1.
fn scale_of(digits: u32) -> u128
    requires { digits ≤ 128 }
    ensures { result ≡ 2 ^ (digits - 4) }
{
    1 << digits.saturating_sub(4)
}

// Pushes at the scale of so many digits, and answers the assets that the last search reached.
fn push_scale<L: Ledger>(bounds: &Bounds, net: &mut Net, digits: u32, steps: &mut Steps<L>) -> Cut
    requires nodes { net.old.nodes ≡ bounds.now.assets + 2 }
    requires shaped { IsShaped bounds.now net.old.arcs }
    requires matched { AreMatched bounds.now net.old.arcs }
    requires some { 1 ≤ digits }
    requires few { digits ≤ 128 }
    requires limit { HasBelow bounds.now net.old.arcs (2 ^ digits) }
    ensures nodes { net.new.nodes ≡ bounds.now.assets + 2 }
    ensures follows { Follows bounds.now net.old.arcs net.new.arcs }
    ensures stopped { LeavesAtMost bounds.now.assets net.new.arcs result.0 (2 ^ (digits - 4) - 1) }
    ensures counted { steps.new + 2 * (digits - 4) * arc_count bounds.now.assets
        ≤ steps.old + 2 * digits * arc_count bounds.now.assets }
    ensures rising { steps.old ≤ steps.new }
{
    push_all(bounds, net, scale_of(digits), steps);
    reached_assets(bounds, net)
}

// How many digits the most has that is left out of the source and a set after the scale of so many. After a
// scale of 1 nothing is.
fn digits_left(bounds: &Bounds, net: &Net, heights: &[u32], set: Cut, digits: u32) -> u32
    requires shaped { IsShaped bounds.now net.now.arcs }
    requires count { length heights.now ≡ bounds.now.assets }
    requires allowed { AreAllowed bounds.now net.now.arcs heights.now }
    requires low { (a : ℕ) → a < bounds.now.assets → slice_index heights.now a ≤ 32 }
    requires stopped { LeavesAtMost bounds.now.assets net.now.arcs set.0 (2 ^ (digits - 4) - 1) }
    ensures fewer { result ≤ digits - 4 }
    ensures few { result ≤ 128 }
    ensures most { LeavesAtMost bounds.now.assets net.now.arcs set.0 (2 ^ result - 1) }
{
    if digits > 4 {
        digits_of(left_out(bounds, net, heights, set))
    } else {
        0
    }
}

// Pushes until nothing more can be pushed over allowed arcs, and answers the assets that are reached from the
// source then.
pub fn maximize<L: Ledger>(
    bounds: &Bounds,
    net: &mut Net,
    heights: &[u32],
    most: u128,
    steps: &mut Steps<L>,
) -> Cut
    requires nodes { net.old.nodes ≡ bounds.now.assets + 2 }
    requires shaped { IsShaped bounds.now net.old.arcs }
    requires matched { AreMatched bounds.now net.old.arcs }
    requires count { length heights.now ≡ bounds.now.assets }
    requires allowed { AreAllowed bounds.now net.old.arcs heights.now }
    requires low { (a : ℕ) → a < bounds.now.assets → slice_index heights.now a ≤ 32 }
    requires in_all { total_surplus bounds.now.assets net.old.arcs ≤ bounds.now.assets * (bounds.now.assets * most) }
    ensures nodes { net.new.nodes ≡ bounds.now.assets + 2 }
    ensures follows { Follows bounds.now net.old.arcs net.new.arcs }
    ensures closed { 0 < total_surplus bounds.now.assets net.new.arcs
        → LeavesAtMost bounds.now.assets net.new.arcs result.0 0 }
    ensures counted { (b : ℕ) → most < 2 ^ b → steps.new ≤ steps.old + 2 * b * arc_count bounds.now.assets }
    ensures rising { steps.old ≤ steps.new }
{
    let mut reached = Cut(0);
    let mut digits = digits_of(most.min(greatest_surplus(bounds, net)));
    while digits > 0 {
        reached = push_scale(bounds, net, digits, steps);
        digits = digits_left(bounds, net, heights, reached, digits);
    }
    reached
}
