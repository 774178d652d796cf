//! Moving value round a cycle.

ghost use Rattle.std.specs.Prelude.{◌≡◌, ◌≢◌, ℕ, ◌+◌, ◌*◌, ◌<◌, ◌≤◌, length};
ghost use Rattle.sx_circ.specs.Residual.{HasMoved, KeepsBalances, KeepsBounds};
ghost use Rattle.sx_circ.specs.Walks.{asset_at, height_at, AreWithin, CanMoveAt, IsGaining, IsWalk};
ghost use Rattle.sx_dual.specs.Circulation.{traded_value};
ghost use Rattle.sx_dual.specs.Tables.{entry_at, high_of, low_of};

use crate::residual::{room_above, room_below};
use crate::walk::{Cycle, Walk};
use sx_dual::Bounds;

// The most that the step at a place can move.
fn room_at(bounds: &Bounds, values: &[u128], walk: &Walk, place: u32) -> u128
    requires keeps { KeepsBounds bounds.now values.now }
    requires walk { IsWalk bounds.now.assets (low_of bounds.now) (high_of bounds.now) (entry_at bounds.now.assets values.now) walk.now }
    requires place { place < walk.now.last }
    ensures some { 0 < result }
    ensures room { CanMoveAt (low_of bounds.now) (high_of bounds.now) (entry_at bounds.now.assets values.now) result walk.now place }
{
    let at = place as usize;
    let tail = walk.assets[at];
    let head = walk.assets[at + 1];
    if walk.heights[at] < walk.heights[at + 1] {
        room_above(bounds, values, tail, head)
    } else {
        room_below(bounds, values, head, tail)
    }
}

// The most that all steps of a cycle can move.
fn room_along(bounds: &Bounds, values: &[u128], cycle: &Cycle) -> u128
    requires keeps { KeepsBounds bounds.now values.now }
    requires cycle { IsGaining bounds.now.assets (low_of bounds.now) (high_of bounds.now) (entry_at bounds.now.assets values.now) cycle.now }
    ensures some { 0 < result }
    ensures room { (k : ℕ) → cycle.now.first ≤ k → k < cycle.now.walk.last → CanMoveAt (low_of bounds.now) (high_of bounds.now) (entry_at bounds.now.assets values.now) result cycle.now.walk k }
{
    let mut room = room_at(bounds, values, &cycle.walk, cycle.first);
    for place in cycle.first + 1..cycle.walk.last {
        let other = room_at(bounds, values, &cycle.walk, place);
        room = room.min(other);
    }
    room
}

// Moves an amount along the step at a place.
fn shift(bounds: &Bounds, values: &mut [u128], walk: &Walk, place: u32, amount: u128)
    requires keeps { KeepsBounds bounds.now values.old }
    requires walk { AreWithin bounds.now.assets walk.now }
    requires place { place < walk.now.last }
    requires room { CanMoveAt (low_of bounds.now) (high_of bounds.now) (entry_at bounds.now.assets values.old) amount walk.now place }
    ensures keeps { KeepsBounds bounds.now values.new }
    ensures moved { HasMoved bounds.now.assets (entry_at bounds.now.assets values.old) (entry_at bounds.now.assets values.new) amount (asset_at walk.now place) (asset_at walk.now (place + 1)) (height_at walk.now place) (height_at walk.now (place + 1)) }
{
    let assets = bounds.assets() as usize;
    let at = place as usize;
    let tail = walk.assets[at] as usize;
    let head = walk.assets[at + 1] as usize;
    if walk.heights[at] < walk.heights[at + 1] {
        values[tail * assets + head] += amount;
    } else {
        values[head * assets + tail] -= amount;
    }
}

// Moves an amount round a cycle.
fn shift_round(bounds: &Bounds, values: &mut [u128], cycle: &Cycle, amount: u128)
    requires keeps { KeepsBounds bounds.now values.old }
    requires cycle { IsGaining bounds.now.assets (low_of bounds.now) (high_of bounds.now) (entry_at bounds.now.assets values.old) cycle.now }
    requires some { 0 < amount }
    requires room { (k : ℕ) → cycle.now.first ≤ k → k < cycle.now.walk.last → CanMoveAt (low_of bounds.now) (high_of bounds.now) (entry_at bounds.now.assets values.old) amount cycle.now.walk k }
    ensures keeps { KeepsBounds bounds.now values.new }
    ensures balanced { KeepsBalances bounds.now.assets (entry_at bounds.now.assets values.old) (entry_at bounds.now.assets values.new) }
    ensures more { traded_value bounds.now.assets (entry_at bounds.now.assets values.old) < traded_value bounds.now.assets (entry_at bounds.now.assets values.new) }
{
    for place in cycle.first..cycle.walk.last {
        shift(bounds, values, &cycle.walk, place, amount);
    }
}

// Moves round a gaining cycle the most that it can take.
pub fn cancel(bounds: &Bounds, values: &mut [u128], cycle: &Cycle)
    requires keeps { KeepsBounds bounds.now values.old }
    requires cycle { IsGaining bounds.now.assets (low_of bounds.now) (high_of bounds.now) (entry_at bounds.now.assets values.old) cycle.now }
    ensures keeps { KeepsBounds bounds.now values.new }
    ensures balanced { KeepsBalances bounds.now.assets (entry_at bounds.now.assets values.old) (entry_at bounds.now.assets values.new) }
    ensures more { traded_value bounds.now.assets (entry_at bounds.now.assets values.old) < traded_value bounds.now.assets (entry_at bounds.now.assets values.new) }
{
    let amount = room_along(bounds, values, cycle);
    shift_round(bounds, values, cycle, amount);
}
