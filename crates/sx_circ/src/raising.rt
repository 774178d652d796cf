//! One pass over all steps, which raises the heights that they lead above.

ghost use Rattle.std.specs.Prelude.{◌≡◌, ◌≢◌, ℕ, ◌+◌, ◌<◌, ◌≤◌, length, slice_set, IfSome, IfNone};
ghost use Rattle.sx_circ.specs.Labels.{height_of, walk_to, AreAllLevel, AreLabels, AreLevelFrom, ArePairLevel, IsFound};
ghost use Rattle.sx_circ.specs.Residual.{CanMove, IsLevel, KeepsBounds};
ghost use Rattle.sx_circ.specs.Walks.{asset_at, HasRoom};
ghost use Rattle.sx_dual.specs.Tables.{entry_at, high_of, low_of};

use crate::residual::{room_above, room_below};
use crate::walk::{Cycle, Walk, extended, place_of};
use sx_dual::Bounds;

// What was found: that nothing rises, that something rose, or a cycle that gains.
#[derive(Clone, Copy)]
pub enum Found {
    Nothing,
    Raised,
    Gaining(Cycle),
}

// The height to which a step from one asset at a height leads another one, where that is above its own.
fn risen(bounds: &Bounds, values: &[u128], tail: u32, head: u32, from: u32, to: u32) -> Option<u32>
    requires keeps { KeepsBounds bounds.now values.now }
    requires tail { tail < bounds.now.assets }
    requires head { head < bounds.now.assets }
    requires from { from ≤ 32 }
    requires to { to ≤ 32 }
    ensures some { IfSome result (λ height. (to < height) × CanMove (low_of bounds.now) (high_of bounds.now) (entry_at bounds.now.assets values.now) 1 tail head from height) }
    ensures none { IfNone result (IsLevel (low_of bounds.now) (high_of bounds.now) (entry_at bounds.now.assets values.now) tail head from to) }
{
    if to <= from && room_above(bounds, values, tail, head) > 0 {
        Some(from + 1)
    } else if to + 1 < from && room_below(bounds, values, head, tail) > 0 {
        Some(from - 1)
    } else {
        None
    }
}

// The height of an asset, which is at most 31.
pub fn height(walks: &[Walk], asset: u32) -> u32
    requires asset { asset < length walks.now }
    requires room { HasRoom (walk_to walks.now asset) }
    requires last { (walk_to walks.now asset).last ≤ 32 }
    ensures { result ≡ height_of walks.now asset }
{
    let walk = &walks[asset as usize];
    walk.heights[walk.last as usize]
}

// Leads the walk to one asset on to another, to a height above its own. Where the walk came there
// before, this is a cycle that gains.
fn lead_on(
    bounds: &Bounds,
    values: &[u128],
    walks: &mut [Walk],
    tail: u32,
    head: u32,
    height: u32,
) -> Found
    requires labels { AreLabels bounds.now.assets (low_of bounds.now) (high_of bounds.now) (entry_at bounds.now.assets values.now) walks.old }
    requires few { bounds.now.assets ≤ 32 }
    requires tail { tail < bounds.now.assets }
    requires head { head < bounds.now.assets }
    requires apart { tail ≢ head }
    requires step { CanMove (low_of bounds.now) (high_of bounds.now) (entry_at bounds.now.assets values.now) 1 tail head (height_of walks.old tail) height }
    requires rises { height_of walks.old head < height }
    ensures labels { AreLabels bounds.now.assets (low_of bounds.now) (high_of bounds.now) (entry_at bounds.now.assets values.now) walks.new }
    ensures found { IsFound bounds.now.assets (low_of bounds.now) (high_of bounds.now) (entry_at bounds.now.assets values.now) walks.old walks.new ⊥ result }
{
    let walk = walks[tail as usize];
    let longer = extended(&walk, head, height);
    match place_of(&walk, head) {
        Some(first) => Found::Gaining(Cycle {
            walk: longer,
            first,
        }),
        None => {
            walks[head as usize] = longer;
            Found::Raised
        }
    }
}

// Follows the step from one asset to another.
fn raise_along(bounds: &Bounds, values: &[u128], walks: &mut [Walk], tail: u32, head: u32) -> Found
    requires keeps { KeepsBounds bounds.now values.now }
    requires few { bounds.now.assets ≤ 32 }
    requires labels { AreLabels bounds.now.assets (low_of bounds.now) (high_of bounds.now) (entry_at bounds.now.assets values.now) walks.old }
    requires tail { tail < bounds.now.assets }
    requires head { head < bounds.now.assets }
    ensures labels { AreLabels bounds.now.assets (low_of bounds.now) (high_of bounds.now) (entry_at bounds.now.assets values.now) walks.new }
    ensures found { IsFound bounds.now.assets (low_of bounds.now) (high_of bounds.now) (entry_at bounds.now.assets values.now) walks.old walks.new (tail ≢ head → ArePairLevel (low_of bounds.now) (high_of bounds.now) (entry_at bounds.now.assets values.now) walks.old tail head) result }
{
    if tail == head {
        return Found::Nothing;
    }
    let from = height(walks, tail);
    let to = height(walks, head);
    match risen(bounds, values, tail, head, from, to) {
        Some(height) => lead_on(bounds, values, walks, tail, head, height),
        None => Found::Nothing,
    }
}

// Follows the steps from one asset to all others.
fn raise_from(bounds: &Bounds, values: &[u128], walks: &mut [Walk], tail: u32) -> Found
    requires keeps { KeepsBounds bounds.now values.now }
    requires labels { AreLabels bounds.now.assets (low_of bounds.now) (high_of bounds.now) (entry_at bounds.now.assets values.now) walks.old }
    requires tail { tail < bounds.now.assets }
    ensures labels { AreLabels bounds.now.assets (low_of bounds.now) (high_of bounds.now) (entry_at bounds.now.assets values.now) walks.new }
    ensures found { IsFound bounds.now.assets (low_of bounds.now) (high_of bounds.now) (entry_at bounds.now.assets values.now) walks.old walks.new (AreLevelFrom bounds.now.assets (low_of bounds.now) (high_of bounds.now) (entry_at bounds.now.assets values.now) walks.old tail) result }
{
    let mut raised = false;
    for head in 0..bounds.assets() {
        match raise_along(bounds, values, walks, tail, head) {
            Found::Nothing => {}
            Found::Raised => raised = true,
            Found::Gaining(cycle) => return Found::Gaining(cycle),
        }
    }
    if raised {
        Found::Raised
    } else {
        Found::Nothing
    }
}

// Follows the steps from each asset to each other.
pub fn raise(bounds: &Bounds, values: &[u128], walks: &mut [Walk]) -> Found
    requires keeps { KeepsBounds bounds.now values.now }
    requires labels { AreLabels bounds.now.assets (low_of bounds.now) (high_of bounds.now) (entry_at bounds.now.assets values.now) walks.old }
    ensures labels { AreLabels bounds.now.assets (low_of bounds.now) (high_of bounds.now) (entry_at bounds.now.assets values.now) walks.new }
    ensures found { IsFound bounds.now.assets (low_of bounds.now) (high_of bounds.now) (entry_at bounds.now.assets values.now) walks.old walks.new (AreAllLevel bounds.now.assets (low_of bounds.now) (high_of bounds.now) (entry_at bounds.now.assets values.now) walks.old) result }
{
    let mut raised = false;
    for tail in 0..bounds.assets() {
        match raise_from(bounds, values, walks, tail) {
            Found::Nothing => {}
            Found::Raised => raised = true,
            Found::Gaining(cycle) => return Found::Gaining(cycle),
        }
    }
    if raised {
        Found::Raised
    } else {
        Found::Nothing
    }
}
