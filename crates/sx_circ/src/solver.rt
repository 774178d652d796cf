//! The circulation of greatest value.

ghost use Rattle.std.specs.Prelude.{◌≡◌, ℕ, ◌<◌, ◌≤◌, length, slice_index, IfOk};
ghost use Rattle.sx_circ.specs.Labels.{AreAllLevel, AreLabels, height_of, walk_to};
ghost use Rattle.sx_circ.specs.Residual.{KeepsBalances, KeepsBounds};
ghost use Rattle.sx_circ.specs.Walks.{HasRoom};
ghost use Rattle.sx_dual.specs.Circulation.{IsCirculation, IsGreatest};
ghost use Rattle.sx_dual.specs.Fit.{Fits};
ghost use Rattle.sx_dual.specs.Tables.{AreBounds, high_of, low_of, potential_of, value_of, entry_at};

use crate::cancelling::cancel;
use crate::raising::height;
use crate::searching::gaining_cycle;
use crate::walk::{Walk, stay};
use std::alloc::Global;
use std::sync::ledger::Ledger;
use sx_bytes::NoMemory;
use sx_dual::{Bounds, Flow, Potentials, dual_laws};
use sx_net::Steps;

// Cancels gaining cycles until there is none.
fn cancel_all(bounds: &Bounds, values: &mut [u128], walks: &mut [Walk])
    requires bounds { AreBounds bounds.now }
    requires keeps { KeepsBounds bounds.now values.old }
    requires count { length walks.old ≡ bounds.now.assets }
    ensures keeps { KeepsBounds bounds.now values.new }
    ensures balanced { KeepsBalances bounds.now.assets (entry_at bounds.now.assets values.old) (entry_at bounds.now.assets values.new) }
    ensures count { length walks.new ≡ bounds.now.assets }
    ensures labels { AreLabels bounds.now.assets (low_of bounds.now) (high_of bounds.now) (entry_at bounds.now.assets values.new) walks.new }
    ensures level { AreAllLevel bounds.now.assets (low_of bounds.now) (high_of bounds.now) (entry_at bounds.now.assets values.new) walks.new }
{
    while let Some(cycle) = gaining_cycle(bounds, values, walks) {
        cancel(bounds, values, &cycle);
    }
}

// The heights of the assets.
fn heights(alloc: Global, walks: &[Walk]) -> Result<Vec<u32>, NoMemory>
    requires few { length walks.now ≤ 32 }
    requires rooms { (k : ℕ) → k < length walks.now → HasRoom (walk_to walks.now k) }
    requires lasts { (k : ℕ) → k < length walks.now → (walk_to walks.now k).last ≤ 32 }
    ensures count { IfOk result (λ heights. length heights.items ≡ length walks.now) }
    ensures each { IfOk result (λ heights. (k : ℕ) → k < length walks.now → slice_index heights.items k ≡ height_of walks.now k) }
{
    let assets = walks.len() as u32;
    let mut heights = Vec::with_capacity(alloc, walks.len())?;
    for asset in 0..assets {
        heights.push(height(walks, asset))?;
    }
    Ok(heights)
}

/// A circulation within the bounds that trades the most value, and potentials that fit it, from a
/// circulation `start` of as many assets as the bounds. No circulation within the bounds trades more. It
/// makes no search of a net, so `steps` stays as it is. It may answer `NoMemory` in place of the two.
pub fn best<L: Ledger>(
    alloc: Global,
    bounds: &Bounds,
    start: Flow,
    steps: &mut Steps<L>,
) -> Result<(Flow, Potentials), NoMemory>
    requires assets { start.assets ≡ bounds.now.assets }
    requires start { IsCirculation bounds.now.assets (low_of bounds.now) (high_of bounds.now) (value_of start) }
    ensures assets { IfOk result (λ best. best.0.assets ≡ bounds.now.assets) }
    ensures potentials { IfOk result (λ best. length best.1 ≡ bounds.now.assets) }
    ensures fits { IfOk result (λ best. Fits bounds.now.assets (low_of bounds.now) (high_of bounds.now) (value_of best.0) (potential_of best.1)) }
    ensures greatest { IfOk result (λ best. IsGreatest bounds.now.assets (low_of bounds.now) (high_of bounds.now) (value_of best.0)) }
    ensures counted { steps.new ≡ steps.old }
{
    let assets = bounds.assets();
    let mut walks = vec![in alloc; stay(0); assets as usize]?;
    let mut values = start.into_values();
    cancel_all(bounds, values.as_mut_slice(), walks.as_mut_slice());
    let potentials = heights(alloc, walks.as_slice())?;
    dual_laws();
    Ok((Flow::of(assets, values), Potentials::of(potentials)))
}
