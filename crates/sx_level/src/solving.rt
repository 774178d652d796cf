//! The levels, one after another.

ghost use Rattle.std.specs.Prelude.{◌≡◌, ℕ, ◌+◌, ◌*◌, ◌<◌, ◌≤◌, ◌^◌, length, slice_index, IfNone, IfOk, IfSome};
ghost use Rattle.sx_dual.specs.Cuts.{IsCutOf};
ghost use Rattle.sx_dual.specs.Fit.{Fits};
ghost use Rattle.sx_dual.specs.Tables.{AreBounds, high_of, low_of, potential_of};
ghost use Rattle.sx_level.specs.Borders.{LeavesAtMost};
ghost use Rattle.sx_level.specs.Levels.{IsLevel};
ghost use Rattle.sx_level.specs.Shape.{AreAllowed, AreMatched, IsShaped, total_surplus, traded};
ghost use Rattle.sx_level.specs.Solved.{HaveDigits, IsDecided, IsSolved, arc_count, most_searches};

use crate::network::network_of;
use crate::raising::{allow_pairs, raise};
use crate::scaling::{greatest_surplus, maximize};
use crate::separating::{assets_above, first_gap};
use crate::trading::{flow_of, greatest_high};
use std::alloc::Global;
use std::sync::ledger::Ledger;
use sx_bytes::NoMemory;
use sx_dual::{Bounds, Cut, Flow, Potentials, dual_laws};
use sx_net::{Net, Steps};

/// A circulation of greatest value with potentials that fit it, or a cut if there is no circulation.
#[derive(Debug, Drop)]
pub enum Solved {
    Best { flow: Flow, potentials: Potentials },
    Cut(Cut),
}

// Makes the flow a greatest one over the pairs that gain nothing at these heights, and answers the assets
// that are reached from the source then.
fn settle<L: Ledger>(
    bounds: &Bounds,
    net: &mut Net,
    heights: &[u32],
    most: u128,
    steps: &mut Steps<L>,
) -> Cut
    requires nodes { net.old.nodes ≡ bounds.now.assets + 2 }
    requires count { length heights.now ≡ bounds.now.assets }
    requires low { (a : ℕ) → a < bounds.now.assets → slice_index heights.now a ≤ 32 }
    requires shaped { IsShaped bounds.now net.old.arcs }
    requires matched { AreMatched bounds.now net.old.arcs }
    requires in_all { total_surplus bounds.now.assets net.old.arcs ≤ bounds.now.assets * (bounds.now.assets * most) }
    ensures nodes { net.new.nodes ≡ bounds.now.assets + 2 }
    ensures level { (level : ℕ) → IsLevel bounds.now net.old.arcs heights.now level most
        → IsLevel bounds.now net.new.arcs heights.now level most }
    ensures allowed { AreAllowed bounds.now net.new.arcs heights.now }
    ensures closed { 0 < total_surplus bounds.now.assets net.new.arcs
        → LeavesAtMost bounds.now.assets net.new.arcs result.0 0 }
    ensures counted { (b : ℕ) → most < 2 ^ b → steps.new ≤ steps.old + 2 * b * arc_count bounds.now.assets }
    ensures rising { steps.old ≤ steps.new }
{
    allow_pairs(bounds, net, heights);
    maximize(bounds, net, heights, most, steps)
}

// Raises assets, level by level, until no surplus is left or a level without assets shows a cut.
fn climb<L: Ledger>(
    bounds: &Bounds,
    net: &mut Net,
    heights: &mut [u32],
    most: u128,
    steps: &mut Steps<L>,
) -> Option<Cut>
    requires nodes { net.old.nodes ≡ bounds.now.assets + 2 }
    requires count { length heights.old ≡ bounds.now.assets }
    requires bounds { AreBounds bounds.now }
    requires level { IsLevel bounds.now net.old.arcs heights.old 0 most }
    requires flat { (a : ℕ) → a < bounds.now.assets → slice_index heights.old a ≡ 0 }
    ensures shaped { IfNone result (IsShaped bounds.now net.new.arcs) }
    ensures fits { IfNone result (Fits bounds.now.assets (low_of bounds.now) (high_of bounds.now)
        (traded bounds.now net.new.arcs) (potential_of heights.new)) }
    ensures cut { IfSome result (λ cut. IsCutOf bounds.now cut.0) }
    ensures counted { (b : ℕ) → most < 2 ^ b
        → steps.new ≤ steps.old + bounds.now.assets * (2 * b * arc_count bounds.now.assets) }
    ensures rising { steps.old ≤ steps.new }
{
    let mut level = 0;
    let mut reached = settle(bounds, net, heights, most, steps);
    while greatest_surplus(bounds, net) > 0 {
        raise(heights, reached);
        level += 1;
        if let Some(gap) = first_gap(heights, level) {
            return Some(assets_above(heights, gap));
        }
        reached = settle(bounds, net, heights, most, steps);
    }
    None
}

/// A circulation of greatest value within the bounds and potentials that fit it, or a cut if there is no
/// circulation. It may answer `NoMemory` in place of any other answer. For n assets and upper bounds below
/// `2^b` it makes at most `(n + 1)(b + 1)(4n(n + 1) + 1)` searches, whatever it answers, and so never more than
/// 14,500,200, for 32 assets and `2^102`. It takes memory for the net, and for the answer.
pub fn solve<L: Ledger>(
    alloc: Global,
    bounds: &Bounds,
    steps: &mut Steps<L>,
) -> Result<Solved, NoMemory>
    ensures solved { IfOk result (IsSolved bounds.now) }
    ensures decided { IfOk result (IsDecided bounds.now) }
    ensures counted { (b : ℕ) → HaveDigits bounds.now.assets (high_of bounds.now) b
        → steps.new ≤ steps.old + most_searches bounds.now.assets b }
    ensures limited { steps.new ≤ steps.old + most_searches 32 103 }
    ensures rising { steps.old ≤ steps.new }
{
    let mut net = network_of(alloc, bounds)?;
    let mut heights = vec![in alloc; 0; bounds.assets() as usize]?;
    let most = greatest_high(bounds);
    dual_laws();
    match climb(bounds, &mut net, heights.as_mut_slice(), most, steps) {
        Some(cut) => Ok(Solved::Cut(cut)),
        None => Ok(Solved::Best {
            flow: flow_of(alloc, bounds, &net)?,
            potentials: Potentials::of(heights),
        }),
    }
}
