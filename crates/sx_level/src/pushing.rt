//! Pushes from surpluses to shortages.

ghost use Rattle.std.specs.Prelude.{◌≡◌, ◌≢◌, ℕ, ◌+◌, ◌*◌, ◌<◌, ◌≤◌, ◌^◌, ◌↔◌, [], length, All, Contains};
ghost use Rattle.sx_level.specs.Following.{Follows, HasBelow};
ghost use Rattle.sx_level.specs.Shape.{IsShaped, AreMatched};
ghost use Rattle.sx_net.specs.Arcs.{left_of};
ghost use Rattle.sx_net.specs.Network.{Pushes, MovesRoom};
ghost use Rattle.sx_net.specs.Paths.{IsPath, Reaches};

use std::sync::ledger::Ledger;
use sx_dual::Bounds;
use sx_net::{Net, Steps};

// What each arc of the kept path has left at least.
fn bottleneck(net: &Net) -> u128
    requires { All (λ a. a < length net.now.arcs) net.now.path }
    ensures enough { All (λ a. result ≤ left_of net.now.arcs a) net.now.path }
    ensures most { (m : ℕ) → m < 2 ^ 128 → All (λ a. m ≤ left_of net.now.arcs a) net.now.path → m ≤ result }
{
    let mut least = u128::MAX;
    for arc in net.path() {
        least = least.min(net.left(*arc));
    }
    least
}

// Pushes along the kept path as much as it takes, and answers how much that is.
fn push_most(net: &mut Net) -> u128
    requires kept { net.old.path ≢ [] }
    requires within { All (λ a. a < length net.old.arcs) net.old.path }
    ensures most { (m : ℕ) → m < 2 ^ 128 → All (λ a. m ≤ left_of net.old.arcs a) net.old.path → m ≤ result }
    ensures pushed { Pushes net.old.arcs net.new.arcs net.old.path result }
    ensures moved { (tail head : ℕ) → IsPath net.old.arcs tail net.old.path head
        → MovesRoom net.old.arcs net.new.arcs tail head result }
    ensures rest { net.new ≡ record net.old { arcs = net.new.arcs; path = [] } }
{
    let amount = bottleneck(net);
    net.push(amount);
    amount
}

// Pushes along paths of arcs that have at least a scale left, until no such path leads from the source to
// the sink.
pub fn push_all<L: Ledger>(bounds: &Bounds, net: &mut Net, scale: u128, steps: &mut Steps<L>)
    requires nodes { net.old.nodes ≡ bounds.now.assets + 2 }
    requires shaped { IsShaped bounds.now net.old.arcs }
    requires matched { AreMatched bounds.now net.old.arcs }
    requires some { 1 ≤ scale }
    ensures nodes { net.new.nodes ≡ bounds.now.assets + 2 }
    ensures follows { Follows bounds.now net.old.arcs net.new.arcs }
    ensures reached { (v : ℕ) → Contains net.new.reached v ↔ Reaches net.new.arcs scale bounds.now.assets v }
    ensures apart { ¬ Reaches net.new.arcs scale bounds.now.assets (bounds.now.assets + 1) }
    ensures counted { (r : ℕ) → HasBelow bounds.now net.old.arcs (r * scale)
        → steps.new ≤ steps.old + bounds.now.assets * (bounds.now.assets + 1) * r }
    ensures rising { steps.old ≤ steps.new }
{
    let assets = bounds.assets();
    while net.search(assets, assets + 1, scale, steps) {
        push_most(net);
    }
}
