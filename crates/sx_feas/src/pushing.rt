//! Pushes of what an asset is bought too much to an asset that is bought too little.

ghost use Rattle.std.specs.Prelude.{◌≡◌, ◌≢◌, ℕ, ◌+◌, ◌-◌, ◌<◌, ◌≤◌, ◌^◌, [], length, All, IsTrue};
ghost use Rattle.std.specs.Bool.{OnTrue};
ghost use Rattle.sx_net.specs.Arcs.{left_of, IsOpen};
ghost use Rattle.sx_net.specs.Paths.{IsPath, Reaches};
ghost use Rattle.sx_feas.specs.Shape.{IsShaped, KeepsCovered, Moves, bought_now, sold_now};

use crate::totals::{shortage, surplus};
use std::sync::ledger::Ledger;
use sx_dual::Bounds;
use sx_net::{Net, Steps};

// What each arc of the kept path has left at least.
fn bottleneck(net: &Net) -> u128
    requires within { All (λ a. a < length net.now.arcs) net.now.path }
    requires some { All (λ a. 1 ≤ left_of net.now.arcs a) net.now.path }
    ensures enough { All (λ a. result ≤ left_of net.now.arcs a) net.now.path }
    ensures some { 1 ≤ result }
    ensures most { (m : ℕ) → m < 2 ^ 128 → All (λ a. m ≤ left_of net.now.arcs a) net.now.path → m ≤ result }
{
    let mut least = u128::MAX;
    for arc in net.path() {
        least = least.min(net.left(*arc));
    }
    least
}

// Finds a path where there is one.
fn find_path<L: Ledger>(net: &mut Net, from: u32, to: u32, steps: &mut Steps<L>)
    requires from { from < net.old.nodes }
    requires to { to < net.old.nodes }
    requires apart { from ≢ to }
    requires reaches { Reaches net.old.arcs 1 from to }
    ensures nodes { net.new.nodes ≡ net.old.nodes }
    ensures arcs { net.new.arcs ≡ net.old.arcs }
    ensures path { IsPath net.new.arcs from net.new.path to }
    ensures passable { All (IsOpen net.new.arcs 1) net.new.path }
    ensures kept { net.new.path ≢ [] }
    ensures counted { steps.new ≡ steps.old + 1 }
{
    net.search(from, to, 1, steps);
}

// Pushes along the kept path as much as both assets and the path take, and answers how much that is.
fn push_most(bounds: &Bounds, net: &mut Net, from: u32, to: u32) -> u128
    requires nodes { net.old.nodes ≡ bounds.now.assets + 1 }
    requires shaped { IsShaped bounds.now net.old.arcs }
    requires from { from < bounds.now.assets }
    requires to { to < bounds.now.assets }
    requires path { IsPath net.old.arcs from net.old.path to }
    requires passable { All (IsOpen net.old.arcs 1) net.old.path }
    requires kept { net.old.path ≢ [] }
    requires surplus { sold_now bounds.now net.old.arcs from < bought_now bounds.now net.old.arcs from }
    requires shortage { bought_now bounds.now net.old.arcs to < sold_now bounds.now net.old.arcs to }
    ensures nodes { net.new.nodes ≡ bounds.now.assets + 1 }
    ensures shaped { IsShaped bounds.now net.new.arcs }
    ensures some { 1 ≤ result }
    ensures within_surplus { result + sold_now bounds.now net.old.arcs from ≤ bought_now bounds.now net.old.arcs from }
    ensures within_shortage { result + bought_now bounds.now net.old.arcs to ≤ sold_now bounds.now net.old.arcs to }
    ensures most { (m : ℕ)
        → m + sold_now bounds.now net.old.arcs from ≤ bought_now bounds.now net.old.arcs from
        → m + bought_now bounds.now net.old.arcs to ≤ sold_now bounds.now net.old.arcs to
        → All (λ a. m ≤ left_of net.old.arcs a) net.old.path → m ≤ result }
    ensures moved { Moves bounds.now net.old.arcs net.new.arcs from to result }
{
    let most = surplus(bounds, net, from).min(shortage(bounds, net, to));
    let amount = most.min(bottleneck(net));
    net.push(amount);
    amount
}

// Pushes from an asset with a surplus to one with a shortage as much as both and a path between them
// take, and answers how much that is.
pub fn relieve<L: Ledger>(
    bounds: &Bounds,
    net: &mut Net,
    from: u32,
    to: u32,
    steps: &mut Steps<L>,
) -> u128
    requires nodes { net.old.nodes ≡ bounds.now.assets + 1 }
    requires shaped { IsShaped bounds.now net.old.arcs }
    requires from { from < bounds.now.assets }
    requires to { to < bounds.now.assets }
    requires reaches { Reaches net.old.arcs 1 from to }
    requires surplus { sold_now bounds.now net.old.arcs from < bought_now bounds.now net.old.arcs from }
    requires shortage { bought_now bounds.now net.old.arcs to < sold_now bounds.now net.old.arcs to }
    ensures nodes { net.new.nodes ≡ bounds.now.assets + 1 }
    ensures shaped { IsShaped bounds.now net.new.arcs }
    ensures some { 1 ≤ result }
    ensures within_surplus { result + sold_now bounds.now net.old.arcs from ≤ bought_now bounds.now net.old.arcs from }
    ensures within_shortage { result + bought_now bounds.now net.old.arcs to ≤ sold_now bounds.now net.old.arcs to }
    ensures moved { Moves bounds.now net.old.arcs net.new.arcs from to result }
    ensures counted { steps.new ≡ steps.old + 1 }
{
    find_path(net, from, to, steps);
    push_most(bounds, net, from, to)
}

// Whether one asset has a surplus and the other a shortage.
fn is_unequal(bounds: &Bounds, net: &Net, from: u32, to: u32) -> bool
    requires shaped { IsShaped bounds.now net.now.arcs }
    requires from { from < bounds.now.assets }
    requires to { to < bounds.now.assets }
    ensures surplus { IsTrue result → sold_now bounds.now net.now.arcs from < bought_now bounds.now net.now.arcs from }
    ensures shortage { IsTrue result → bought_now bounds.now net.now.arcs to < sold_now bounds.now net.now.arcs to }
{
    surplus(bounds, net, from) > 0 && shortage(bounds, net, to) > 0
}

// Whether there is a path, which is kept then.
fn has_path<L: Ledger>(net: &mut Net, from: u32, to: u32, steps: &mut Steps<L>) -> bool
    requires from { from < net.old.nodes }
    requires to { to < net.old.nodes }
    requires apart { from ≢ to }
    ensures nodes { net.new.nodes ≡ net.old.nodes }
    ensures arcs { net.new.arcs ≡ net.old.arcs }
    ensures path { OnTrue result (IsPath net.new.arcs from net.new.path to) }
    ensures passable { OnTrue result (All (IsOpen net.new.arcs 1) net.new.path) }
    ensures kept { OnTrue result (net.new.path ≢ []) }
    ensures counted { steps.new ≡ steps.old + 1 }
{
    net.search(from, to, 1, steps)
}

// Pushes from one asset to another until one of them balances or there is no path.
pub fn relieve_more<L: Ledger>(
    bounds: &Bounds,
    net: &mut Net,
    from: u32,
    to: u32,
    steps: &mut Steps<L>,
)
    requires nodes { net.old.nodes ≡ bounds.now.assets + 1 }
    requires shaped { IsShaped bounds.now net.old.arcs }
    requires from { from < bounds.now.assets }
    requires to { to < bounds.now.assets }
    requires apart { from ≢ to }
    ensures nodes { net.new.nodes ≡ bounds.now.assets + 1 }
    ensures shaped { IsShaped bounds.now net.new.arcs }
    ensures kept { KeepsCovered bounds.now net.old.arcs net.new.arcs }
    ensures less { bought_now bounds.now net.new.arcs from - sold_now bounds.now net.new.arcs from
        ≤ bought_now bounds.now net.old.arcs from - sold_now bounds.now net.old.arcs from }
    ensures rising { steps.old ≤ steps.new }
{
    while is_unequal(bounds, net, from, to) && has_path(net, from, to, steps) {
        push_most(bounds, net, from, to);
    }
}
