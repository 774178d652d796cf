//! The search of a net, breadth first.

ghost use Rattle.std.specs.Prelude.{◌≡◌, ◌<◌, ◌≤◌, ◌*◌, ◌/◌, ℕ, length, [], IfSome, IfNone, Some, slice_get, vec_capacity};
ghost use Rattle.sx_links.specs.Lists.{list_at};
ghost use Rattle.sx_net.specs.Arcs.{tail_of, head_of, IsOpen};
ghost use Rattle.sx_net.specs.Leaving.{AreListed};
ghost use Rattle.sx_net.specs.Trees.{IsTree, Extends, IsExplored, IsClosed, LeadsBack};
ghost use Rattle.sx_net.specs.Visits.{node_at, from_at, IsVisited, AreApart};

use crate::arc::{Arc, is_open, look_up};
use crate::tree::{Tree, Visit};
use sx_links::Links;

// Visits the node to which an arc leads, where the arc is open and the node was not visited.
fn follow(arcs: &[Arc], least: u128, tree: &mut Tree, from: u32, arc: u32)
    requires arc { arc < length arcs.now }
    requires head { head_of arcs.now arc < tree.old.nodes }
    requires from { from < length tree.old.visits }
    requires tail { tail_of arcs.now arc ≡ node_at tree.old.visits from }
    requires linked { IsTree arcs.now least tree.old.visits }
    ensures nodes { tree.new.nodes ≡ tree.old.nodes }
    ensures linked { IsTree arcs.now least tree.new.visits }
    ensures more { Extends tree.old.visits tree.new.visits }
    ensures visited { IsOpen arcs.now least arc → IsVisited tree.new.visits (head_of arcs.now arc) }
{
    let node = look_up(arcs, arc).head;
    if tree.place(node).is_none() && is_open(arcs, least, arc) {
        tree.visit(Visit { node, arc, from });
    }
}

// Follows each arc of a list of the node of a visit.
fn scan(
    leaving: &Links<u32>,
    links: &[u32],
    arcs: &[Arc],
    least: u128,
    tree: &mut Tree,
    from: u32,
    list: u32,
)
    requires listed { AreListed leaving.now.lists links.now arcs.now (length arcs.now) }
    requires list { list < length leaving.now.lists }
    requires heads { (a : ℕ) → a < length arcs.now → head_of arcs.now a < tree.old.nodes }
    requires from { from < length tree.old.visits }
    requires node { list / 2 ≡ node_at tree.old.visits from }
    requires linked { IsTree arcs.now least tree.old.visits }
    ensures nodes { tree.new.nodes ≡ tree.old.nodes }
    ensures linked { IsTree arcs.now least tree.new.visits }
    ensures more { Extends tree.old.visits tree.new.visits }
    ensures followed { (p link a : ℕ) → slice_get (list_at leaving.now.lists list) p ≡ Some (link, a)
        → IsOpen arcs.now least a → IsVisited tree.new.visits (head_of arcs.now a) }
{
    let mut link = leaving.first(list);
    while let Some(here) = link {
        follow(arcs, least, tree, from, *leaving.value(here));
        link = leaving.next(here);
    }
}

// Follows each arc that leaves the node of a visit and may be open.
fn explore(
    leaving: &Links<u32>,
    links: &[u32],
    arcs: &[Arc],
    least: u128,
    tree: &mut Tree,
    from: u32,
)
    requires listed { AreListed leaving.now.lists links.now arcs.now (length arcs.now) }
    requires lists { length leaving.now.lists ≡ 2 * tree.old.nodes }
    requires heads { (a : ℕ) → a < length arcs.now → head_of arcs.now a < tree.old.nodes }
    requires from { from < length tree.old.visits }
    requires node { node_at tree.old.visits from < tree.old.nodes }
    requires linked { IsTree arcs.now least tree.old.visits }
    ensures nodes { tree.new.nodes ≡ tree.old.nodes }
    ensures linked { IsTree arcs.now least tree.new.visits }
    ensures more { Extends tree.old.visits tree.new.visits }
    ensures explored { IsExplored arcs.now least tree.new.visits from }
{
    let list = 2 * tree.at(from).node;
    scan(leaving, links, arcs, least, tree, from, list);
    let all = least == 0;
    if all {
        scan(leaving, links, arcs, least, tree, from, list + 1);
    }
}

// Visits nodes from the tail on until the head is visited or no open arc leads to another node, and
// answers the place of the head.
pub fn grow(
    leaving: &Links<u32>,
    links: &[u32],
    arcs: &[Arc],
    least: u128,
    tree: &mut Tree,
    tail: u32,
    head: u32,
) -> Option<u32>
    requires listed { AreListed leaving.now.lists links.now arcs.now (length arcs.now) }
    requires lists { length leaving.now.lists ≡ 2 * tree.old.nodes }
    requires heads { (a : ℕ) → a < length arcs.now → head_of arcs.now a < tree.old.nodes }
    requires tail { tail < tree.old.nodes }
    requires head { head < tree.old.nodes }
    ensures nodes { tree.new.nodes ≡ tree.old.nodes }
    ensures linked { IsTree arcs.now least tree.new.visits }
    ensures root { node_at tree.new.visits 0 ≡ tail }
    ensures some { IfSome result (λ p. (p < length tree.new.visits) × (node_at tree.new.visits p ≡ head)) }
    ensures none { IfNone result (¬ IsVisited tree.new.visits head) }
    ensures closed { IfNone result (IsClosed arcs.now least tree.new.visits) }
    ensures apart { AreApart tree.new.visits }
{
    tree.clear();
    tree.visit(Visit {
        node: tail,
        arc: 0,
        from: 0,
    });
    let mut next = 0;
    while next < tree.len() {
        let place = tree.place(head);
        if place.is_some() {
            return place;
        }
        explore(leaving, links, arcs, least, tree, next);
        next += 1;
    }
    tree.place(head)
}

// Writes the arcs by which the visits lead to a place.
pub fn trace(tree: &Tree, place: u32, path: &mut Vec<u32>)
    requires within { place < length tree.now.visits }
    requires earlier { (p : ℕ) → 0 < p → p < length tree.now.visits → from_at tree.now.visits p < p }
    requires none { path.old.items ≡ [] }
    requires room { tree.now.nodes ≤ vec_capacity path.old }
    ensures path { LeadsBack tree.now.visits 0 path.new.items place }
    ensures room { vec_capacity path.new ≡ vec_capacity path.old }
{
    let mut at = place;
    let _visits = tree.len();
    while at > 0 {
        let visit = tree.at(at);
        path.push_reserved(visit.arc);
        at = visit.from;
    }
    path.reverse();
}
