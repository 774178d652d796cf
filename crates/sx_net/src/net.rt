//! The net.

ghost use Rattle.std.specs.Prelude.{◌≡◌, ◌≢◌, ◌<◌, ◌≤◌, ◌+◌, ◌-◌, ◌^◌, ◌↔◌, ℕ, [], length, All, Contains, IsTrue, IfOk};
ghost use Rattle.std.specs.Bool.{OnTrue, OnFalse};
ghost use Rattle.sx_net.specs.Arcs.{left_of, reverse_of, room_of, IsOpen};
ghost use Rattle.sx_net.specs.Network.{with_arc, with_allowed, Pushes, MovesRoom};
ghost use Rattle.sx_net.specs.Paths.{IsPath, Reaches};

use crate::arc::{Arc, look_up};
use crate::leaving::{enter, replace};
use crate::pushing::push_along;
use crate::search::{grow, trace};
use crate::steps::Steps;
use crate::tree::Tree;
use std::alloc::Global;
use std::marker::Model;
use std::sync::ledger::Ledger;
use sx_bytes::NoMemory;
use sx_links::Links;

/// A residual network. Nodes are numbers from 0 on, and so are arcs; each number of a node or an arc that
/// is handed in must be in range.
#[derive(Drop)]
pub struct Net {
    // The arcs that leave each node, in two lists, and the link of each arc.
    leaving: Links<u32>,
    links: Vec<u32>,
    arcs: Vec<Arc>,
    // How many arcs, each with its reverse, can still be added.
    spare: u32,
    // What the last search visited.
    tree: Tree,
    path: Vec<u32>,
}

impl Model for Net {
    ghost use Rattle.std.specs.Prelude.{map, vec_capacity};
    ghost use Rattle.sx_net.specs.Network.{Network};

    ghost Value = { Network };

    ghost use Rattle.sx_net.specs.Sound.{IsSound};

    ghost view = { λ net. record {
      nodes = net.tree.nodes;
      arcs = net.arcs.items;
      spare = net.spare;
      path = net.path.items;
      reached = map (λ visit. visit.node) net.tree.visits;
    } };

    ghost invariant = { λ net. IsSound net.leaving net.links.items (vec_capacity net.links) net.tree.nodes
        net.arcs.items (vec_capacity net.arcs) net.spare net.path.items (vec_capacity net.path) };
}

impl Net {
    /// A net of the nodes `0..nodes` without arcs, with room for `arcs` arcs and their reverses. It may
    /// answer `NoMemory` in place of any other answer, and does so from `2^31` nodes on.
    pub fn new(alloc: Global, nodes: u32, arcs: u32) -> Result<Net, NoMemory>
        requires { arcs < 2 ^ 31 }
        ensures { IfOk result (λ net. net ≡ record {
          nodes = nodes;
          arcs = [];
          spare = arcs;
          path = [];
          reached = [];
        }) }
    {
        let Some(lists) = nodes.checked_mul(2) else {
            return Err(NoMemory);
        };
        let mut leaving = Links::new(alloc, lists)?;
        leaving.reserve(2 * arcs)?;
        Ok(Net {
            leaving,
            links: Vec::with_capacity(alloc, 2 * arcs as usize)?,
            arcs: Vec::with_capacity(alloc, 2 * arcs as usize)?,
            spare: arcs,
            tree: Tree::new(alloc, nodes)?,
            path: Vec::with_capacity(alloc, nodes as usize)?,
        })
    }

    /// Adds an arc that has this room left, and its reverse with nothing left, both allowed. It answers
    /// the arc's number, which is the number of arcs before; the next number is that of the reverse.
    pub fn arc(&mut self, tail: u32, head: u32, room: u128) -> u32
        requires spare { 0 < self.old.spare }
        requires tail { tail < self.old.nodes }
        requires head { head < self.old.nodes }
        ensures number { result ≡ length self.old.arcs }
        ensures reverse { reverse_of result ≡ result + 1 }
        ensures added { self.new ≡ record self.old {
          arcs = with_arc self.old.arcs tail head room;
          spare = self.old.spare - 1;
        } }
    {
        let number = self.arcs.len() as u32;
        let arc = Arc {
            tail,
            head,
            left: room,
            allowed: true,
        };
        let back = Arc {
            tail: head,
            head: tail,
            left: 0,
            allowed: true,
        };
        enter(&mut self.leaving, &mut self.links, &mut self.arcs, arc);
        enter(&mut self.leaving, &mut self.links, &mut self.arcs, back);
        self.spare -= 1;
        number
    }

    /// What an arc has left.
    pub fn left(&self, arc: u32) -> u128
        requires { arc < length self.now.arcs }
        ensures left { result ≡ left_of self.now.arcs arc }
        ensures room { room_of self.now.arcs arc < 2 ^ 128 }
    {
        look_up(self.arcs.as_slice(), arc).left
    }

    /// Allows an arc, or forbids it.
    pub fn allow(&mut self, arc: u32, on: bool)
        requires { arc < length self.old.arcs }
        ensures { self.new ≡ record self.old { arcs = with_allowed self.old.arcs arc on } }
    {
        let before = look_up(self.arcs.as_slice(), arc);
        let allowed = on;
        let changes = before.allowed != on;
        if changes {
            replace(
                &mut self.leaving,
                self.links.as_mut_slice(),
                self.arcs.as_mut_slice(),
                arc,
                Arc { allowed, ..before },
            );
        }
    }

    /// Whether allowed arcs that have at least `least` left lead from one node to another. Where they do,
    /// a path of such arcs is kept, and it comes to no node twice. Where they do not, no path is kept, and
    /// the nodes reached are all to which such arcs lead. It counts one step. It looks at each arc at most
    /// once, and unless `least` is 0 at no arc that is forbidden, has nothing left or leads to the node that
    /// it leaves. It takes no memory.
    pub fn search<L: Ledger>(
        &mut self,
        tail: u32,
        head: u32,
        least: u128,
        steps: &mut Steps<L>,
    ) -> bool
        requires tail { tail < self.old.nodes }
        requires head { head < self.old.nodes }
        requires apart { tail ≢ head }
        ensures counted { steps.new ≡ steps.old + 1 }
        ensures exact { IsTrue result ↔ Reaches self.old.arcs least tail head }
        ensures path { OnTrue result (IsPath self.old.arcs tail self.new.path head) }
        ensures passable { OnTrue result (All (IsOpen self.old.arcs least) self.new.path) }
        ensures kept { OnTrue result (self.new.path ≢ []) }
        ensures none { OnFalse result (self.new.path ≡ []) }
        ensures reached { (v : ℕ) → Contains self.new.reached v → Reaches self.old.arcs least tail v }
        ensures all { OnFalse result ((v : ℕ) → Reaches self.old.arcs least tail v → Contains self.new.reached v) }
        ensures rest { self.new ≡ record self.old { path = self.new.path; reached = self.new.reached } }
    {
        steps.tick();
        self.path.clear();
        let links = self.links.as_slice();
        let arcs = self.arcs.as_slice();
        match grow(
            &self.leaving,
            links,
            arcs,
            least,
            &mut self.tree,
            tail,
            head,
        ) {
            Some(place) => {
                trace(&self.tree, place, &mut self.path);
                true
            }
            None => false,
        }
    }

    /// The arcs of the path that is kept, from its tail to its head; none if no path is kept.
    pub fn path(&self) -> &[u32]
        ensures { result.now ≡ self.now.path }
    {
        self.path.as_slice()
    }

    /// Whether the last search reached a node.
    pub fn reached(&self, node: u32) -> bool
        requires { node < self.now.nodes }
        ensures { IsTrue result ↔ Contains self.now.reached node }
    {
        self.tree.place(node).is_some()
    }

    /// Pushes an amount along the path that is kept: each of its arcs has that much less left, and their
    /// reverses that much more. No path is kept then.
    pub fn push(&mut self, amount: u128)
        requires kept { self.old.path ≢ [] }
        requires enough { All (λ a. amount ≤ left_of self.old.arcs a) self.old.path }
        ensures pushed { Pushes self.old.arcs self.new.arcs self.old.path amount }
        ensures moved { (tail head : ℕ) → IsPath self.old.arcs tail self.old.path head
            → MovesRoom self.old.arcs self.new.arcs tail head amount }
        ensures rest { self.new ≡ record self.old { arcs = self.new.arcs; path = [] } }
    {
        push_along(
            &mut self.leaving,
            self.links.as_mut_slice(),
            self.arcs.as_mut_slice(),
            self.path.as_slice(),
            amount,
        );
        self.path.clear();
    }
}
