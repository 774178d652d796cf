//! The nodes that a search reached.

ghost use Rattle.std.specs.Prelude.{◌≡◌, ◌<◌, ◌≤◌, ◌^◌, ◌++◌, ◌∷◌, [], length, slice_get, Some, IfOk, IfSome, IfNone};
ghost use Rattle.sx_net.specs.Visits.{node_at, IsVisited, AreApart};

use std::alloc::Global;
use std::marker::Model;
use sx_bytes::NoMemory;

// A node that a search reached.
#[derive(Clone, Copy)]
pub struct Visit {
    pub node: u32,
    // The arc by which it was reached, and the place among the visits of the node that the arc leaves.
    // Both are 0 of the node where the search began.
    pub arc: u32,
    pub from: u32,
}

// The visits of a search in their order, no node twice. Contracts see the list, and the number of nodes.
#[derive(Drop)]
pub struct Tree {
    visits: Vec<Visit>,
    // For each node its place among the visits.
    places: Vec<Option<u32>>,
}

impl Model for Tree {
    ghost use Rattle.std.specs.Prelude.{vec_capacity, length};
    ghost use Rattle.sx_net.specs.Visits.{Visits, IsIndexed};

    ghost Value = { Visits };

    ghost view = { λ tree. record { nodes = length tree.places.items; visits = tree.visits.items } };

    ghost invariant = { λ tree. IsIndexed tree.visits.items tree.places.items (vec_capacity tree.visits) };
}

impl Tree {
    // No visits, and room for one of each node.
    pub fn new(alloc: Global, nodes: u32) -> Result<Tree, NoMemory>
        ensures { IfOk result (λ tree. tree ≡ record { nodes = nodes; visits = [] }) }
    {
        Ok(Tree {
            visits: Vec::with_capacity(alloc, nodes as usize)?,
            places: vec![in alloc; None; nodes as usize]?,
        })
    }

    // Forgets all visits.
    pub fn clear(&mut self)
        ensures { self.new ≡ record self.old { visits = [] } }
    {
        self.visits.clear();
        self.places.as_mut_slice().fill(None);
    }

    // Visits a node for the first time.
    pub fn visit(&mut self, visit: Visit)
        requires within { visit.node < self.old.nodes }
        requires fresh { ¬ IsVisited self.old.visits visit.node }
        ensures { self.new ≡ record self.old { visits = self.old.visits ++ visit ∷ [] } }
    {
        let place = self.visits.len() as u32;
        self.visits.push_reserved(visit);
        self.places[visit.node as usize] = Some(place);
    }

    // The place of a node among the visits.
    pub fn place(&self, node: u32) -> Option<u32>
        requires { node < self.now.nodes }
        ensures some { IfSome result (λ p. (p < length self.now.visits) × (node_at self.now.visits p ≡ node)) }
        ensures none { IfNone result (¬ IsVisited self.now.visits node) }
        ensures apart { AreApart self.now.visits }
    {
        self.places[node as usize]
    }

    // The visit at a place.
    pub fn at(&self, place: u32) -> Visit
        requires { place < length self.now.visits }
        ensures visit { slice_get self.now.visits place ≡ Some result }
        ensures apart { AreApart self.now.visits }
    {
        self.visits[place as usize]
    }

    // How many visits there are.
    pub fn len(&self) -> u32
        ensures len { result ≡ length self.now.visits }
        ensures most { length self.now.visits ≤ self.now.nodes }
    {
        self.visits.len() as u32
    }
}
