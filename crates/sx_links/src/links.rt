//! Lists of nodes that share one pool.
//!
//! Two lists and the free nodes of a pool with five nodes. The first list is 2, 0, 3:
//!
//!     front of list 0 ---> 2 <---> 0 <---> 3
//!     front of list 1
//!     front of free nodes ---> 4 <---> 1
//!
//!     node      0           1           2           3           4
//!     before    After(2)    After(4)    Front(0)    After(0)    Free
//!     next      3           none        0           none        1
//!     value     a value     none        a value     a value     none
//!
//! A place is what may be directly before a node: a front or another node. Each place keeps the node
//! that follows it, and each node the place that it follows, and the two agree: the node that follows
//! a place names that place. So a node follows one place only, and on the way back from it, place by
//! place, every step is forced and ends at one front. That is why no two lists share a node, and why
//! no list comes back to a node.
//!
//! `Pool::link` alone lets a node follow a place, and changes both indexes at once. `Pool::detach` takes
//! a node out: nothing follows it any more, and what followed it follows its place. `Pool::attach` puts
//! it between a place and what followed that place. Only in between does its value come or go. A node
//! that leaves a list goes to the front of the free nodes, and a node for a list comes from there.

ghost use Rattle.std.specs.Prelude.{◌≡◌, ◌≢◌, ℕ, ◌+◌, ◌-◌, ◌^◌, ◌<◌, [], length, drop, replicate, Some, None, slice_get, max, IfOk, OnOk, OnErr};
ghost use Rattle.std.specs.Option.{ForSome};
ghost use Rattle.sx_links.specs.Lists.{list_at, node_at, node_count, rest_from, StandsAt, StandsIn, Stands, AreDisjoint, with_node, with_value, without_node};

use crate::pool::{Place, Pool};
use std::alloc::Global;
use std::marker::Model;
use sx_bytes::NoMemory;

/// Disjoint lists of nodes with values, in one pool. Contracts see the lists, and how many more nodes
/// there is room for. There are always fewer than `2^32 - 1` nodes, those to spare among them.
#[derive(Drop)]
pub struct Links<T> {
    pool: Pool<T>,
    // How many nodes are free.
    spare: u32,
}

impl<T> Model for Links<T> {
    ghost use Rattle.sx_links.specs.Lists.{Lists};

    ghost Value = { Lists T };

    ghost use Rattle.sx_links.specs.Pool.{lists_of, IsSound};

    ghost view = { λ links. record { lists = lists_of links.pool; spare = links.spare } };

    ghost invariant = { λ links. IsSound links.pool (lists_of links.pool) links.spare };
}

impl<T> Links<T> {
    /// `lists` empty lists, without room for a node. It may answer `NoMemory` in place of any other
    /// answer.
    pub fn new(alloc: Global, lists: u32) -> Result<Links<T>, NoMemory>
        ensures { IfOk result (λ links. links ≡ record { lists = replicate lists []; spare = 0 }) }
    {
        Ok(Links {
            pool: Pool {
                free: None,
                fronts: vec![in alloc; None; lists as usize]?,
                nodes: Vec::new(alloc),
            },
            spare: 0,
        })
    }

    /// Makes room for at least `more` nodes, and changes nothing else. It may answer `NoMemory` in place
    /// of any other answer, and then changes nothing. Its steps grow with the number of nodes that are
    /// new.
    pub fn reserve(&mut self, more: u32) -> Result<(), NoMemory>
        requires { node_count self.old.lists + more < 2 ^ 32 - 1 }
        ensures ok { OnOk result (self.new ≡ record self.old { spare = max self.old.spare more }) }
        ensures err { OnErr result (self.new ≡ self.old) }
    {
        if more <= self.spare {
            return Ok(());
        }
        let missing = more - self.spare;
        self.pool.nodes.reserve(missing as usize)?;
        self.pool.grow(missing);
        self.spare = more;
        Ok(())
    }

    /// Puts a value into a list, in a node of its own directly after the node `after`, or at the front,
    /// and answers that node, which stood in no list. It takes a constant number of steps and no memory.
    pub fn push_after(&mut self, list: u32, after: Option<u32>, value: T) -> u32
    where
        T: Drop,
        requires room { 0 < self.old.spare }
        requires list_in { list < length self.old.lists }
        requires after_in { ForSome after (StandsIn self.old.lists list) }
        ensures fresh { (l i : ℕ) → node_at (list_at self.old.lists l) i ≢ Some result }
        ensures front { after ≡ None → self.new ≡ with_node self.old list 0 (result, value) }
        ensures after_node { (node place : ℕ) → after ≡ Some node → StandsAt self.old.lists list place node
            → self.new ≡ with_node self.old list (place + 1) (result, value) }
        ensures disjoint { AreDisjoint self.new.lists }
    {
        let node = self.pool.next(Place::Free).unwrap();
        self.pool.detach(node);
        self.pool.put(node, value);
        self.pool.attach(node, Place::of(list, after));
        self.spare -= 1;
        node
    }

    /// Takes a node out of the list that it stands in, and answers its value. Its room is spare from
    /// then on. It takes a constant number of steps and no memory.
    pub fn unlink(&mut self, node: u32) -> T
        requires { Stands self.old.lists node }
        ensures value { (list place : ℕ) → StandsAt self.old.lists list place node
            → slice_get (list_at self.old.lists list) place ≡ Some (node, result) }
        ensures taken { (list place : ℕ) → StandsAt self.old.lists list place node
            → self.new ≡ without_node self.old list place }
        ensures disjoint { AreDisjoint self.new.lists }
    {
        self.pool.detach(node);
        let value = self.pool.take(node);
        self.pool.attach(node, Place::Free);
        self.spare += 1;
        value
    }

    /// Gives a node of a list another value, in place of the one that it has. It takes a constant number of
    /// steps and no memory.
    pub fn set_value(&mut self, node: u32, value: T)
    where
        T: Drop,
        requires { Stands self.old.lists node }
        ensures set { (list place : ℕ) → StandsAt self.old.lists list place node
            → self.new ≡ with_value self.old list place (node, value) }
        ensures disjoint { AreDisjoint self.new.lists }
    {
        self.pool.put(node, value);
    }

    /// The first node of a list, or `None` if the list is empty.
    pub fn first(&self, list: u32) -> Option<u32>
        requires { list < length self.now.lists }
        ensures first { result ≡ node_at (list_at self.now.lists list) 0 }
        ensures rest { rest_from result (list_at self.now.lists list) ≡ list_at self.now.lists list }
        ensures disjoint { AreDisjoint self.now.lists }
    {
        self.pool.next(Place::Front(list))
    }

    /// The node directly after a node of a list, or `None` at the last.
    pub fn next(&self, node: u32) -> Option<u32>
        requires { Stands self.now.lists node }
        ensures next { (list place : ℕ) → StandsAt self.now.lists list place node
            → result ≡ node_at (list_at self.now.lists list) (place + 1) }
        ensures rest { (list place : ℕ) → StandsAt self.now.lists list place node
            → rest_from result (list_at self.now.lists list) ≡ drop (place + 1) (list_at self.now.lists list) }
        ensures disjoint { AreDisjoint self.now.lists }
    {
        self.pool.next(Place::After(node))
    }

    /// The value of a node of a list.
    pub fn value(&self, node: u32) -> &T
        requires { Stands self.now.lists node }
        ensures value { (list place : ℕ) → StandsAt self.now.lists list place node
            → slice_get (list_at self.now.lists list) place ≡ Some (node, result.now) }
        ensures disjoint { AreDisjoint self.now.lists }
    {
        self.pool.value(node)
    }

    /// How many lists there are.
    pub fn list_count(&self) -> usize
        ensures { result ≡ length self.now.lists }
    {
        self.pool.fronts.len()
    }

    /// How many more nodes `push_after` can put into the lists before `reserve` is called again.
    pub fn spare(&self) -> u32
        ensures spare { result ≡ self.now.spare }
        ensures few { node_count self.now.lists + result < 2 ^ 32 - 1 }
        ensures disjoint { AreDisjoint self.now.lists }
    {
        self.spare
    }
}
