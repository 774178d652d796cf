//! What each view saw last of each purse.
ghost use Rattle.std.specs.Prelude.{◌≡◌, ◌≢◌, ◌+◌, ◌^◌, ◌<◌, ◌≤◌, ◌==◌, ◌&&◌, if◌then◌else◌, ℕ, length, Some, None, OnOk};
ghost use Rattle.sx_event.specs.View.{or_else};
ghost use Rattle.sx_event.specs.Chains.{IsOpen, older_than, seen_last};

use crate::tables::Tables;
use std::alloc::Global;
use std::marker::Model;
use sx_bytes::NoMemory;

// Each view that is made gets a table of its own, and has a chain of tables: the newest, into which
// it writes, then older ones, and its own at the end. Where two views are joined, the last table of
// the one is followed by the newest of the other. So a look goes through at most as many tables as
// views were joined, and one more.
#[derive(Debug, Drop)]
pub struct Lows {
    tables: Tables,
    links: Vec<Link>,
}

#[derive(Clone, Copy, Debug)]
struct Link {
    // The newest table of the view.
    newest: u32,
    // The table after the view's own, once the view is joined to another.
    older: Option<u32>,
}

impl Model for Lows {
    ghost use Rattle.std.specs.Prelude.{◌-◌, min, vec_len, vec_capacity};
    ghost use Rattle.sx_event.specs.Chains.{Chained, Linked};

    ghost Value = { Chained };

    ghost view = { λ l. record {
      entries = l.tables.entries;
      links = l.links.items;
      room = min l.tables.room (vec_capacity l.links - vec_len l.links);
    } };

    ghost invariant = { λ l. Linked (record {
      entries = l.tables.entries;
      links = l.links.items;
      room = min l.tables.room (vec_capacity l.links - vec_len l.links);
    }) };
}

impl Lows {
    // Nothing seen, and no view. It takes no memory.
    pub fn new(alloc: Global) -> Self
        ensures { length result.links ≡ 0 }
    {
        Lows {
            tables: Tables::new(alloc),
            links: Vec::new(alloc),
        }
    }

    // Makes room for `more` more notes and views.
    pub fn reserve(&mut self, more: usize) -> Result<(), NoMemory>
        ensures links { self.new.links ≡ self.old.links }
        ensures seen { (view purse : ℕ) → seen_last self.new view purse ≡ seen_last self.old view purse }
        ensures falls_never { self.old.room ≤ self.new.room }
        ensures ok { OnOk result (more ≤ self.new.room) }
    {
        self.tables.reserve(more)?;
        self.links.reserve(more)?;
        Ok(())
    }

    // The table after this one.
    fn older_than(&self, table: u32) -> Option<u32>
        ensures { result ≡ older_than self.now.links table }
    {
        match self.links.get(table as usize) {
            Some(link) => link.older,
            None => None,
        }
    }

    // What the view saw last of the purse.
    pub fn get(&self, view: u32, purse: u32) -> Option<u64>
        requires { view < length self.now.links }
        ensures { result ≡ seen_last self.now view purse }
    {
        let mut table = self.links[view as usize].newest;
        'look: for _ in 0..self.links.len() {
            let value = self.tables.get(table, purse);
            if value.is_some() {
                return value;
            }
            match self.older_than(table) {
                Some(older) => table = older,
                None => return None,
            }
        }
        None
    }

    // One more view, which has seen nothing. It takes no memory.
    pub fn add(&mut self)
        requires few { length self.old.links < 2 ^ 32 }
        requires room { 1 ≤ self.old.room }
        ensures count { length self.new.links ≡ length self.old.links + 1 }
        ensures open { (view : ℕ) → IsOpen self.old view → IsOpen self.new view }
        ensures fresh { IsOpen self.new (length self.old.links) }
        ensures seen { (view purse : ℕ) → IsOpen self.old view →
            seen_last self.new view purse ≡ seen_last self.old view purse }
        ensures unseen { (purse : ℕ) → seen_last self.new (length self.old.links) purse ≡ None }
        ensures room { self.old.room ≤ self.new.room + 1 }
    {
        let newest = self.links.len() as u32;
        self.links.push_reserved(Link {
            newest,
            older: None,
        });
    }

    // The view saw the purse at this value. It takes no memory.
    pub fn put(&mut self, view: u32, purse: u32, value: u64)
        requires open { IsOpen self.old view }
        requires room { 1 ≤ self.old.room }
        ensures count { length self.new.links ≡ length self.old.links }
        ensures open { (other : ℕ) → IsOpen self.old other → IsOpen self.new other }
        ensures seen { (other of : ℕ) → IsOpen self.old other → seen_last self.new other of ≡
            (if (view == other) && (purse == of) then Some value else seen_last self.old other of) }
        ensures room { self.old.room ≤ self.new.room + 1 }
    {
        let table = self.links[view as usize].newest;
        self.tables.put(table, purse, value);
    }

    // The view has also seen what the other one saw, and that last. It takes no memory.
    pub fn join(&mut self, view: u32, other: u32)
        requires open { IsOpen self.old view }
        requires other_open { IsOpen self.old other }
        requires apart { other ≢ view }
        ensures count { length self.new.links ≡ length self.old.links }
        ensures open { (third : ℕ) → third ≢ other → IsOpen self.old third → IsOpen self.new third }
        ensures seen { (third purse : ℕ) → third ≢ other → IsOpen self.old third →
            seen_last self.new third purse ≡
            (if view == third
            then or_else (seen_last self.old other purse) (seen_last self.old view purse)
            else seen_last self.old third purse) }
        ensures room { self.new.room ≡ self.old.room }
    {
        let kept = self.links[view as usize];
        let newest = self.links[other as usize].newest;
        self.links[other as usize] = Link {
            newest,
            older: Some(kept.newest),
        };
        self.links[view as usize] = Link {
            newest,
            older: kept.older,
        };
    }
}
