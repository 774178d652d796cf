//! The views, with their claims and notes.
ghost use Rattle.std.specs.Prelude.{◌≡◌, ◌≢◌, ◌+◌, ◌<◌, ◌≤◌, [], ◌∷◌, ◌++◌, length, slice_index_or, slice_set, OnOk};
ghost use Rattle.sx_event.specs.View.{opened, spent, with_claim, with_note};
ghost use Rattle.sx_event.specs.Step.{left_part, joined};

use crate::marks::{Claim, Note};
use crate::seat::Seat;
use std::alloc::Global;
use std::marker::Model;
use std::mem;
use sx_bytes::NoMemory;

// The seats of all views, named by their places.
#[derive(Debug, Drop)]
pub struct Seats {
    seats: Vec<Seat>,
}

impl Model for Seats {
    ghost use Rattle.std.specs.Prelude.{◌-◌, vec_len, vec_capacity};
    ghost use Rattle.sx_event.specs.Seated.{Seated};

    ghost Value = { Seated };

    ghost view = { λ s. record { views = s.seats.items; room = vec_capacity s.seats - vec_len s.seats } };
}

impl Seats {
    // No view, and room for none. It takes no memory.
    pub fn new(alloc: Global) -> Self
        ensures { result.views ≡ [] }
    {
        Seats {
            seats: Vec::new(alloc),
        }
    }

    // Makes room for `more` more views.
    pub fn reserve(&mut self, more: usize) -> Result<(), NoMemory>
        ensures views { self.new.views ≡ self.old.views }
        ensures falls_never { self.old.room ≤ self.new.room }
        ensures ok { OnOk result (more ≤ self.new.room) }
    {
        self.seats.reserve(more)?;
        Ok(())
    }

    // How many views were made.
    pub fn count(&self) -> usize
        ensures { result ≡ length self.now.views }
    {
        self.seats.len()
    }

    // Whether there is a live view of this name.
    pub fn is_live(&self, view: u32) -> bool
        ensures { result ≡ (slice_index_or self.now.views view spent).live }
    {
        match self.seats.get(view as usize) {
            Some(seat) => seat.is_live(),
            None => false,
        }
    }

    // Where the range of the view begins.
    pub fn from(&self, view: u32) -> u32
        requires { view < length self.now.views }
        ensures { result ≡ (slice_index_or self.now.views view spent).from }
    {
        self.seats[view as usize].from()
    }

    // Where the range of the view ends.
    pub fn end(&self, view: u32) -> u32
        requires { view < length self.now.views }
        ensures { result ≡ (slice_index_or self.now.views view spent).end }
    {
        self.seats[view as usize].end()
    }

    // One more view. It takes no memory.
    pub fn open(&mut self, from: u32, end: u32)
        requires { 1 ≤ self.old.room }
        ensures views { self.new.views ≡ self.old.views ++ opened from end ∷ [] }
        ensures room { self.old.room ≤ self.new.room + 1 }
    {
        self.seats.push_reserved(Seat::open(from, end));
    }

    // The view has one more claim. It takes no memory.
    pub fn claim(&mut self, view: u32, claim: Claim)
        requires { view < length self.old.views }
        ensures views { self.new.views ≡ slice_set self.old.views view
            (with_claim (slice_index_or self.old.views view spent) claim) }
        ensures room { self.new.room ≡ self.old.room }
    {
        self.seats[view as usize].claim(claim);
    }

    // The view has one more note. It takes no memory.
    pub fn note(&mut self, view: u32, note: Note)
        requires { view < length self.old.views }
        ensures views { self.new.views ≡ slice_set self.old.views view
            (with_note (slice_index_or self.old.views view spent) note) }
        ensures room { self.new.room ≡ self.old.room }
    {
        self.seats[view as usize].note(note);
    }

    // The range of the view ends here. It takes no memory.
    pub fn cut(&mut self, view: u32, at: u32)
        requires { view < length self.old.views }
        ensures views { self.new.views ≡ slice_set self.old.views view
            (left_part (slice_index_or self.old.views view spent) at) }
        ensures room { self.new.room ≡ self.old.room }
    {
        self.seats[view as usize].cut(at);
    }

    // The view takes in the other one. It takes no memory.
    pub fn join(&mut self, view: u32, other: u32)
        requires known { view < length self.old.views }
        requires other_known { other < length self.old.views }
        requires apart { other ≢ view }
        ensures views { self.new.views ≡ slice_set (slice_set self.old.views view (joined
            (slice_index_or self.old.views view spent) (slice_index_or self.old.views other spent))) other spent }
        ensures room { self.new.room ≡ self.old.room }
    {
        let next = mem::replace(&mut self.seats[other as usize], Seat::spent());
        self.seats[view as usize].join(next);
    }
}
