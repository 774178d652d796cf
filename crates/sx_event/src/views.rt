//! The views, and what each saw last of each purse.
ghost use Rattle.std.specs.Prelude.{◌≡◌, ◌≢◌, ◌↔◌, ◌+◌, ◌^◌, ◌<◌, ◌≤◌, true, [], ◌∷◌, ◌++◌, length, slice_index_or, slice_set, OnOk, IsTrue, IsSomeAnd};
ghost use Rattle.sx_event.specs.declared.marks.Note.TheVariants.{Low, Set};
ghost use Rattle.sx_event.specs.View.{opened, spent, with_claim, with_note, last_low};
ghost use Rattle.sx_event.specs.Step.{wins, left_part, right_part, joined};

use crate::lows::Lows;
use crate::marks::{Claim, Note};
use crate::seats::Seats;
use std::alloc::Global;
use std::marker::Model;
use sx_bytes::NoMemory;

#[derive(Debug, Drop)]
pub struct Views {
    seats: Seats,
    lows: Lows,
}

impl Model for Views {
    ghost use Rattle.std.specs.Prelude.{min};
    ghost use Rattle.sx_event.specs.Seated.{Seated};
    ghost use Rattle.sx_event.specs.Agree.{Agree};

    ghost Value = { Seated };

    ghost view = { λ v. record { views = v.seats.views; room = min v.seats.room v.lows.room } };

    ghost invariant = { λ v. Agree v.seats.views v.lows };
}

impl Views {
    // No view, and room for none. It takes no memory.
    pub fn new(alloc: Global) -> Self
        ensures { result.views ≡ [] }
    {
        Views {
            seats: Seats::new(alloc),
            lows: Lows::new(alloc),
        }
    }

    // Makes room for `more` more steps.
    pub fn reserve(&mut self, more: usize) -> Result<(), NoMemory>
        ensures views { self.new.views ≡ self.old.views }
        ensures falls_never { self.old.room ≤ self.new.room }
        ensures ok { OnOk result (more ≤ self.new.room) }
    {
        self.seats.reserve(more)?;
        self.lows.reserve(more)?;
        Ok(())
    }

    // How many views were made.
    pub fn count(&self) -> usize
        ensures { result ≡ length self.now.views }
    {
        self.seats.count()
    }

    // Whether there is a live view of this name.
    pub fn is_live(&self, view: u32) -> bool
        ensures { result ≡ (slice_index_or self.now.views view spent).live }
    {
        self.seats.is_live(view)
    }

    // Where the range of the view begins.
    pub fn from(&self, view: u32) -> u32
        requires { view < length self.now.views }
        ensures { result ≡ (slice_index_or self.now.views view spent).from }
    {
        self.seats.from(view)
    }

    // Where the range of the view ends.
    pub fn end(&self, view: u32) -> u32
        requires { view < length self.now.views }
        ensures { result ≡ (slice_index_or self.now.views view spent).end }
    {
        self.seats.end(view)
    }

    // Whether the purse, found at this value, is as the view saw it last.
    pub fn is_as_seen(&self, view: u32, purse: u32, found: u64) -> bool
        requires { (slice_index_or self.now.views view spent).live ≡ true }
        ensures { result ≡ wins (slice_index_or self.now.views view spent) purse found }
    {
        match self.lows.get(view, purse) {
            Some(seen) => found == seen,
            None => false,
        }
    }

    // Whether the view's last Low note of the purse covers the need.
    pub fn covers(&self, view: u32, purse: u32, need: u64) -> bool
        requires { (slice_index_or self.now.views view spent).live ≡ true }
        ensures { IsTrue result ↔ IsSomeAnd
            (last_low purse (slice_index_or self.now.views view spent).notes) (λ seen. need ≤ seen) }
    {
        match self.lows.get(view, purse) {
            Some(seen) => need <= seen,
            None => false,
        }
    }

    // One more view. It takes no memory.
    pub fn open(&mut self, from: u32, end: u32)
        requires few { length self.old.views < 2 ^ 32 }
        requires room { 1 ≤ self.old.room }
        ensures views { self.new.views ≡ self.old.views ++ opened from end ∷ [] }
        ensures room { self.old.room ≤ self.new.room + 1 }
    {
        self.seats.open(from, end);
        self.lows.add();
    }

    // The view has one more claim. It takes no memory.
    pub fn claim(&mut self, view: u32, claim: Claim)
        requires { (slice_index_or self.old.views view spent).live ≡ true }
        ensures views { self.new.views ≡ slice_set self.old.views view
            (with_claim (slice_index_or self.old.views view spent) claim) }
        ensures room { self.new.room ≡ self.old.room }
    {
        self.seats.claim(view, claim);
    }

    // The view notes the value of the purse. It takes no memory.
    pub fn note_low(&mut self, view: u32, purse: u32, value: u64)
        requires live { (slice_index_or self.old.views view spent).live ≡ true }
        requires room { 1 ≤ self.old.room }
        ensures views { self.new.views ≡ slice_set self.old.views view
            (with_note (slice_index_or self.old.views view spent) (Low purse value)) }
        ensures room { self.old.room ≤ self.new.room + 1 }
    {
        self.seats.note(view, Note::Low { purse, value });
        self.lows.put(view, purse, value);
    }

    // The view notes that the bit is set. It takes no memory.
    pub fn note_set(&mut self, view: u32, word: u32, bit: u32)
        requires { (slice_index_or self.old.views view spent).live ≡ true }
        ensures views { self.new.views ≡ slice_set self.old.views view
            (with_note (slice_index_or self.old.views view spent) (Set word bit)) }
        ensures room { self.new.room ≡ self.old.room }
    {
        self.seats.note(view, Note::Set { word, bit });
    }

    // A new view has the range from here on. It takes no memory.
    pub fn split(&mut self, view: u32, at: u32)
        requires live { (slice_index_or self.old.views view spent).live ≡ true }
        requires few { length self.old.views < 2 ^ 32 }
        requires room { 1 ≤ self.old.room }
        ensures views { self.new.views ≡
            slice_set self.old.views view (left_part (slice_index_or self.old.views view spent) at)
            ++ right_part (slice_index_or self.old.views view spent) at ∷ [] }
        ensures room { self.old.room ≤ self.new.room + 1 }
    {
        let end = self.seats.end(view);
        self.seats.cut(view, at);
        self.seats.open(at, end);
        self.lows.add();
    }

    // The view takes in the other one. It takes no memory.
    pub fn join(&mut self, view: u32, other: u32)
        requires live { (slice_index_or self.old.views view spent).live ≡ true }
        requires other_live { (slice_index_or self.old.views other spent).live ≡ true }
        requires apart { other ≢ view }
        ensures views { self.new.views ≡ slice_set (slice_set self.old.views view (joined
            (slice_index_or self.old.views view spent) (slice_index_or self.old.views other spent))) other spent }
        ensures room { self.new.room ≡ self.old.room }
    {
        self.seats.join(view, other);
        self.lows.join(view, other);
    }
}
