//! The seat of a view.
ghost use Rattle.std.specs.Prelude.{◌≡◌};
ghost use Rattle.sx_event.specs.View.{opened, spent, with_claim, with_note};
ghost use Rattle.sx_event.specs.Step.{left_part, joined};

use crate::history::History;
use crate::marks::{Claim, Note};
use std::marker::Model;
use std::mem;
use std::snapshot::Snapshot;

// A view. Its claims and notes stand in proofs alone, so to change or join them costs nothing.
#[derive(Drop)]
#[derive_where(Debug)]
pub struct Seat {
    live: bool,
    from: u32,
    end: u32,
    #[derive_where(skip)]
    history: Snapshot<History>,
}

impl Model for Seat {
    ghost use Rattle.sx_event.specs.View.{View};

    ghost Value = { View };

    ghost use Rattle.sx_event.specs.History.{claims_of, notes_of};

    ghost view = { λ s. record {
      live = s.live;
      from = s.from;
      end = s.end;
      claims = claims_of s.history.value;
      notes = notes_of s.history.value;
    } };
}

impl Seat {
    // A new view of these candidates.
    pub fn open(from: u32, end: u32) -> Seat
        ensures { result ≡ opened from end }
    {
        Seat {
            live: true,
            from,
            end,
            history: Snapshot::of(&History::Empty),
        }
    }

    // A view that another has taken in.
    pub fn spent() -> Seat
        ensures { result ≡ spent }
    {
        Seat {
            live: false,
            from: 0,
            end: 0,
            history: Snapshot::of(&History::Empty),
        }
    }

    // Whether it is live.
    pub fn is_live(&self) -> bool
        ensures { result ≡ self.now.live }
    {
        self.live
    }

    // Where its range begins.
    pub fn from(&self) -> u32
        ensures { result ≡ self.now.from }
    {
        self.from
    }

    // Where its range ends.
    pub fn end(&self) -> u32
        ensures { result ≡ self.now.end }
    {
        self.end
    }

    // It has one more claim.
    pub fn claim(&mut self, claim: Claim)
        ensures { self.new ≡ with_claim self.old claim }
    {
        let before = mem::replace(&mut self.history, Snapshot::of(&History::Empty));
        self.history = Snapshot::of(&History::Claimed { before, claim });
    }

    // It has one more note.
    pub fn note(&mut self, note: Note)
        ensures { self.new ≡ with_note self.old note }
    {
        let before = mem::replace(&mut self.history, Snapshot::of(&History::Empty));
        self.history = Snapshot::of(&History::Noted { before, note });
    }

    // Its range ends here.
    pub fn cut(&mut self, at: u32)
        ensures { self.new ≡ left_part self.old at }
    {
        self.end = at;
    }

    // It takes in the other one.
    pub fn join(&mut self, other: Seat)
        ensures { self.new ≡ joined self.old other }
    {
        let Seat {
            end,
            history: back,
            ..
        } = other;
        let front = mem::replace(&mut self.history, Snapshot::of(&History::Empty));
        self.end = end;
        self.history = Snapshot::of(&History::Joined { front, back });
    }
}
