//! A pass over candidates.

ghost use Rattle.std.specs.Prelude.{◌≡◌};

use crate::seat::PassSeat;
use std::marker::Model;
use sx_outcome::OutcomeLog;

/// A range of candidates, the outcomes of those that are decided, and a seat at each shard. Contracts
/// see a `Passing`.
///
/// A thread moves it to another by value. What keeps the outcomes has its memory from the start.
#[derive(Drop)]
pub struct Pass {
    pub(crate) from: u32,
    pub(crate) next: u32,
    pub(crate) end: u32,
    // Where the account of the last candidate stands.
    pub(crate) near: u32,
    pub(crate) seats: Vec<PassSeat>,
    pub(crate) outcomes: OutcomeLog,
}

impl Model for Pass {
    ghost use Rattle.sx_gather.specs.Passes.{Passing};

    ghost Value = { Passing };

    ghost view = { λ p. record {
      from = p.from;
      next = p.next;
      end = p.end;
      outcomes = p.outcomes.outcomes;
      spare = p.outcomes.spare;
      seats = p.seats.items;
    } };
}

impl Pass {
    /// The place of the next candidate that it decides.
    pub fn next(&self) -> u32
        ensures { result ≡ self.now.next }
    {
        self.next
    }

    /// Where its range ends.
    pub fn end(&self) -> u32
        ensures { result ≡ self.now.end }
    {
        self.end
    }
}
