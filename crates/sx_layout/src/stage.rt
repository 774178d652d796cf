//! How far an actor of a script is with a candidate.

use sx_event::Event;
use sx_outcome::Outcome;
use sx_tx::Kind;

/// What an actor does next for a candidate. A bit is a place in a bit word, below 64.
#[derive(Clone, Copy)]
pub enum Stage {
    /// Claims the candidate's sequence number.
    Number,
    /// Claims the bit of what the candidate cancels or creates.
    Name { word: u32, bit: u32 },
    /// Looks at the purse out of which the candidate needs this amount.
    Look { purse: u32, need: u64 },
    /// Takes the amount out of the purse.
    Take { purse: u32, need: u64 },
}

/// What follows from what an actor is told.
#[derive(Clone, Copy)]
pub enum Next {
    /// The candidate goes on.
    On(Stage),
    /// The candidate is decided.
    Decided(Outcome),
}

/// What an actor is about to do for a candidate of the kind `of`. `second` is the stage that comes once
/// the candidate's number is claimed, where the event claims it.
#[derive(Clone, Copy)]
pub struct Ahead {
    pub of: Kind,
    pub event: Event,
    pub second: Stage,
}
