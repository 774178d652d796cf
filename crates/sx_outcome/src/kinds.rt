//! Kinds of outcomes: a number for each, without the figures of an overdraft, which stand beside it.

ghost use Rattle.std.specs.Prelude.{◌≡◌};
ghost use Rattle.sx_outcome.specs.Packed.{kind_of, plain_outcome};

use crate::outcome::Outcome;
use crate::outcome_reading::refusal;

/// What an overdraft found: `seen` units were left, and it needs `need`, which is more.
#[derive(Clone, Copy, Debug)]
pub struct Shortage {
    pub seen: u64,
    pub need: u64,
}

pub const ACCEPTED: u8 = 0;

pub const OVERDRAFT: u8 = 14;

// The kind of an outcome. Static refusals have their own numbers, 1 to 10.
#[inline]
pub fn kind(outcome: &Outcome) -> u8
    ensures { result ≡ kind_of outcome.now }
{
    match *outcome {
        Outcome::Accepted => ACCEPTED,
        Outcome::Static(why) => why.number(),
        Outcome::SeqTaken => 11,
        Outcome::OfferTaken => 12,
        Outcome::NameTaken => 13,
        Outcome::Overdraft { .. } => OVERDRAFT,
    }
}

// The outcome of a kind that is not an overdraft's.
#[inline]
pub fn plain(kind: u8) -> Outcome
    ensures { result ≡ plain_outcome kind }
{
    match kind {
        ACCEPTED => Outcome::Accepted,
        1..=10 => Outcome::Static(refusal(kind)),
        11 => Outcome::SeqTaken,
        12 => Outcome::OfferTaken,
        _ => Outcome::NameTaken,
    }
}
