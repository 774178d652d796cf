//! Outcomes as they come, in memory that was taken before.

ghost use Rattle.std.specs.Prelude.{◌≡◌, ◌+◌, ◌<◌, ◌≤◌, [], ◌∷◌, ◌++◌, length, vec_len, vec_capacity, IfOk};
ghost use Rattle.sx_outcome.specs.Packed.{figures_of};

use crate::kinds::{Shortage, kind};
use crate::outcome::Outcome;
use crate::packed_outcomes::PackedOutcomes;
use std::alloc::Global;
use std::marker::Model;
use sx_bytes::NoMemory;

/// Outcomes in their order, to which more can be appended: a byte for each, and 16 bytes more for an overdraft.
/// Contracts see a `Logged`: the outcomes, and for how many more there is memory.
#[derive(Debug, Drop)]
pub struct OutcomeLog {
    kinds: Vec<u8>,
    overdrafts: Vec<Shortage>,
}

impl Model for OutcomeLog {
    ghost use Rattle.std.specs.Prelude.{◌+◌, ◌-◌, ◌≤◌, vec_len, vec_capacity};
    ghost use Rattle.sx_outcome.specs.Packed.{HaveFigures, Logged, outcomes_of};

    ghost Value = { Logged };

    ghost view = { λ log. record {
      outcomes = outcomes_of log.kinds.items log.overdrafts.items;
      spare = vec_capacity log.kinds - vec_len log.kinds;
    } };

    ghost invariant = { λ log. HaveFigures log.kinds.items log.overdrafts.items
        × (vec_capacity log.kinds + vec_len log.overdrafts ≤ vec_capacity log.overdrafts + vec_len log.kinds) };
}

// Appends the figures of an outcome, for which there is memory.
#[inline]
fn push_figures(overdrafts: &mut Vec<Shortage>, outcome: &Outcome)
    requires { vec_len overdrafts.old < vec_capacity overdrafts.old }
    ensures items { overdrafts.new.items ≡ overdrafts.old.items ++ figures_of outcome.now }
    ensures len { vec_len overdrafts.new ≡ vec_len overdrafts.old + length (figures_of outcome.now) }
    ensures capacity { vec_capacity overdrafts.new ≡ vec_capacity overdrafts.old }
{
    if let Outcome::Overdraft { seen, need } = *outcome {
        overdrafts.push_reserved(Shortage { seen, need });
    }
}

// Appends items, for which there is memory.
fn append_items<T: Copy>(to: &mut Vec<T>, more: &[T])
    requires { vec_len to.old + length more.now ≤ vec_capacity to.old }
    ensures items { to.new.items ≡ to.old.items ++ more.now }
    ensures len { vec_len to.new ≡ vec_len to.old + length more.now }
    ensures capacity { vec_capacity to.new ≡ vec_capacity to.old }
{
    for item in more {
        to.push_reserved(*item);
    }
}

impl OutcomeLog {
    /// No outcomes so far, and memory for so many, each of which may be an overdraft. Of this memory only what is
    /// written to is used.
    pub fn with_capacity(alloc: Global, count: usize) -> Result<OutcomeLog, NoMemory>
        ensures outcomes { IfOk result (λ log. log.outcomes ≡ []) }
        ensures spare { IfOk result (λ log. log.spare ≡ count) }
    {
        let kinds = Vec::with_capacity(alloc, count)?;
        let overdrafts = Vec::with_capacity(alloc, count)?;
        Ok(OutcomeLog { kinds, overdrafts })
    }

    /// Appends an outcome. It takes no memory.
    #[inline]
    pub fn push(&mut self, outcome: Outcome)
        requires { 1 ≤ self.old.spare }
        ensures outcomes { self.new.outcomes ≡ self.old.outcomes ++ outcome ∷ [] }
        ensures spare { self.new.spare + 1 ≡ self.old.spare }
    {
        self.kinds.push_reserved(kind(&outcome));
        push_figures(&mut self.overdrafts, &outcome);
    }

    /// Appends the outcomes of another log. It takes no memory.
    pub fn append(&mut self, more: &OutcomeLog)
        requires { length more.now.outcomes ≤ self.old.spare }
        ensures outcomes { self.new.outcomes ≡ self.old.outcomes ++ more.now.outcomes }
        ensures spare { self.new.spare + length more.now.outcomes ≡ self.old.spare }
    {
        append_items(&mut self.kinds, &more.kinds);
        append_items(&mut self.overdrafts, &more.overdrafts);
    }

    /// The outcomes, once no more of them come. It takes no memory.
    pub fn into_packed(self) -> PackedOutcomes
        ensures { result ≡ self.outcomes }
    {
        let OutcomeLog { kinds, overdrafts } = self;
        PackedOutcomes { kinds, overdrafts }
    }
}
