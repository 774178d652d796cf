//! Outcomes in little memory.

ghost use Rattle.std.specs.Prelude.{◌≡◌, ◌<◌, length, slice_get, IfOk, IfSome};
ghost use Rattle.sx_outcome.specs.Gathering.{is_accepted as accepts};
ghost use Rattle.sx_outcome.specs.Packed.{HaveFigures, outcomes_of};

use crate::kinds::{ACCEPTED, OVERDRAFT, Shortage, plain};
use crate::outcome::{Outcome, Outcomes};
use std::alloc::Global;
use std::marker::Model;
use sx_bytes::NoMemory;

/// The outcomes of candidates, in the order of the candidates: a byte for each, and 16 bytes more for an overdraft.
/// Contracts see the list of the outcomes.
#[derive(Debug, Drop)]
pub struct PackedOutcomes {
    pub(crate) kinds: Vec<u8>,
    // The figures of the overdrafts, in their order.
    pub(crate) overdrafts: Vec<Shortage>,
}

impl Model for PackedOutcomes {
    ghost use Rattle.std.specs.Prelude.{List};
    ghost use Rattle.sx_outcome.specs.declared.outcome.Outcome.{Outcome};
    ghost use Rattle.sx_outcome.specs.Packed.{HaveFigures, outcomes_of};

    ghost Value = { List Outcome };

    ghost view = { λ packed. outcomes_of packed.kinds.items packed.overdrafts.items };

    ghost invariant = { λ packed. HaveFigures packed.kinds.items packed.overdrafts.items };
}

// A list of the outcomes of these kinds, where each overdraft has the next figures.
fn unpacked(alloc: Global, kinds: &[u8], overdrafts: &[Shortage]) -> Result<Vec<Outcome>, NoMemory>
    requires { HaveFigures kinds.now overdrafts.now }
    ensures { IfOk result (λ list. list.items ≡ outcomes_of kinds.now overdrafts.now) }
{
    let mut list = Vec::with_capacity(alloc, kinds.len())?;
    let mut next = 0;
    for kind in kinds {
        if *kind == OVERDRAFT {
            let Shortage { seen, need } = overdrafts[next];
            list.push(Outcome::Overdraft { seen, need })?;
            next += 1;
        } else {
            list.push(plain(*kind))?;
        }
    }
    Ok(list)
}

impl PackedOutcomes {
    /// How many there are.
    #[inline]
    pub fn len(&self) -> usize
        ensures { result ≡ length self.now }
    {
        self.kinds.len()
    }

    /// Whether the candidate at this place is accepted.
    #[inline]
    pub fn is_accepted(&self, place: usize) -> bool
        requires { place < length self.now }
        ensures { IfSome (slice_get self.now place) (λ outcome. result ≡ accepts outcome) }
    {
        self.kinds[place] == ACCEPTED
    }

    /// A list of them, in memory that it takes.
    pub fn to_list(&self, alloc: Global) -> Result<Outcomes, NoMemory>
        ensures { IfOk result (λ list. list ≡ self.now) }
    {
        Ok(Outcomes::of(unpacked(alloc, &self.kinds, &self.overdrafts)?))
    }
}
