//! Encoding outcomes from where they stand in little memory. Where memory runs out, what was written is taken back.

ghost use Rattle.std.specs.Prelude.{◌≡◌, ℕ, ◌<◌, ◌≤◌, ◌++◌, length, slice_index_or, IfErr, IfOk, OnOk, OnErr};
ghost use Rattle.sx_bytes.specs.Written.{Begins};
ghost use Rattle.sx_outcome.specs.Outcomes.{outcome_bytes, outcomes_bytes, most_outcomes, AreOutcomes};
ghost use Rattle.sx_outcome.specs.Packed.{HaveFigures, IsPut, outcomes_of, plain_outcome};

use crate::kinds::{ACCEPTED, OVERDRAFT, Shortage, plain};
use crate::outcome_writing::{put_outcome, put_overdraft};
use crate::packed_outcomes::PackedOutcomes;
use sx_bytes::{NoMemory, Writer};

// How many of these kinds, from the first on, are those of accepted candidates.
fn accepted_run(kinds: &[u8]) -> usize
    ensures within { result ≤ length kinds.now }
    ensures accepted { (k : ℕ) → k < result → slice_index_or kinds.now k 0 ≡ 0 }
{
    for place in 0..kinds.len() {
        if kinds[place] != ACCEPTED {
            return place;
        }
    }
    kinds.len()
}

// Appends the outcome of a kind that is not an overdraft's.
#[inline]
#[tactic(auto, using(sx_bytes::proofs::Written::begins))]
fn put_plain(to: &mut Writer, kind: u8) -> Result<(), NoMemory>
    ensures ok { OnOk result (to.new ≡ to.old ++ outcome_bytes (plain_outcome kind)) }
    ensures err { OnErr result (Begins to.old to.new) }
{
    put_outcome(to, &plain(kind))
}

// Appends the outcome of a kind. An overdraft has the figures at the place `next`. The answer is the place of those that
// the next overdraft has.
#[inline]
#[tactic(auto, using(sx_bytes::proofs::Written::begins))]
fn put_kind(
    to: &mut Writer,
    kind: u8,
    overdrafts: &[Shortage],
    next: usize,
) -> Result<usize, NoMemory>
    requires figures { kind ≡ 14 → next < length overdrafts.now }
    ensures ok { IfOk result (λ later. IsPut to.old to.new kind overdrafts.now next later) }
    ensures err { IfErr result (λ _. Begins to.old to.new) }
{
    if kind == OVERDRAFT {
        let Shortage { seen, need } = overdrafts[next];
        put_overdraft(to, seen, need)?;
        return Ok(next + 1);
    }
    put_plain(to, kind)?;
    Ok(next)
}

// The encoding of an accepted outcome is its kind, so that a run of them is appended at once.
#[tactic(auto, using(sx_bytes::proofs::Written::begins, sx_bytes::proofs::Written::begins_then))]
fn put_kinds(to: &mut Writer, kinds: &[u8], overdrafts: &[Shortage]) -> Result<(), NoMemory>
    requires count { length kinds.now ≤ most_outcomes }
    requires figures { HaveFigures kinds.now overdrafts.now }
    ensures ok { OnOk result (to.new ≡ to.old ++ outcomes_bytes (outcomes_of kinds.now overdrafts.now)) }
    ensures err { OnErr result (Begins to.old to.new) }
{
    to.put_u32(kinds.len() as u32)?;
    let mut place = 0;
    let mut next = 0;
    while place < kinds.len() {
        let run = accepted_run(&kinds[place..]);
        to.raw(&kinds[place..place + run])?;
        place += run;
        if place < kinds.len() {
            next = put_kind(to, kinds[place], overdrafts, next)?;
            place += 1;
        }
    }
    Ok(())
}

/// Appends the encoding of a payload of outcomes, as [`write_outcomes`](crate::write_outcomes) does of a list of
/// them. `NoMemory` does not change what was written before.
#[tactic(auto, using(sx_bytes::proofs::Written::begins_cut))]
pub fn write_packed(to: &mut Writer, outcomes: &PackedOutcomes) -> Result<(), NoMemory>
    requires { AreOutcomes outcomes.now }
    ensures ok { OnOk result (to.new ≡ to.old ++ outcomes_bytes outcomes.now) }
    ensures err { OnErr result (to.new ≡ to.old) }
{
    let before = to.bytes().len();
    let written = put_kinds(to, &outcomes.kinds, &outcomes.overdrafts);
    if written.is_err() {
        to.cut(before);
    }
    written
}
