//! Decoding outcomes, field by field from left to right. Each field is read whole and then tested.

ghost use Rattle.std.specs.Prelude.{◌≡◌, ◌≤◌, List, IfOk, Ok};
ghost use Rattle.sx_bytes.specs.Grammar.{DecodesOrStrays, MayDecodeOrStray, Gives, many_at};
ghost use Rattle.sx_outcome.specs.declared.outcome.Outcome.{Outcome};
ghost use Rattle.sx_outcome.specs.Outcomes.{outcomes_bytes, AreOutcomes};
ghost use Rattle.sx_outcome.specs.OutcomeDecoding.{static_numbered, static_at, overdraft_at, outcome_at, outcome_list_at, outcomes_at};

use crate::fault::fault_at;
use crate::outcome::{MOST_OUTCOMES, Outcome, Outcomes};
use std::alloc::Global;
use sx_base::Amount;
use sx_bytes::{Form, FormFault, ReadError, Reader};
use sx_ledger::Static;

// The static refusal of a number from 1 to 10.
#[inline]
pub fn refusal(number: u8) -> Static
    ensures { result ≡ static_numbered number }
{
    match number {
        1 => Static::UnknownAccount,
        2 => Static::SeqBehind,
        3 => Static::SeqBeyond,
        4 => Static::UnknownAsset,
        5 => Static::SamePair,
        6 => Static::UnknownPayee,
        7 => Static::AccountExists,
        8 => Static::NoSuchOffer,
        9 => Static::Dust,
        _ => Static::SeqUsed,
    }
}

#[inline]
#[tactic(auto, unfolding(crate::specs::OutcomeDecoding::static_at))]
fn refused(from: &mut Reader) -> Result<Outcome, FormFault>
    ensures exact { DecodesOrStrays (λ x. x) (static_at from.old) from.new result }
    ensures same { from.new.bytes ≡ from.old.bytes }
    ensures onward { from.old.place ≤ from.new.place }
{
    let number = from.field_u8(1, 10, Form::Tag)?;
    Ok(Outcome::Static(refusal(number)))
}

#[inline]
#[tactic(auto, unfolding(crate::specs::OutcomeDecoding::overdraft_at))]
fn overdraft(from: &mut Reader) -> Result<Outcome, FormFault>
    ensures exact { DecodesOrStrays (λ x. x) (overdraft_at from.old) from.new result }
    ensures same { from.new.bytes ≡ from.old.bytes }
    ensures onward { from.old.place ≤ from.new.place }
{
    let seen = from.field_u64(0, Amount::MOST, Form::AmountRange)?;
    let need = from.field_u64(seen + 1, Amount::MOST, Form::AmountRange)?;
    Ok(Outcome::Overdraft { seen, need })
}

// An outcome. Where it is refused, the reader may stand anywhere after its old place.
#[inline]
#[tactic(auto, unfolding(crate::specs::OutcomeDecoding::outcome_at))]
fn outcome(from: &mut Reader) -> Result<Outcome, FormFault>
    ensures exact { DecodesOrStrays (λ x. x) (outcome_at from.old) from.new result }
    ensures same { from.new.bytes ≡ from.old.bytes }
    ensures onward { from.old.place ≤ from.new.place }
{
    match from.field_u8(0, 5, Form::Tag)? {
        0 => Ok(Outcome::Accepted),
        1 => refused(from),
        2 => Ok(Outcome::SeqTaken),
        3 => Ok(Outcome::OfferTaken),
        4 => Ok(Outcome::NameTaken),
        _ => overdraft(from),
    }
}

// Memory grows with what the bytes left can hold, and not with what the count claims.
fn entries(alloc: Global, from: &mut Reader, count: u32) -> Result<Outcomes, ReadError>
    ensures { MayDecodeOrStray (λ x. x) (many_at outcome_at count from.old) from.new result }
{
    let mut outcomes = Vec::with_capacity(alloc, from.left().min(count as usize))?;
    for _ in 0..count {
        let next = outcome(from)?;
        outcomes.push(next)?;
    }
    Ok(Outcomes::of(outcomes))
}

#[tactic(auto, unfolding(crate::specs::OutcomeDecoding::outcome_list_at))]
fn list(alloc: Global, from: &mut Reader) -> Result<Outcomes, ReadError>
    ensures { MayDecodeOrStray (λ x. x) (outcome_list_at from.old) from.new result }
{
    let count = from.field_u32(0, MOST_OUTCOMES, Form::TooMany)?;
    entries(alloc, from, count)
}

#[tactic(auto, unfolding(crate::specs::OutcomeDecoding::outcomes_at))]
fn whole(alloc: Global, payload: &[u8]) -> Result<Outcomes, ReadError>
    ensures { Gives (λ outcomes. outcomes) result (outcomes_at payload.now) }
{
    let mut from = Reader::new(payload);
    let outcomes = list(alloc, &mut from)?;
    if from.left() != 0 {
        return Err(fault_at(from.place(), Form::Rest));
    }
    Ok(outcomes)
}

/// The outcomes of a payload, which has to be all of the bytes: a count and that many outcomes. An
/// error is the first fault from left to right, its offset counted from the payload's first byte, or
/// `NoMemory`, which may come in place of any other answer.
///
/// The faults are `TooMany` of a count above `MOST_OUTCOMES`, `Tag` at a byte that is no outcome's
/// number, 0 to 5, or no static refusal's, 1 to 10, `AmountRange` of what an overdraft saw, where it is
/// above `2^62`, or of what it needed, where that is not above what it saw or is above `2^62`, `Short`
/// where a field passes the end, and `Rest` at the first byte after the last outcome.
pub fn read_outcomes(alloc: Global, payload: &[u8]) -> Result<Outcomes, ReadError>
    // It answers outcomes only where the payload is their encoding.
    ensures found { IfOk result (λ outcomes. AreOutcomes outcomes × (payload.now ≡ outcomes_bytes outcomes)) }
    // It does so for every encoding, unless memory runs out.
    ensures only { (outcomes : List Outcome) → AreOutcomes outcomes → payload.now ≡ outcomes_bytes outcomes →
        Gives (λ found. found) result (Ok outcomes) }
    // Which fault it is.
    ensures exact { Gives (λ outcomes. outcomes) result (outcomes_at payload.now) }
{
    whole(alloc, payload)
}
