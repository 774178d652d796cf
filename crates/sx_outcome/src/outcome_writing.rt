//! Encoding outcomes. Where memory runs out, what was written is taken back.

ghost use Rattle.std.specs.Prelude.{◌≡◌, ◌≤◌, ◌++◌, length, OnOk, OnErr};
ghost use Rattle.sx_bytes.specs.Written.{Begins};
ghost use Rattle.sx_outcome.specs.Outcomes.{outcome_bytes, outcomes_bytes, most_outcomes, AreOutcomes};

use crate::outcome::{Outcome, Outcomes};
use sx_bytes::{NoMemory, Writer};
use sx_ledger::Static;

#[inline]
#[tactic(auto, using(sx_bytes::proofs::Written::begins, sx_bytes::proofs::Written::begins_then))]
fn put_refusal(to: &mut Writer, why: Static) -> Result<(), NoMemory>
    ensures ok { OnOk result (to.new ≡ to.old ++ outcome_bytes (Outcome.Static why)) }
    ensures err { OnErr result (Begins to.old to.new) }
{
    to.put_u8(1)?;
    to.put_u8(why.number())
}

#[inline]
#[tactic(auto, using(sx_bytes::proofs::Written::begins, sx_bytes::proofs::Written::begins_then))]
pub fn put_overdraft(to: &mut Writer, seen: u64, need: u64) -> Result<(), NoMemory>
    ensures ok { OnOk result (to.new ≡ to.old ++ outcome_bytes (Outcome.Overdraft seen need)) }
    ensures err { OnErr result (Begins to.old to.new) }
{
    to.put_u8(5)?;
    to.put_u64(seen)?;
    to.put_u64(need)
}

#[inline]
#[tactic(auto, using(sx_bytes::proofs::Written::begins))]
pub fn put_outcome(to: &mut Writer, outcome: &Outcome) -> Result<(), NoMemory>
    ensures ok { OnOk result (to.new ≡ to.old ++ outcome_bytes outcome.now) }
    ensures err { OnErr result (Begins to.old to.new) }
{
    match *outcome {
        Outcome::Accepted => to.put_u8(0),
        Outcome::Static(why) => put_refusal(to, why),
        Outcome::SeqTaken => to.put_u8(2),
        Outcome::OfferTaken => to.put_u8(3),
        Outcome::NameTaken => to.put_u8(4),
        Outcome::Overdraft { seen, need } => put_overdraft(to, seen, need),
    }
}

#[tactic(auto, using(sx_bytes::proofs::Written::begins, sx_bytes::proofs::Written::begins_then))]
fn put_list(to: &mut Writer, outcomes: &[Outcome]) -> Result<(), NoMemory>
    requires { length outcomes.now ≤ most_outcomes }
    ensures ok { OnOk result (to.new ≡ to.old ++ outcomes_bytes outcomes.now) }
    ensures err { OnErr result (Begins to.old to.new) }
{
    to.put_u32(outcomes.len() as u32)?;
    for outcome in outcomes {
        put_outcome(to, outcome)?;
    }
    Ok(())
}

/// Appends the encoding of a payload of outcomes: their count and the outcomes in their order.
/// `NoMemory` does not change what was written before.
#[tactic(auto, using(sx_bytes::proofs::Written::begins_cut))]
pub fn write_outcomes(to: &mut Writer, outcomes: &Outcomes) -> Result<(), NoMemory>
    requires { AreOutcomes outcomes.now }
    ensures ok { OnOk result (to.new ≡ to.old ++ outcomes_bytes outcomes.now) }
    ensures err { OnErr result (to.new ≡ to.old) }
{
    let before = to.bytes().len();
    let written = put_list(to, outcomes.items());
    if written.is_err() {
        to.cut(before);
    }
    written
}
