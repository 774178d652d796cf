//! The texts of outcomes and of a script.

ghost use Rattle.std.specs.Prelude.{◌≡◌, ◌++◌, OnOk, string_bytes};
ghost use Rattle.std.specs.List.{flat_map};
ghost use Rattle.sx_text.specs.Gathering.{outcome_line, outcome_text, outcomes_text, script_line, script_text, turn_line};
ghost use Rattle.sx_text.specs.Pieces.{indexed};

use crate::lines::{put_count, put_word};
use sx_bytes::NoMemory;
use sx_ledger::Static;
use sx_outcome::{Outcome, Script};

fn put_refusal(to: &mut String, why: Static) -> Result<(), NoMemory>
    ensures { OnOk result (string_bytes to.new ≡ string_bytes to.old ++ outcome_text (Outcome.Static why)) }
{
    let number = why.number();
    write!(to, "static {number}")?;
    Ok(())
}

fn put_overdraft(to: &mut String, seen: u64, need: u64) -> Result<(), NoMemory>
    ensures { OnOk result (string_bytes to.new ≡ string_bytes to.old ++ outcome_text (Outcome.Overdraft seen need)) }
{
    write!(to, "overdraft seen {seen} need {need}")?;
    Ok(())
}

fn put_outcome(to: &mut String, outcome: &Outcome) -> Result<(), NoMemory>
    ensures { OnOk result (string_bytes to.new ≡ string_bytes to.old ++ outcome_text outcome.now) }
{
    match *outcome {
        Outcome::Accepted => put_word(to, "accepted"),
        Outcome::Static(why) => put_refusal(to, why),
        Outcome::SeqTaken => put_word(to, "seq-taken"),
        Outcome::OfferTaken => put_word(to, "offer-taken"),
        Outcome::NameTaken => put_word(to, "name-taken"),
        Outcome::Overdraft { seen, need } => put_overdraft(to, seen, need),
    }
}

fn put_outcome_line(to: &mut String, index: usize, outcome: &Outcome) -> Result<(), NoMemory>
    ensures { OnOk result (string_bytes to.new ≡ string_bytes to.old ++ outcome_line index outcome.now) }
{
    write!(to, "{index} ")?;
    put_outcome(to, outcome)?;
    put_word(to, "\n")
}

fn put_outcome_lines(to: &mut String, outcomes: &[Outcome]) -> Result<(), NoMemory>
    ensures { OnOk result (string_bytes to.new ≡ string_bytes to.old ++ indexed outcome_line outcomes.now) }
{
    for index in 0..outcomes.len() {
        put_outcome_line(to, index, &outcomes[index])?;
    }
    Ok(())
}

/// Appends the text of outcomes.
pub fn put_outcomes(to: &mut String, outcomes: &[Outcome]) -> Result<(), NoMemory>
    ensures { OnOk result (string_bytes to.new ≡ string_bytes to.old ++ outcomes_text outcomes.now) }
{
    put_count(to, "outcomes", outcomes.len())?;
    put_outcome_lines(to, outcomes)
}

fn put_turns(to: &mut String, turns: &[u8]) -> Result<(), NoMemory>
    ensures { OnOk result (string_bytes to.new ≡ string_bytes to.old ++ flat_map turn_line turns.now) }
{
    for actor in turns {
        let actor = *actor;
        write!(to, "turn {actor}\n")?;
    }
    Ok(())
}

fn put_script_line(to: &mut String, script: &Script) -> Result<(), NoMemory>
    ensures { OnOk result (string_bytes to.new ≡ string_bytes to.old ++ script_line script.now) }
{
    let actors = script.actors;
    let turns = script.turns.items().len();
    write!(to, "script actors {actors} turns {turns}\n")?;
    Ok(())
}

/// Appends the text of a script.
pub fn put_script(to: &mut String, script: &Script) -> Result<(), NoMemory>
    ensures { OnOk result (string_bytes to.new ≡ string_bytes to.old ++ script_text script.now) }
{
    put_script_line(to, script)?;
    put_turns(to, script.turns.items())
}
