//! `interleave`: a state, candidates, a script, and nothing more.

ghost use Rattle.std.specs.Prelude.{◌≡◌, ◌≤◌, [], ◌∷◌, IfOk, IsErrOf, IsTrue};
ghost use Rattle.sx_base.specs.Outside.{Rose};
ghost use Rattle.sx_input.specs.Found.{ConcludesAs, Found};
ghost use Rattle.sx_input.specs.Stream.{UnlessReadFault};
ghost use Rattle.sx_outcome.specs.Outcomes.{AreOutcomes};
ghost use Rattle.sx_outcome.specs.Scripts.{IsScript};
ghost use Rattle.sx_ledger.specs.Ledger.{IsLedger};
ghost use Rattle.sx_meaning.specs.Findings.{as_invalid};
ghost use Rattle.sx_meaning.specs.Items.{item_record};
ghost use Rattle.sx_meaning.specs.Items as item;
ghost use Rattle.sx_tx.specs.Transactions.{IsTxList};

use std::alloc::Global;
use std::thread::Threads;
use sx_base::Source;
use sx_block::Invalid;
use sx_bytes::{NoMemory, Writer};
use sx_input::{Stop, end, take};
use sx_ledger::Ledger;
use sx_outcome::{NoRoom, Outcomes, Script, outcome_list_laws, room, write_outcomes};
use sx_record::{tag, write_record};
use sx_script::{run_laws, run_script};
use sx_tx::TxList;
use sx_words::Command;

// Why a block of candidates for which there is no room would be refused.
fn refusal_of(why: NoRoom) -> Invalid
    ensures { result ≡ as_invalid why }
{
    match why {
        NoRoom::Ended => Invalid::Ended,
        NoRoom::Crowded { have, more, limit } => Invalid::Crowded { have, more, limit },
    }
}

// The record of outcomes.
fn written(alloc: Global, outcomes: &Outcomes) -> Result<Writer, NoMemory>
    requires { AreOutcomes outcomes.now }
    ensures { IfOk result (λ told. told ≡ item_record (item.outcomes outcomes.now)) }
{
    outcome_list_laws();
    let mut payload = Writer::new(alloc);
    write_outcomes(&mut payload, outcomes)?;
    let mut told = Writer::new(alloc);
    write_record(&mut told, tag::OUTCOMES, payload.bytes())?;
    Ok(told)
}

// What becomes of the candidates, or why there is no room for them.
fn outcomes(
    alloc: Global,
    ledger: &Ledger,
    candidates: &TxList,
    script: &Script,
) -> Result<Writer, Stop>
    requires ledger { IsLedger ledger.now }
    requires candidates { IsTxList candidates.now }
    requires script { IsScript script.now }
    ensures concludes { ConcludesAs Command.Interleave (item.state ledger.now ∷ item.candidates candidates.now ∷ item.script script.now ∷ []) result }
    ensures calm { IsErrOf result Stop.ReadFault → ⊥ }
{
    run_laws();
    let candidates = candidates.items();
    if let Err(why) = room(ledger, candidates) {
        let why = refusal_of(why);
        return Err(Stop::Refused { block: 0, why });
    }
    let outcomes = run_script(
        alloc,
        ledger,
        candidates,
        script.actors,
        script.turns.items(),
    )?;
    Ok(written(alloc, &outcomes)?)
}

// The record of what becomes of the candidates of the input.
pub fn interleave<R: Threads + Sync, S: Source>(
    rt: &R,
    alloc: Global,
    source: &mut S,
) -> Result<Writer, Stop>
    ensures found { Found Command.Interleave (S.left source.old) (S.left source.new) result }
    ensures steady { UnlessReadFault result (IsTrue (S.strict source.old) → S.faults source.new ≡ S.faults source.old) }
    ensures read_fault { IsErrOf result Stop.ReadFault → Rose (S.faults source.old) (S.faults source.new) }
{
    let opening = take::<Ledger, R, S>(rt, alloc, source, 0)?;
    let candidates = take::<TxList, R, S>(rt, alloc, source, opening.end)?;
    let script = take::<Script, R, S>(rt, alloc, source, candidates.end)?;
    end(alloc, source, script.end)?;
    outcomes(alloc, &opening.held, &candidates.held, &script.held)
}
