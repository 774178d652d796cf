//! Running a script.

ghost use Rattle.std.specs.Prelude.{◌≡◌, ◌<◌, ◌≤◌, length, max, IfOk, Ok};
ghost use Rattle.std.specs.List.{flat_map};
ghost use Rattle.sx_script.specs.Actors.{working as at_work, part_begin as the_begin, starting, all_starting};
ghost use Rattle.sx_outcome.specs.Gathering.{IsGathered, body_of, decisions};
ghost use Rattle.sx_outcome.specs.Outcomes.{AreOutcomes};
ghost use Rattle.sx_layout.specs.Plan.{plan_of};
ghost use Rattle.sx_outcome.specs.Room.{room_for};
ghost use Rattle.sx_script.specs.Running.{after_turns, all_to_end as all_at_end, done_of_run, opening_run, outcomes_of_run};
ghost use Rattle.sx_script.specs.RunOf.{Fit, run_of};
ghost use Rattle.sx_outcome.specs.Scripts.{most_actors};
ghost use Rattle.sx_tx.specs.Transactions.{IsTxList, most_transactions};

use crate::acting::{all_to_end, all_turns, step};
use crate::hand::Hand;
use crate::one_shard::OneShard;
use std::alloc::Global;
use sx_bytes::NoMemory;
use sx_event::{Core, Event};
use sx_ledger::Ledger;
use sx_outcome::Outcomes;
use sx_tx::Tx;

// How many actors work.
fn working(actors: u32, count: u32) -> u32
    ensures number { result ≡ at_work actors count }
{
    actors.min(count).max(1)
}

// Where the part of an actor begins.
fn part_begin(count: u32, n: u32, k: u32) -> u32
    requires count { count ≤ most_transactions }
    requires some { 1 ≤ n }
    requires few { n ≤ most_actors }
    requires within { k ≤ n }
    ensures begin { result ≡ the_begin count n k }
    ensures within { result ≤ count }
{
    count * k / n
}

// The core before the first turn, with a view for each of the actors.
fn opening_core(alloc: Global, setting: &OneShard, count: u32, n: u32) -> Result<Core, NoMemory>
    requires count { count ≡ length setting.now.candidates }
    requires few_candidates { count ≤ most_transactions }
    requires some { 1 ≤ n }
    requires few { n ≤ most_actors }
    requires enough { n ≤ max 1 count }
    ensures { IfOk result (λ core. core.state ≡ (opening_run setting.now.parts setting.now.plan setting.now.candidates n).state) }
{
    let mut core = setting.start(alloc, count)?;
    for k in 0..n - 1 {
        let at = part_begin(count, n, k + 1);
        step(&mut core, k, Event::Split { at })?;
    }
    Ok(core)
}

// An actor before the first turn.
fn hand<'a>(alloc: Global, candidates: &'a [Tx], n: u32, k: u32) -> Result<Hand<'a>, NoMemory>
    requires few_candidates { length candidates.now ≤ most_transactions }
    requires few { n ≤ most_actors }
    requires below { k < n }
    ensures { IfOk result (λ hand. hand ≡ starting candidates.now n k) }
{
    let count = candidates.len() as u32;
    let begin = part_begin(count, n, k);
    let end = part_begin(count, n, k + 1);
    Hand::new(alloc, &candidates[begin as usize..end as usize])
}

// All actors before the first turn.
#[tactic(auto, using(sx_layout::proofs::DealtLists::shards_more))]
fn all_hands<'a>(alloc: Global, candidates: &'a [Tx], n: u32) -> Result<Vec<Hand<'a>>, NoMemory>
    requires few_candidates { length candidates.now ≤ most_transactions }
    requires few { n ≤ most_actors }
    ensures { IfOk result (λ hands. hands.items ≡ all_starting candidates.now n) }
{
    let mut hands = Vec::with_capacity(alloc, n as usize)?;
    for k in 0..n {
        hands.push(hand(alloc, candidates, n, k)?)?;
    }
    Ok(hands)
}

// The outcomes of all actors, one actor after the other. There is room for `count` from the start.
fn all_done(alloc: Global, count: u32, hands: &[Hand]) -> Result<Outcomes, NoMemory>
    ensures { IfOk result (λ outcomes. outcomes ≡ flat_map (λ actor. actor.done) hands.now) }
{
    let mut outcomes = Vec::with_capacity(alloc, count as usize)?;
    for hand in hands {
        outcomes.extend_from_slice(hand.done())?;
    }
    Ok(Outcomes::of(outcomes))
}

// All turns, then what is left to do, and the outcomes, for which there is room for `count` from the start.
fn run(
    alloc: Global,
    setting: &OneShard,
    core: &mut Core,
    hands: &mut [Hand],
    turns: &[u8],
    count: u32,
) -> Result<Outcomes, NoMemory>
    requires few { length hands.old ≤ 8 }
    requires fit { Fit setting.now core.old.state hands.old }
    ensures { IfOk result (λ outcomes. outcomes ≡ done_of_run (all_at_end setting.now.parts setting.now.plan (length hands.old) (after_turns setting.now.parts setting.now.plan turns.now (run_of core.old.state hands.old)))) }
{
    all_turns(setting, core, hands, turns)?;
    all_to_end(setting, core, hands)?;
    all_done(alloc, count, hands)
}

// The same from the core before the first turn, by `n` actors.
fn run_opened(
    alloc: Global,
    setting: &OneShard,
    core: &mut Core,
    candidates: &[Tx],
    n: u32,
    turns: &[u8],
) -> Result<Outcomes, NoMemory>
    requires own { candidates.now ≡ setting.now.candidates }
    requires few_candidates { length candidates.now ≤ most_transactions }
    requires some { 1 ≤ n }
    requires few { n ≤ most_actors }
    requires enough { n ≤ max 1 (length candidates.now) }
    requires opening { core.old.state ≡ (opening_run setting.now.parts setting.now.plan setting.now.candidates n).state }
    ensures { IfOk result (λ outcomes. outcomes ≡ done_of_run (all_at_end setting.now.parts setting.now.plan n (after_turns setting.now.parts setting.now.plan turns.now (opening_run setting.now.parts setting.now.plan setting.now.candidates n)))) }
{
    let mut hands = all_hands(alloc, candidates, n)?;
    run(
        alloc,
        setting,
        core,
        &mut hands,
        turns,
        candidates.len() as u32,
    )
}

// The outcomes of a script in its setting.
fn outcomes_in(
    alloc: Global,
    setting: &OneShard,
    candidates: &[Tx],
    actors: u32,
    turns: &[u8],
) -> Result<Outcomes, NoMemory>
    requires own { candidates.now ≡ setting.now.candidates }
    requires plan { setting.now.plan ≡ plan_of setting.now.parts setting.now.candidates 1 }
    requires few_candidates { length candidates.now ≤ most_transactions }
    requires some_actor { 1 ≤ actors }
    requires few_actors { actors ≤ most_actors }
    ensures { IfOk result (λ outcomes. outcomes ≡ outcomes_of_run setting.now.parts setting.now.candidates actors turns.now) }
{
    let count = candidates.len() as u32;
    let n = working(actors, count);
    let mut core = opening_core(alloc, setting, count, n)?;
    run_opened(alloc, setting, &mut core, candidates, n, turns)
}

/// Gathers at most 1,000,000 candidates of a ledger by 1 to 8 actors, which take turns as the script
/// says: each turn is one event on one word that they share. After the last turn the first actor runs
/// to its end, then the next one, and so on. It answers the outcomes, in the order of the candidates, or
/// `NoMemory`.
///
/// Each actor has a part of the candidates, as even as can be. A turn of an actor that is not there, or
/// that has nothing left to do, does nothing. An event costs the same however many candidates there are,
/// but for the search for an account, an offer or a new id.
pub fn run_script(
    alloc: Global,
    ledger: &Ledger,
    candidates: &[Tx],
    actors: u32,
    turns: &[u8],
) -> Result<Outcomes, NoMemory>
    requires few_candidates { length candidates.now ≤ most_transactions }
    requires some_actor { 1 ≤ actors }
    requires few_actors { actors ≤ most_actors }
    // They are those that the turns lead to.
    ensures exact { IfOk result (λ outcomes. outcomes ≡ outcomes_of_run ledger.now candidates.now actors turns.now) }
    // They can be encoded.
    ensures form { IsTxList candidates.now → IfOk result AreOutcomes }
    // Where the ledger has room for the candidates, they and the body of the accepted ones are those of a gathering.
    ensures gathers { IsTxList candidates.now → room_for ledger.now candidates.now ≡ Ok tt →
        IfOk result (λ outcomes. IsGathered ledger.now candidates.now outcomes (body_of (decisions candidates.now outcomes))) }
{
    let setting = OneShard::new(alloc, ledger, candidates)?;
    outcomes_in(alloc, &setting, candidates, actors, turns)
}
