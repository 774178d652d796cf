//! Turns of actors.

ghost use Rattle.std.specs.Prelude.{◌≡◌, ◌≢◌, ◌<◌, ◌≤◌, ℕ, length, IfOk, OnOk};
ghost use Rattle.sx_event.specs.Step.{StepAllowed, answer, stepped};
ghost use Rattle.sx_script.specs.Actors.{Actor};
ghost use Rattle.sx_script.specs.Running.{acted, turn as the_turn, after_turns, after_own, to_end as at_end, all_to_end as all_at_end};
ghost use Rattle.sx_script.specs.RunKeeps.{ActorFits, WordsStay};
ghost use Rattle.sx_script.specs.RunOf.{Fit, run_of};

use crate::deciding::follows;
use crate::hand::Hand;
use crate::one_shard::OneShard;
use sx_bytes::NoMemory;
use sx_event::{Core, Event, Step};

// For how many more steps memory is taken at a time.
const STEPS: u32 = 1 << 16;

/// One step, for which memory is taken if there is none left. It may answer `NoMemory`.
pub fn step(core: &mut Core, name: u32, event: Event) -> Result<Step, NoMemory>
    requires { StepAllowed core.old.state name event }
    ensures state { OnOk result (core.new.state ≡ stepped core.old.state name event) }
    ensures told { IfOk result (λ told. told ≡ answer core.old.state name event) }
{
    if core.spare() == 0 {
        core.reserve(STEPS)?;
    }
    Ok(core.step(name, event))
}

/// A turn of the actor whose view has this name. It may answer `NoMemory`.
pub fn act(setting: &OneShard, core: &mut Core, name: u32, hand: &mut Hand) -> Result<(), NoMemory>
    requires words { WordsStay setting.now.plan core.old.state }
    requires fits { ActorFits setting.now.candidates core.old.state name hand.old }
    ensures exact { OnOk result ((core.new.state, hand.new) ≡ acted setting.now.parts setting.now.plan core.old.state name hand.old) }
    ensures words { OnOk result (WordsStay setting.now.plan core.new.state) }
    ensures fits { OnOk result (ActorFits setting.now.candidates core.new.state name hand.new) }
    ensures others { OnOk result ((other : ℕ) (actor : Actor) → other ≢ name → ActorFits setting.now.candidates core.old.state other actor → ActorFits setting.now.candidates core.new.state other actor) }
{
    match hand.ahead(setting)? {
        None => Ok(()),
        Some(ahead) => {
            let told = step(core, name, ahead.event)?;
            let next = follows(&ahead.of, ahead.second, hand.stage(), told);
            hand.follow(next)
        }
    }
}

// A turn of this name, which need not be an actor's.
fn turn(setting: &OneShard, core: &mut Core, hands: &mut [Hand], name: u32) -> Result<(), NoMemory>
    requires { Fit setting.now core.old.state hands.old }
    ensures exact { OnOk result (run_of core.new.state hands.new ≡ the_turn setting.now.parts setting.now.plan name (run_of core.old.state hands.old)) }
    ensures fit { OnOk result (Fit setting.now core.new.state hands.new) }
{
    if (name as usize) < hands.len() {
        act(setting, core, name, &mut hands[name as usize])?;
    }
    Ok(())
}

/// All turns of a script. It may answer `NoMemory`.
pub fn all_turns(
    setting: &OneShard,
    core: &mut Core,
    hands: &mut [Hand],
    turns: &[u8],
) -> Result<(), NoMemory>
    requires { Fit setting.now core.old.state hands.old }
    ensures exact { OnOk result (run_of core.new.state hands.new ≡ after_turns setting.now.parts setting.now.plan turns.now (run_of core.old.state hands.old)) }
    ensures fit { OnOk result (Fit setting.now core.new.state hands.new) }
{
    for name in turns {
        turn(setting, core, hands, u32::from(*name))?;
    }
    Ok(())
}

// So many turns of one actor.
fn own_turns(
    setting: &OneShard,
    core: &mut Core,
    hands: &mut [Hand],
    name: u32,
    count: usize,
) -> Result<(), NoMemory>
    requires { Fit setting.now core.old.state hands.old }
    ensures exact { OnOk result (run_of core.new.state hands.new ≡ after_own setting.now.parts setting.now.plan name count (run_of core.old.state hands.old)) }
    ensures fit { OnOk result (Fit setting.now core.new.state hands.new) }
{
    'own: for _ in 0..count {
        turn(setting, core, hands, name)?;
    }
    Ok(())
}

// An actor runs to its end.
fn to_end(
    setting: &OneShard,
    core: &mut Core,
    hands: &mut [Hand],
    name: u32,
) -> Result<(), NoMemory>
    requires name { name < length hands.old }
    requires fit { Fit setting.now core.old.state hands.old }
    ensures exact { OnOk result (run_of core.new.state hands.new ≡ at_end setting.now.parts setting.now.plan name (run_of core.old.state hands.old)) }
    ensures fit { OnOk result (Fit setting.now core.new.state hands.new) }
{
    let left = hands[name as usize].left();
    own_turns(setting, core, hands, name, 3 * left)
}

/// All actors run to their ends, one after the other. It may answer `NoMemory`.
pub fn all_to_end(setting: &OneShard, core: &mut Core, hands: &mut [Hand]) -> Result<(), NoMemory>
    requires few { length hands.old ≤ 8 }
    requires fit { Fit setting.now core.old.state hands.old }
    ensures exact { OnOk result (run_of core.new.state hands.new ≡ all_at_end setting.now.parts setting.now.plan (length hands.old) (run_of core.old.state hands.old)) }
    ensures fit { OnOk result (Fit setting.now core.new.state hands.new) }
{
    for name in 0..hands.len() as u32 {
        to_end(setting, core, hands, name)?;
    }
    Ok(())
}
