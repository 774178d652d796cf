//! A setting of one shard, in which a script runs.

ghost use Rattle.std.specs.Prelude.{◌≡◌, ◌≤◌, length, Contains, IfOk, Ok};
ghost use Rattle.sx_event.specs.State.{begun};
ghost use Rattle.sx_script.specs.Ahead.{IsAhead};
ghost use Rattle.sx_layout.specs.Deciding.{stage_of as the_stage};
ghost use Rattle.sx_layout.specs.Plan.{plan_of, words_of};
ghost use Rattle.sx_layout.specs.PlanLaws.{IsLaidOut};
ghost use Rattle.sx_ledger.specs.Places.{ArePlaces};
ghost use Rattle.sx_ledger.specs.Static.{static_of};
ghost use Rattle.sx_tx.specs.Transactions.{most_transactions};

use std::alloc::Global;
use std::marker::Model;
use sx_bytes::NoMemory;
use sx_event::{Core, Event};
use sx_layout::{Ahead, Setting, Stage, Wanted};
use sx_ledger::{Ledger, Places};
use sx_tx::Tx;

/// The setting of candidates, with all words in one shard.
#[derive(Drop)]
pub struct OneShard<'a> {
    pub setting: Setting<'a>,
}

impl<'a> Model for OneShard<'a> {
    ghost use Rattle.sx_layout.specs.Setting.{Setting};
    ghost use Rattle.sx_script.specs.RunKeeps.{IsOneShard};

    ghost Value = { Setting };

    ghost view = { λ s. s.setting };

    ghost invariant = { λ s. IsOneShard s.setting };
}

// What an actor does for what its candidate wants.
fn stage_of(wanted: Wanted) -> Stage
    ensures { result ≡ the_stage wanted }
{
    match wanted {
        Wanted::Bit { at, bit } => Stage::Name { word: at.word, bit },
        Wanted::Units { purse, need } => Stage::Look {
            purse: purse.word,
            need,
        },
    }
}

impl<'a> OneShard<'a> {
    /// The setting of these candidates of a ledger, at most 1,000,000. It may answer `NoMemory`.
    pub fn new(
        alloc: Global,
        ledger: &'a Ledger,
        candidates: &'a [Tx],
    ) -> Result<OneShard<'a>, NoMemory>
        requires { length candidates.now ≤ most_transactions }
        ensures setting { IfOk result (λ setting. setting ≡ record {
          parts = ledger.now;
          candidates = candidates.now;
          plan = plan_of ledger.now candidates.now 1;
        }) }
        ensures laid_out { IfOk result (λ setting. IsLaidOut ledger.now candidates.now 1) }
    {
        let setting = Setting::new(alloc, ledger, candidates, 1)?;
        Ok(OneShard { setting })
    }

    /// What comes for a candidate that passes the static test, from its number on.
    pub fn ahead(&self, tx: &Tx, places: &Places) -> Ahead
        requires own { Contains self.now.candidates tx.now }
        requires passes { static_of self.now.parts tx.now ≡ Ok tt }
        requires places { ArePlaces self.now.parts tx.now places.now }
        ensures { IsAhead self.now Stage.Number tx.now result }
    {
        let asked = self.setting.asked(tx, places);
        Ahead {
            of: tx.kind,
            event: Event::Claim {
                word: asked.number.word,
                bit: asked.bit,
            },
            second: stage_of(asked.wanted),
        }
    }

    /// The core before the first step, with one view, which has all of so many candidates, and memory for
    /// a step for each of them. It may answer `NoMemory`.
    pub fn start(&self, alloc: Global, count: u32) -> Result<Core, NoMemory>
        ensures { IfOk result (λ core. core.state ≡ begun (words_of self.now.plan.purses 0) (words_of self.now.plan.bits 0) count) }
    {
        let purses = self.setting.opening_purses(0);
        Core::start(alloc, purses, self.setting.opening_bits(0), count, count)
    }
}
