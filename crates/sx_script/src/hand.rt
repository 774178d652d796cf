//! An actor of a script.

ghost use Rattle.std.specs.Prelude.{◌≡◌, ◌^◌, ◌<◌, [], length, IfOk, OnOk, MatchOption, Ok};
ghost use Rattle.std.specs.List.{All, Contains};
ghost use Rattle.sx_script.specs.Actors.{beginning};
ghost use Rattle.sx_script.specs.Ahead.{FirstPasses, IsAhead, IsAheadBy, IsNext};
ghost use Rattle.sx_script.specs.Running.{moved, passed, ready};
ghost use Rattle.sx_ledger.specs.Places.{ArePlaces};
ghost use Rattle.sx_ledger.specs.Static.{static_of};

use crate::one_shard::OneShard;
use std::alloc::Global;
use std::marker::Model;
use sx_bytes::NoMemory;
use sx_event::Event;
use sx_layout::{Ahead, Next, Stage};
use sx_ledger::Places;
use sx_outcome::Outcome;
use sx_tx::Tx;

/// An actor of a script: the candidates that it has left, what it does next for the first of them, and
/// the outcomes of those before. Contracts see an `Actor`.
#[derive(Drop)]
pub struct Hand<'a> {
    left: &'a [Tx],
    stage: Stage,
    done: Vec<Outcome>,
    // Where the last account stood.
    near: u32,
}

impl<'a> Model for Hand<'a> {
    ghost use Rattle.sx_script.specs.Actors.{Actor};

    ghost Value = { Actor };

    ghost view = { λ h. record { left = h.left.now; stage = h.stage; done = h.done.items } };
}

// Passes over the first candidates that the ledger refuses. It answers those that are left, and where
// the first of them has its places.
fn pass_over<'a>(
    setting: &OneShard,
    near: u32,
    left: &'a [Tx],
    done: &mut Vec<Outcome>,
) -> Result<(&'a [Tx], Option<Places>), NoMemory>
    ensures actor { IfOk result (λ found. passed setting.now.parts left.now done.old.items ≡ beginning found.0.now done.new.items) }
    ensures places { IfOk result (λ found. MatchOption found.1 (found.0.now ≡ []) (FirstPasses setting.now.parts found.0.now)) }
    ensures own { IfOk result (λ found. All (Contains setting.now.candidates) left.now → All (Contains setting.now.candidates) found.0.now) }
{
    for at in 0..left.len() {
        match setting.setting.places_of(near, &left[at]) {
            Ok(places) => return Ok((&left[at..], Some(places))),
            Err(why) => done.push(Outcome::Static(why))?,
        }
    }
    Ok((&left[left.len()..], None))
}

// What comes for the first of these candidates, which passes the static test and of which these are the
// places, from its number on.
fn first_ahead(setting: &OneShard, left: &[Tx], places: &Places) -> Option<Ahead>
    requires own { All (Contains setting.now.candidates) left.now }
    requires passes { FirstPasses setting.now.parts left.now places.now }
    ensures { MatchOption result (left.now ≡ []) (IsNext setting.now Stage.Number left.now) }
{
    let tx = left.first()?;
    Some(setting.ahead(tx, places))
}

impl<'a> Hand<'a> {
    /// An actor before the first turn, with these candidates. It may answer `NoMemory`.
    pub fn new(alloc: Global, left: &'a [Tx]) -> Result<Hand<'a>, NoMemory>
        ensures { IfOk result (λ hand. hand ≡ beginning left.now []) }
    {
        Ok(Hand {
            left,
            stage: Stage::Number,
            done: Vec::with_capacity(alloc, left.len())?,
            near: 0,
        })
    }

    /// How many candidates are left.
    pub fn left(&self) -> usize
        ensures count { result ≡ length self.now.left }
        ensures few { result < 2 ^ 58 }
    {
        self.left.len()
    }

    /// What comes next for the first candidate that is left.
    pub fn stage(&self) -> Stage
        ensures { result ≡ self.now.stage }
    {
        self.stage
    }

    /// The outcomes so far.
    pub fn done(&self) -> &[Outcome]
        ensures { result.now ≡ self.now.done }
    {
        &self.done
    }

    // The event at a stage after the first, for the first candidate that is left.
    fn ahead_by(&self, event: Event) -> Option<Ahead>
        ensures { MatchOption result (self.now.left ≡ []) (IsAheadBy event self.now.left) }
    {
        let tx = self.left.first()?;
        Some(Ahead {
            of: tx.kind,
            event,
            second: self.stage,
        })
    }

    // The same at a candidate's number, once the actor has passed over what the ledger refuses.
    fn ahead_at_number(&mut self, setting: &OneShard) -> Result<Option<Ahead>, NoMemory>
        requires stage { self.old.stage ≡ Stage.Number }
        requires own { All (Contains setting.now.candidates) self.old.left }
        ensures actor { OnOk result (self.new ≡ ready setting.now.parts self.old) }
        ensures ahead { IfOk result (λ found. MatchOption found (self.new.left ≡ []) (IsNext setting.now self.new.stage self.new.left)) }
        ensures own { OnOk result (All (Contains setting.now.candidates) self.new.left) }
    {
        let (left, places) = pass_over(setting, self.near, self.left, &mut self.done)?;
        self.left = left;
        match places {
            None => Ok(None),
            Some(places) => {
                self.near = places.account;
                Ok(first_ahead(setting, left, &places))
            }
        }
    }

    /// Makes the actor ready for its turn, and answers what it is about to do, or `None` if no candidate is
    /// left. It may answer `NoMemory`.
    pub fn ahead(&mut self, setting: &OneShard) -> Result<Option<Ahead>, NoMemory>
        requires { All (Contains setting.now.candidates) self.old.left }
        ensures actor { OnOk result (self.new ≡ ready setting.now.parts self.old) }
        ensures ahead { IfOk result (λ found. MatchOption found (self.new.left ≡ []) (IsNext setting.now self.new.stage self.new.left)) }
        ensures own { OnOk result (All (Contains setting.now.candidates) self.new.left) }
    {
        match self.stage {
            Stage::Number => self.ahead_at_number(setting),
            Stage::Name { word, bit } => Ok(self.ahead_by(Event::Claim { word, bit })),
            Stage::Look { purse, .. } => Ok(self.ahead_by(Event::Look { purse })),
            Stage::Take { purse, need } => Ok(self.ahead_by(Event::Take { purse, need })),
        }
    }

    /// Goes on as follows from the event. It may answer `NoMemory`.
    pub fn follow(&mut self, next: Next) -> Result<(), NoMemory>
        requires { 0 < length self.old.left }
        ensures { OnOk result (self.new ≡ moved self.old next) }
    {
        match next {
            Next::On(stage) => self.stage = stage,
            Next::Decided(outcome) => {
                self.done.push(outcome)?;
                self.left = &self.left[1..];
                self.stage = Stage::Number;
            }
        }
        Ok(())
    }
}
