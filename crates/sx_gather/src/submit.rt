//! How a candidate is decided.

ghost use Rattle.std.specs.Prelude.{◌≡◌, ◌+◌, ◌<◌, ◌≤◌, [], ◌∷◌, ◌++◌, slice_get, OnOk, OnErr, IfErr, IfSome, Ok, Contains};
ghost use Rattle.sx_gather.specs.Passes.{AreSeats, IsGathering, IsPassOf};
ghost use Rattle.sx_gather.specs.Steps.{Claims, IsHeld, IsShortOf, Reserved, Takes};
ghost use Rattle.sx_gather.specs.Submit.{Decides};
ghost use Rattle.sx_layout.specs.Asked.{number_spot, wanted_of, IsBitSpot, IsPurseSpot, IsSomeUnits, IsWanted};
ghost use Rattle.sx_layout.specs.Deciding.{too_late as the_outcome};
ghost use Rattle.sx_ledger.specs.Static.{static_of};

use crate::gather::Gather;
use crate::pass::Pass;
use crate::seat::PassSeat;
use sx_layout::{Asked, Spot, Wanted};
use sx_outcome::Outcome;
use sx_shard::{Held, Overdraft};
use sx_tx::{Kind, Tx};

// The outcome of a candidate whose bit was set before.
fn too_late(of: &Kind) -> Outcome
    ensures { result ≡ the_outcome of.now }
{
    match of {
        Kind::Create { .. } => Outcome::NameTaken,
        Kind::Pay { .. } | Kind::Offer { .. } | Kind::Cancel { .. } => Outcome::OfferTaken,
    }
}

impl<'a> Gather<'a> {
    // Claims a bit of a shard's bit word.
    fn claim(&self, seats: &mut [PassSeat], at: Spot, bit: u32) -> Result<(), Held>
        requires gathering { IsGathering self.now }
        requires seats { AreSeats self.now.shards seats.old }
        requires there { IsBitSpot self.now.plan at bit }
        ensures seats { AreSeats self.now.shards seats.new }
        ensures ok { OnOk result (Claims seats.old seats.new at bit) }
        ensures err { OnErr result (IsHeld seats.old seats.new at bit) }
    {
        let k = at.shard as usize;
        let at_shard = &mut seats[k];
        self.shards[k].claim(&mut at_shard.seat, at.word, bit)
    }

    // Takes units, at least 1, out of a purse.
    fn reserve(&self, seats: &mut [PassSeat], purse: Spot, need: u64) -> Result<(), Overdraft>
        requires gathering { IsGathering self.now }
        requires seats { AreSeats self.now.shards seats.old }
        requires there { IsPurseSpot self.now.plan purse }
        requires some { 1 ≤ need }
        ensures seats { AreSeats self.now.shards seats.new }
        ensures ok { OnOk result (Reserved seats.old seats.new purse need) }
        ensures need { IfErr result (λ refusal. refusal.need ≡ need) }
        ensures err { IfErr result (λ refusal. IsShortOf seats.old seats.new purse refusal.seen need) }
    {
        let k = purse.shard as usize;
        let at_shard = &mut seats[k];
        self.shards[k].reserve(&mut at_shard.seat, purse.word, need)
    }

    // Decides a candidate of this kind once its number is claimed.
    fn take(&self, seats: &mut [PassSeat], of: &Kind, wanted: Wanted) -> Outcome
        requires gathering { IsGathering self.now }
        requires seats { AreSeats self.now.shards seats.old }
        requires there { IsWanted self.now.plan wanted }
        requires some { IsSomeUnits wanted }
        ensures seats { AreSeats self.now.shards seats.new }
        ensures takes { Takes seats.old seats.new of.now wanted result }
    {
        match wanted {
            Wanted::Bit { at, bit } => match self.claim(seats, at, bit) {
                Ok(()) => Outcome::Accepted,
                Err(Held) => too_late(of),
            },
            Wanted::Units { purse, need } => match self.reserve(seats, purse, need) {
                Ok(()) => Outcome::Accepted,
                Err(Overdraft { seen, need }) => Outcome::Overdraft { seen, need },
            },
        }
    }

    // Decides a candidate that passes the static test and asks for this.
    fn decide(&self, seats: &mut [PassSeat], tx: &Tx, asked: &Asked) -> Outcome
        requires gathering { IsGathering self.now }
        requires seats { AreSeats self.now.shards seats.old }
        requires passes { static_of self.now.parts tx.now ≡ Ok tt }
        requires number { (asked.now.number, asked.now.bit) ≡ number_spot self.now.parts self.now.plan tx.now }
        requires wanted { asked.now.wanted ≡ wanted_of self.now.parts self.now.plan tx.now }
        requires number_there { IsBitSpot self.now.plan asked.now.number asked.now.bit }
        requires wanted_there { IsWanted self.now.plan asked.now.wanted }
        requires some { IsSomeUnits asked.now.wanted }
        ensures seats { AreSeats self.now.shards seats.new }
        ensures decides { Decides self.now.parts self.now.plan seats.old seats.new record { tx = tx.now; outcome = result } }
    {
        match self.claim(seats, asked.number, asked.bit) {
            Ok(()) => self.take(seats, &tx.kind, asked.wanted),
            Err(Held) => Outcome::SeqTaken,
        }
    }

    // Decides a candidate. It answers where the account stands too.
    fn judge(&self, seats: &mut [PassSeat], near: u32, tx: &Tx) -> (Outcome, u32)
        requires gathering { IsGathering self.now }
        requires seats { AreSeats self.now.shards seats.old }
        requires own { Contains self.now.candidates tx.now }
        ensures seats { AreSeats self.now.shards seats.new }
        ensures decides { Decides self.now.parts self.now.plan seats.old seats.new record { tx = tx.now; outcome = result.0 } }
    {
        match self.setting.places_of(near, tx) {
            Ok(places) => {
                let asked = self.setting.asked(tx, &places);
                (self.decide(seats, tx, &asked), places.account)
            }
            Err(why) => (Outcome::Static(why), near),
        }
    }

    /// Decides the next candidate of a pass, and appends its outcome. It takes no memory and waits for
    /// nobody.
    ///
    /// `Static` comes exactly where the ledger refuses the candidate. `SeqTaken` comes only where this
    /// call found the bit of the candidate's sequence number set, and `OfferTaken` and `NameTaken` only
    /// where it found that of the offer or of the id set. `Overdraft` comes only where it found `seen`
    /// units in the purse, less than the `need`.
    pub fn submit(&self, pass: &mut Pass) -> Outcome
        requires of { IsPassOf self.now pass.old }
        requires left { pass.old.next < pass.old.end }
        requires room { 1 ≤ pass.old.spare }
        ensures of { IsPassOf self.now pass.new }
        ensures range { (pass.new.from ≡ pass.old.from) × (pass.new.end ≡ pass.old.end) }
        ensures next { pass.new.next ≡ pass.old.next + 1 }
        ensures spare { pass.new.spare + 1 ≡ pass.old.spare }
        ensures outcomes { pass.new.outcomes ≡ pass.old.outcomes ++ result ∷ [] }
        ensures decides { IfSome (slice_get self.now.candidates pass.old.next) (λ tx. Decides self.now.parts self.now.plan pass.old.seats pass.new.seats record { tx = tx; outcome = result }) }
    {
        let tx = &self.setting.candidates()[pass.next as usize];
        let (outcome, near) = self.judge(&mut pass.seats, pass.near, tx);
        pass.near = near;
        pass.outcomes.push(outcome);
        pass.next += 1;
        outcome
    }
}
