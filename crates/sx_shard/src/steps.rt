//! The five kinds of step, and the calls that make them.
ghost use Rattle.std.specs.Prelude.{◌≡◌, ◌<◌, ◌≤◌, length, Some, OnOk, OnErr, IfErr};
ghost use Rattle.sx_event.specs.declared.event.Event.TheVariants.{Look, Take, Claim, Split};
ghost use Rattle.sx_event.specs.declared.marks.Claim.TheVariants.{Bit};
ghost use Rattle.sx_event.specs.declared.marks.Note.TheVariants.{Set};
ghost use Rattle.sx_event.specs.View.{with_claim, with_note, last_low};
ghost use Rattle.sx_event.specs.Step.{left_part, right_part, joined};
ghost use Rattle.sx_shard.specs.Models.{IsOf};
ghost use Rattle.sx_shard.specs.Plays.{view_after, IsFresh};
ghost use Rattle.sx_shard.specs.Reserve.{Reserves, Refuses};

use crate::refusal::{Held, Overdraft};
use crate::rule::{Cuts, Does, Joins, Names};
use crate::seat::ShardSeat;
use crate::shard::Shard;
use std::marker::Brand;

impl Shard {
    // Look: a load of a purse.
    fn look_as<E: Names>(&self, seat: &mut ShardSeat, purse: u32) -> u64
        requires event { E.event ≡ Look purse }
        requires of { IsOf self.now seat.old }
        requires purse { purse < length self.now.purses }
        ensures of { IsOf self.now seat.new }
        ensures view { seat.new.view ≡ view_after (Look purse) seat.old.view result }
        ensures fresh { IsFresh self.now.purses seat.old.view purse result }
    {
        let word = 1 + purse as usize;
        self.table.shared.load::<Does<E>>(&mut seat.seat, word)
    }

    // Take: a compare-exchange of a purse, from what the seat saw last to that less the need.
    fn take_as<E: Names>(&self, seat: &mut ShardSeat, purse: u32, need: u64, seen: u64) -> u64
        requires event { E.event ≡ Take purse need }
        requires of { IsOf self.now seat.old }
        requires purse { purse < length self.now.purses }
        requires need { (1 ≤ need) × (need ≤ seen) }
        requires seen { last_low purse seat.old.view.notes ≡ Some seen }
        ensures of { IsOf self.now seat.new }
        ensures view { seat.new.view ≡ view_after (Take purse need) seat.old.view result }
        ensures fresh { IsFresh self.now.purses seat.old.view purse result }
    {
        let word = 1 + purse as usize;
        let left = seen - need;
        self.table
            .shared
            .compare_exchange::<Does<E>>(&mut seat.seat, word, seen, left)
    }

    // Claim: a fetch-or of one bit.
    fn claim_as<E: Names>(&self, seat: &mut ShardSeat, word: u32, bit: u32) -> u64
        requires event { E.event ≡ Claim word bit }
        requires of { IsOf self.now seat.old }
        requires word { word < length self.now.bits }
        requires bit { bit < 64 }
        ensures of { IsOf self.now seat.new }
        ensures view { seat.new.view ≡ view_after (Claim word bit) seat.old.view result }
    {
        let at = 1 + self.purses + word as usize;
        let mask = 1 << bit;
        self.table
            .shared
            .fetch_or::<Does<E>>(&mut seat.seat, at, mask)
    }

    // Split: a step on word 0, which stays 0.
    fn split_as<E: Names>(&self, seat: &mut ShardSeat, at: u32) -> ShardSeat
        requires event { E.event ≡ Split at }
        requires of { IsOf self.now seat.old }
        requires from { seat.old.view.from < at }
        requires end { at < seat.old.view.end }
        ensures of { IsOf self.now seat.new }
        ensures new_of { IsOf self.now result }
        ensures left { seat.new.view ≡ left_part seat.old.view at }
        ensures right { result.view ≡ right_part seat.old.view at }
    {
        ShardSeat {
            seat: self.table.shared.split_seat::<Cuts<E>>(&mut seat.seat),
        }
    }

    /// Takes `need` units, at least 1, out of a purse, or answers [`Overdraft`] if the purse has
    /// less.
    ///
    /// It takes no memory and waits for nobody: a take that is lost finds less than before.
    pub fn reserve(&self, seat: &mut ShardSeat, purse: u32, need: u64) -> Result<(), Overdraft>
        requires of { IsOf self.now seat.old }
        requires purse { purse < length self.now.purses }
        requires need { 1 ≤ need }
        ensures of { IsOf self.now seat.new }
        ensures range { (seat.new.view.from ≡ seat.old.view.from) × (seat.new.view.end ≡ seat.old.view.end) }
        ensures ok { OnOk result (Reserves seat.old.view purse need seat.new.view) }
        ensures need { IfErr result (λ refusal. refusal.need ≡ need) }
        ensures err { IfErr result (λ refusal. Refuses seat.old.view purse need refusal.seen seat.new.view) }
        ensures fresh { IfErr result (λ refusal. IsFresh self.now.purses seat.old.view purse refusal.seen) }
    {
        let mut seen = self.look_as::<Brand>(seat, purse);
        while seen >= need {
            let found = self.take_as::<Brand>(seat, purse, need, seen);
            if found == seen {
                return Ok(());
            }
            seen = found;
        }
        Err(Overdraft { seen, need })
    }

    /// Claims a bit of a bit word, below 64, or answers [`Held`] if it was set before.
    ///
    /// It takes no memory and waits for nobody.
    pub fn claim(&self, seat: &mut ShardSeat, word: u32, bit: u32) -> Result<(), Held>
        requires of { IsOf self.now seat.old }
        requires word { word < length self.now.bits }
        requires bit { bit < 64 }
        ensures of { IsOf self.now seat.new }
        ensures ok { OnOk result (seat.new.view ≡ with_claim seat.old.view (Bit word bit)) }
        ensures err { OnErr result (seat.new.view ≡ with_note seat.old.view (Set word bit)) }
    {
        let found = self.claim_as::<Brand>(seat, word, bit);
        if found >> bit & 1 == 1 {
            return Err(Held);
        }
        Ok(())
    }

    /// Hands the candidates from `at` on, which is inside the seat's range, to a new seat.
    ///
    /// It takes no memory and waits for nobody. Claims and notes stay.
    pub fn split(&self, seat: &mut ShardSeat, at: u32) -> ShardSeat
        requires of { IsOf self.now seat.old }
        requires from { seat.old.view.from < at }
        requires end { at < seat.old.view.end }
        ensures of { IsOf self.now seat.new }
        ensures new_of { IsOf self.now result }
        ensures left { seat.new.view ≡ left_part seat.old.view at }
        ensures right { result.view ≡ right_part seat.old.view at }
    {
        self.split_as::<Brand>(seat, at)
    }

    /// Takes in the seat whose range begins where this one's ends, with its claims and notes.
    ///
    /// It takes no memory and waits for nobody.
    pub fn join(&self, seat: &mut ShardSeat, other: ShardSeat)
        requires of { IsOf self.now seat.old }
        requires other_of { IsOf self.now other }
        requires meets { other.view.from ≡ seat.old.view.end }
        ensures of { IsOf self.now seat.new }
        ensures view { seat.new.view ≡ joined seat.old.view other.view }
    {
        let ShardSeat { seat: other } = other;
        self.table.shared.join_seat::<Joins>(&mut seat.seat, other);
    }
}
