//! How a pass is split in two, and how two are joined.

ghost use Rattle.std.specs.Prelude.{◌≡◌, ◌≢◌, ℕ, ◌+◌, ◌<◌, ◌≤◌, [], ◌++◌, length, vec_capacity, slice_get, Some, IfOk, OnOk, OnErr};
ghost use Rattle.sx_event.specs.Step.{joined, left_part, right_part};
ghost use Rattle.sx_gather.specs.Passes.{AreSeats, IsPassOf, view_at};
ghost use Rattle.sx_gather.specs.Split.{AreJoined, DoMeet, IsInside, SplitLeft, SplitRight};
ghost use Rattle.sx_shard.specs.Models.{IsOf, Shown};

use crate::gather::Gather;
use crate::pass::Pass;
use crate::seat::PassSeat;
use sx_bytes::NoMemory;
use sx_outcome::OutcomeLog;

impl<'a> Gather<'a> {
    // Splits the seat at a shard.
    fn split_seat(&self, seats: &mut [PassSeat], k: usize, at: u32) -> PassSeat
        requires seats { AreSeats self.now.shards seats.old }
        requires there { k < length seats.old }
        requires from { (view_at seats.old k).from < at }
        requires end { at < (view_at seats.old k).end }
        ensures seats { AreSeats self.now.shards seats.new }
        ensures left { view_at seats.new k ≡ left_part (view_at seats.old k) at }
        ensures others { (other : ℕ) → other ≢ k → view_at seats.new other ≡ view_at seats.old other }
        ensures of { (shard : Shown) → slice_get self.now.shards k ≡ Some shard → IsOf shard result }
        ensures right { result.view ≡ right_part (view_at seats.old k) at }
    {
        let at_shard = &mut seats[k];
        let shard = at_shard.shard;
        PassSeat::of(shard, self.shards[k].split(&mut at_shard.seat, at))
    }

    // Joins another seat to the one at its shard.
    fn join_seat(&self, seats: &mut [PassSeat], k: usize, other: PassSeat)
        requires seats { AreSeats self.now.shards seats.old }
        requires there { k < length seats.old }
        requires of { (shard : Shown) → slice_get self.now.shards k ≡ Some shard → IsOf shard other }
        requires meets { other.view.from ≡ (view_at seats.old k).end }
        ensures seats { AreSeats self.now.shards seats.new }
        ensures joined { view_at seats.new k ≡ joined (view_at seats.old k) other.view }
        ensures others { (other : ℕ) → other ≢ k → view_at seats.new other ≡ view_at seats.old other }
    {
        let at_shard = &mut seats[k];
        self.shards[k].join(&mut at_shard.seat, other.into_seat());
    }

    // Splits each of the seats, and puts the new ones into a list that has room for them.
    fn split_seats(
        &self,
        seats: &mut [PassSeat],
        at: u32,
        mut new_seats: Vec<PassSeat>,
    ) -> Vec<PassSeat>
        requires seats { AreSeats self.now.shards seats.old }
        requires inside { IsInside (length self.now.shards) seats.old at }
        requires empty { new_seats.items ≡ [] }
        requires room { length seats.old ≤ vec_capacity new_seats }
        ensures seats { AreSeats self.now.shards seats.new }
        ensures new_seats { AreSeats self.now.shards result.items }
        ensures left { SplitLeft (length self.now.shards) at seats.old seats.new }
        ensures right { SplitRight (length self.now.shards) at seats.old result.items }
    {
        for k in 0..seats.len() {
            let seat = self.split_seat(seats, k, at);
            new_seats.push_reserved(seat);
        }
        new_seats
    }

    // Joins each of the other seats to the one at its shard.
    fn join_seats(&self, seats: &mut [PassSeat], mut others: Vec<PassSeat>)
        requires seats { AreSeats self.now.shards seats.old }
        requires others { AreSeats self.now.shards others.items }
        requires meet { DoMeet (length self.now.shards) seats.old others.items }
        ensures seats { AreSeats self.now.shards seats.new }
        ensures joined { AreJoined seats.old others.items seats.new }
    {
        while let Some(other) = others.pop() {
            let k = others.len();
            self.join_seat(seats, k, other);
        }
    }

    /// Hands the candidates from `at` on, which is inside the range of a pass, to a new pass with memory
    /// for their outcomes. None of them is decided yet.
    ///
    /// It may answer `NoMemory`, and then the pass is as it was.
    pub fn split(&self, pass: &mut Pass, at: u32) -> Result<Pass, NoMemory>
        requires of { IsPassOf self.now pass.old }
        requires from { pass.old.from < at }
        requires next { pass.old.next ≤ at }
        requires end { at < pass.old.end }
        ensures of { IsPassOf self.now pass.new }
        ensures range { (pass.new.from ≡ pass.old.from) × (pass.new.next ≡ pass.old.next) }
        ensures end { OnOk result (pass.new.end ≡ at) }
        ensures outcomes { pass.new.outcomes ≡ pass.old.outcomes }
        ensures spare { pass.new.spare ≡ pass.old.spare }
        ensures new_of { IfOk result (IsPassOf self.now) }
        ensures new_range { IfOk result (λ new. (new.from ≡ at) × (new.next ≡ at) × (new.end ≡ pass.old.end)) }
        ensures new_outcomes { IfOk result (λ new. new.outcomes ≡ []) }
        ensures new_spare { IfOk result (λ new. at + new.spare ≡ pass.old.end) }
        ensures refused { OnErr result (pass.new ≡ pass.old) }
    {
        let seats = Vec::with_capacity(self.alloc, pass.seats.len())?;
        let outcomes = OutcomeLog::with_capacity(self.alloc, (pass.end - at) as usize)?;
        let seats = self.split_seats(&mut pass.seats, at, seats);
        let new = Pass {
            from: at,
            next: at,
            end: pass.end,
            near: pass.near,
            seats,
            outcomes,
        };
        pass.end = at;
        Ok(new)
    }

    /// Takes in the pass whose range begins where that of this one ends. All candidates of this one are
    /// decided, and it has memory for the outcomes of the other.
    ///
    /// It takes no memory and waits for nobody.
    pub fn join(&self, pass: &mut Pass, other: Pass)
        requires of { IsPassOf self.now pass.old }
        requires other_of { IsPassOf self.now other }
        requires done { pass.old.next ≡ pass.old.end }
        requires meets { other.from ≡ pass.old.end }
        requires room { length other.outcomes ≤ pass.old.spare }
        ensures of { IsPassOf self.now pass.new }
        ensures range { (pass.new.from ≡ pass.old.from) × (pass.new.next ≡ other.next) × (pass.new.end ≡ other.end) }
        ensures outcomes { pass.new.outcomes ≡ pass.old.outcomes ++ other.outcomes }
        ensures spare { pass.new.spare + length other.outcomes ≡ pass.old.spare }
    {
        let Pass {
            next,
            end,
            near,
            seats,
            outcomes,
            ..
        } = other;
        self.join_seats(&mut pass.seats, seats);
        pass.outcomes.append(&outcomes);
        pass.next = next;
        pass.end = end;
        pass.near = near;
    }
}
