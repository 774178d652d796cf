//! The end of a shard.
ghost use Rattle.std.specs.Prelude.{◌≡◌, ◌+◌, ◌≤◌, [], take, drop, vec_capacity, IfOk};
ghost use Rattle.std.specs.Mem.Slots.{slots_items, slots_len, IsFull};
ghost use Rattle.sx_shard.specs.Models.{IsOf};
ghost use Rattle.sx_shard.specs.Close.{Ends, HasEnded};

use crate::seat::ShardSeat;
use crate::shard::Shard;
use std::alloc::Global;
use sx_bytes::{ListOf, NoMemory};

/// A list of words.
pub type Words = ListOf<u64>;

/// The words of a shard at the end.
#[derive(Debug, Drop)]
pub struct Closed {
    /// The purse words.
    pub purses: Words,
    /// The bit words.
    pub bits: Words,
}

// The words from a place on, `count` of them, into a vector that has room for them.
fn copied(
    closed: &atomic_table::Closed<(), Global>,
    from: usize,
    count: usize,
    mut words: Vec<u64>,
) -> Vec<u64>
    requires full { IsFull closed.now.words }
    requires within { from + count ≤ slots_len closed.now.words }
    requires empty { words.items ≡ [] }
    requires room { count ≤ vec_capacity words }
    ensures { result.items ≡ take count (drop from (slots_items closed.now.words)) }
{
    for place in 0..count {
        words.push_reserved(closed.word(from + place));
    }
    words
}

impl Shard {
    /// Ends the shard, by the seat that has all candidates, `0..count`.
    ///
    /// It answers the words at the end. What was taken from them is what this seat has claimed. It may
    /// answer `NoMemory`, and then the words are gone too.
    pub fn close(self, seat: ShardSeat) -> Result<Closed, NoMemory>
        requires of { IsOf self seat }
        requires from { seat.view.from ≡ 0 }
        requires end { seat.view.end ≡ self.count }
        ensures { IfOk result (λ closed. Ends self seat.view closed.purses closed.bits) }
    {
        let purse_count = self.purses;
        let bit_count = self.table.word_count() - 1 - purse_count;
        let purses = Vec::with_capacity(self.alloc, purse_count)?;
        let bits = Vec::with_capacity(self.alloc, bit_count)?;
        let Shard { table, .. } = self;
        let ShardSeat { seat } = seat;
        let closed = table.close_with(seat);
        let purses = copied(&closed, 1, purse_count, purses);
        let bits = copied(&closed, 1 + purse_count, bit_count, bits);
        closed.free();
        Ok(Closed {
            purses: ListOf::of(purses),
            bits: ListOf::of(bits),
        })
    }

    /// Ends the shard as [`Shard::close`] does, and gives its words back to the allocator.
    ///
    /// It takes no memory, so it serves where the words at the end are wanted in proofs alone.
    pub fn finish(self, seat: ShardSeat)
        requires of { IsOf self seat }
        requires from { seat.view.from ≡ 0 }
        requires end { seat.view.end ≡ self.count }
        ensures { HasEnded self seat.view }
    {
        let Shard { table, .. } = self;
        let ShardSeat { seat } = seat;
        let closed = table.close_with(seat);
        closed.free();
    }
}
