//! The seat of a pass at one shard.

ghost use Rattle.std.specs.Prelude.{◌≡◌};

use std::marker::Model;
use sx_shard::ShardSeat;

// A seat, and the number of its shard. A seat alone has no bytes, so a list of such seats would have no
// places that could be borrowed one by one. Contracts see the seat.
#[derive(Drop)]
pub struct PassSeat {
    pub shard: u32,
    pub seat: ShardSeat,
}

impl Model for PassSeat {
    ghost use Rattle.sx_shard.specs.Models.{Seated};

    ghost Value = { Seated };

    ghost view = { λ s. s.seat };
}

impl PassSeat {
    pub fn of(shard: u32, seat: ShardSeat) -> PassSeat
        ensures { result ≡ seat }
    {
        PassSeat { shard, seat }
    }

    pub fn into_seat(self) -> ShardSeat
        ensures { result ≡ self }
    {
        self.seat
    }
}
