//! The seat of one thread at a shard.
use crate::known::Known;
use atomic_table::Seat;
use std::marker::Model;

/// A seat at a shard, with a view of the core: a range of candidates, claims and notes.
///
/// It has no bytes, since its view stands in proofs alone. A thread moves it to another by value.
#[derive(Drop)]
pub struct ShardSeat {
    pub(crate) seat: Seat<(), Known>,
}

impl Model for ShardSeat {
    ghost use Rattle.std.specs.Prelude.{◌≡◌, true, []};
    ghost use Rattle.sx_shard.specs.Models.{Seated};
    ghost use Rattle.sx_shard.specs.Known.{view_in};

    ghost Value = { Seated };

    ghost view = { λ s. record { id = s.seat.table_id; view = view_in s.seat.me.0; opening = s.seat.me.0.opening } };

    ghost invariant = { λ s. (s.seat.me.0.live ≡ true) × (s.seat.me.1 ≡ []) };
}
