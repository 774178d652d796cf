//! A shard: its table, and how it starts.
ghost use Rattle.std.specs.Prelude.{◌≡◌, IfOk};
ghost use Rattle.sx_event.specs.View.{opened};
ghost use Rattle.sx_shard.specs.Models.{IsOf};

use crate::known::{Known, Opening};
use crate::rule::Gathers;
use crate::seat::ShardSeat;
use atomic_table::Table;
use std::alloc::Global;
use std::marker::Model;
use std::snapshot::Snapshot;
use sx_bytes::NoMemory;

/// The words of one shard. Threads share it by reference, each with a seat of its own.
#[derive(Drop)]
pub struct Shard {
    pub(crate) table: Table<(), Known, Opening, Gathers, Global>,
    pub(crate) purses: usize,
    pub(crate) alloc: Global,
}

impl Model for Shard {
    ghost use Rattle.std.specs.Prelude.{◌≡◌, ℕ, ◌+◌, length};
    ghost use Rattle.sx_shard.specs.Models.{Shown};
    ghost use Rattle.sx_shard.specs.Table.{opening_purses, opening_bits};

    ghost Value = { Shown };

    ghost view = { λ s. record { id = s.table.shared.table_id; purses = opening_purses s.table.shared.key; bits = opening_bits s.table.shared.key; count = s.table.shared.key.count } };

    ghost invariant = { λ s. (s.purses ≡ s.table.shared.key.purses) × (s.purses ≡ length (opening_purses s.table.shared.key)) × (s.table.shared.table_id.words ≡ 1 + length (opening_purses s.table.shared.key) + length (opening_bits s.table.shared.key)) × (s.table.shared.table_id.slots ≡ 0) };
}

impl Shard {
    /// A shard with these words, and its first seat, which has the candidates `0..count`.
    ///
    /// It may answer `NoMemory`.
    pub fn start(
        alloc: Global,
        purses: &[u64],
        bits: &[u64],
        count: u32,
    ) -> Result<(Shard, ShardSeat), NoMemory>
        ensures purses { IfOk result (λ made. made.0.purses ≡ purses.now) }
        ensures bits { IfOk result (λ made. made.0.bits ≡ bits.now) }
        ensures count { IfOk result (λ made. made.0.count ≡ count) }
        ensures seat { IfOk result (λ made. IsOf made.0 made.1) }
        ensures view { IfOk result (λ made. made.1.view ≡ opened 0 count) }
    {
        let mut words = Vec::with_capacity(alloc, 1)?;
        words.push(0)?;
        words.extend_from_slice(purses)?;
        words.extend_from_slice(bits)?;
        let opening = Opening {
            words: Snapshot::of(&words),
            purses: purses.len(),
            count,
        };
        let (table, seat) = Table::of_words(alloc, words.as_slice(), &opening)?;
        let shard = Shard {
            table,
            purses: purses.len(),
            alloc,
        };
        Ok((shard, ShardSeat { seat }))
    }
}
