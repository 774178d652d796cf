//! Sequence numbers.

ghost use Rattle.std.specs.Prelude.{◌≡◌, ◌≤◌, ◌↔◌, IsOk, IfOk};
ghost use Rattle.sx_base.specs.Ranges.{most_seq};

use std::marker::Model;
use thiserror::Error;

/// The sequence number of an account's transaction, from 1 to `2^63 - 1`.
#[derive(Clone, Copy, Debug, PartialEq, Eq, PartialOrd, Ord, Hash)]
pub struct Seq {
    number: u64,
}

/// No sequence number: it is 0, or `2^63` or more.
#[derive(Clone, Copy, Debug, PartialEq, Eq, Error)]
#[error("a sequence number is at least 1 and below 2^63")]
pub struct SeqRange;

impl Model for Seq {
    ghost use Rattle.std.specs.Prelude.{ℕ, ◌≤◌};
    ghost use Rattle.sx_base.specs.Ranges.{most_seq};

    ghost Value = { ℕ };

    ghost view = { λ seq. seq.number };

    ghost invariant = { λ seq. (1 ≤ seq.number) × (seq.number ≤ most_seq) };

    ghost inverse = { λ n. record { number = n } };
}

impl Seq {
    /// The first sequence number.
    pub const FIRST: u64 = 1;

    /// The last sequence number.
    pub const LAST: u64 = (1 << 63) - 1;

    /// The sequence number `raw`. `SeqRange` comes exactly where it is 0, or `2^63` or more.
    pub fn new(raw: u64) -> Result<Self, SeqRange>
        ensures in_range { IsOk result ↔ ((1 ≤ raw) × (raw ≤ most_seq)) }
        ensures value { IfOk result (λ seq. seq ≡ raw) }
    {
        if Self::FIRST <= raw && raw <= Self::LAST {
            Ok(Seq { number: raw })
        } else {
            Err(SeqRange)
        }
    }

    /// The sequence number as an integer.
    pub fn get(&self) -> u64
        ensures value { result ≡ self.now }
        ensures positive { 1 ≤ result }
        ensures in_range { result ≤ most_seq }
    {
        self.number
    }
}
