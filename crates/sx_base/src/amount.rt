//! Amounts of an asset.

ghost use Rattle.std.specs.Prelude.{◌≡◌, ◌≤◌, ◌↔◌, IsOk, IfOk};
ghost use Rattle.sx_base.specs.Ranges.{most_amount};

use std::marker::Model;
use thiserror::Error;

/// How much of an asset, in its whole units, from 1 to `2^62`.
#[derive(Clone, Copy, Debug, PartialEq, Eq, PartialOrd, Ord, Hash)]
pub struct Amount {
    units: u64,
}

/// So many units are no amount: there are none, or more than `2^62`.
#[derive(Clone, Copy, Debug, PartialEq, Eq, Error)]
#[error("an amount is at least 1 and at most 2^62")]
pub struct AmountRange;

impl Model for Amount {
    ghost use Rattle.std.specs.Prelude.{ℕ, ◌≤◌};
    ghost use Rattle.sx_base.specs.Ranges.{most_amount};

    ghost Value = { ℕ };

    ghost view = { λ amount. amount.units };

    ghost invariant = { λ amount. (1 ≤ amount.units) × (amount.units ≤ most_amount) };

    ghost inverse = { λ n. record { units = n } };
}

impl Amount {
    /// The least amount, in units.
    pub const LEAST: u64 = 1;

    /// The greatest amount, in units.
    pub const MOST: u64 = 1 << 62;

    /// The amount of `raw` units. `AmountRange` comes exactly where that is 0, or above `2^62`.
    pub fn new(raw: u64) -> Result<Self, AmountRange>
        ensures in_range { IsOk result ↔ ((1 ≤ raw) × (raw ≤ most_amount)) }
        ensures value { IfOk result (λ amount. amount ≡ raw) }
    {
        if Self::LEAST <= raw && raw <= Self::MOST {
            Ok(Amount { units: raw })
        } else {
            Err(AmountRange)
        }
    }

    /// How many units.
    pub fn get(&self) -> u64
        ensures value { result ≡ self.now }
        ensures positive { 1 ≤ result }
        ensures in_range { result ≤ most_amount }
    {
        self.units
    }
}
