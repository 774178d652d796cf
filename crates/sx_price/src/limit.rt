//! Limits, as numbers that keep their range.

ghost use Rattle.std.specs.Prelude.{◌≡◌, ◌<◌, ◌≤◌, ◌^◌, ◌↔◌, IsOk, IfOk};
ghost use Rattle.sx_price.specs.Limits.{IsLimit};

use std::marker::Model;
use thiserror::Error;

/// The least number of units that an offer buys per unit sold, in units of `2^-24`, from 1 to
/// `2^56 - 1`.
#[derive(Clone, Copy, Debug, PartialEq, Eq, PartialOrd, Ord, Hash)]
pub struct Limit {
    raw: u64,
}

/// The number is no limit: it is 0, or `2^56` or more.
#[derive(Clone, Copy, Debug, PartialEq, Eq, Error)]
#[error("a limit is at least 1 and below 2^56")]
pub struct LimitRange;

impl Model for Limit {
    ghost use Rattle.std.specs.Prelude.{ℕ};
    ghost use Rattle.sx_price.specs.Limits.{IsLimit};

    ghost Value = { ℕ };

    ghost view = { λ limit. limit.raw };

    ghost invariant = { λ limit. IsLimit limit.raw };

    ghost inverse = { λ n. record { raw = n } };
}

impl Limit {
    /// The least limit, in units of `2^-24`.
    pub const LEAST: u64 = 1;

    /// The greatest limit, in units of `2^-24`.
    pub const MOST: u64 = (1 << 56) - 1;

    /// The limit of `raw` units of `2^-24`. `LimitRange` comes exactly where that is 0, or `2^56` or
    /// more.
    pub fn new(raw: u64) -> Result<Self, LimitRange>
        ensures in_range { IsOk result ↔ IsLimit raw }
        ensures value { IfOk result (λ limit. limit ≡ raw) }
    {
        if Self::LEAST <= raw && raw <= Self::MOST {
            Ok(Limit { raw })
        } else {
            Err(LimitRange)
        }
    }

    /// The number of units of `2^-24`.
    pub fn get(&self) -> u64
        ensures value { result ≡ self.now }
        ensures positive { 1 ≤ result }
        ensures in_range { result < 2 ^ 56 }
    {
        self.raw
    }
}
