//! Prices, as numbers that keep their range.

ghost use Rattle.std.specs.Prelude.{◌≡◌, ◌≤◌, ◌^◌, ◌↔◌, IsOk, IfOk};
ghost use Rattle.sx_price.specs.Limits.{IsPrice};

use std::marker::Model;
use thiserror::Error;

/// What one unit of an asset is worth, in units of `2^-24`, from `2^8` to `2^40`.
#[derive(Clone, Copy, Debug, PartialEq, Eq, PartialOrd, Ord, Hash)]
pub struct Price {
    raw: u64,
}

/// The number is no price: it is below `2^8`, or above `2^40`.
#[derive(Clone, Copy, Debug, PartialEq, Eq, Error)]
#[error("a price is at least 2^8 and at most 2^40")]
pub struct PriceRange;

impl Model for Price {
    ghost use Rattle.std.specs.Prelude.{ℕ};
    ghost use Rattle.sx_price.specs.Limits.{IsPrice};

    ghost Value = { ℕ };

    ghost view = { λ price. price.raw };

    ghost invariant = { λ price. IsPrice price.raw };

    ghost inverse = { λ n. record { raw = n } };
}

impl Price {
    /// The least price, in units of `2^-24`.
    pub const LEAST: u64 = 1 << 8;

    /// The greatest price, in units of `2^-24`.
    pub const MOST: u64 = 1 << 40;

    /// The price of `raw` units of `2^-24`. `PriceRange` comes exactly where that is below `2^8`, or
    /// above `2^40`.
    pub fn new(raw: u64) -> Result<Self, PriceRange>
        ensures in_range { IsOk result ↔ IsPrice raw }
        ensures value { IfOk result (λ price. price ≡ raw) }
    {
        if Self::LEAST <= raw && raw <= Self::MOST {
            Ok(Price { raw })
        } else {
            Err(PriceRange)
        }
    }

    /// The number of units of `2^-24`.
    pub fn get(&self) -> u64
        ensures value { result ≡ self.now }
        ensures at_least { 2 ^ 8 ≤ result }
        ensures at_most { result ≤ 2 ^ 40 }
    {
        self.raw
    }
}
