//! The margin μ, as a number that keeps its range.

ghost use Rattle.std.specs.Prelude.{◌≡◌, ◌≤◌, ◌↔◌, IsOk, IfOk};
ghost use Rattle.sx_price.specs.Limits.{IsExponent};

use std::marker::Model;
use thiserror::Error;

/// The margin μ, `2^-j`, seen as its exponent `j`, from 1 to 20. An offer whose limit the batch rate
/// reaches even when it is cut by the part μ of it must trade.
#[derive(Clone, Copy, Debug, PartialEq, Eq, PartialOrd, Ord, Hash)]
pub struct Mu {
    exponent: u8,
}

/// The number is no exponent of μ: it is 0, or above 20.
#[derive(Clone, Copy, Debug, PartialEq, Eq, Error)]
#[error("the exponent of μ is at least 1 and at most 20")]
pub struct MuRange;

impl Model for Mu {
    ghost use Rattle.std.specs.Prelude.{ℕ};
    ghost use Rattle.sx_price.specs.Limits.{IsExponent};

    ghost Value = { ℕ };

    ghost view = { λ mu. mu.exponent };

    ghost invariant = { λ mu. IsExponent mu.exponent };

    ghost inverse = { λ n. record { exponent = n } };
}

impl Mu {
    /// The least exponent, that of the margin 1/2.
    pub const LEAST: u8 = 1;

    /// The greatest exponent.
    pub const MOST: u8 = 20;

    /// The margin `2^-j`. `MuRange` comes exactly where `j` is 0, or above 20.
    pub fn new(j: u8) -> Result<Self, MuRange>
        ensures in_range { IsOk result ↔ IsExponent j }
        ensures value { IfOk result (λ mu. mu ≡ j) }
    {
        if Self::LEAST <= j && j <= Self::MOST {
            Ok(Mu { exponent: j })
        } else {
            Err(MuRange)
        }
    }

    /// The exponent `j`.
    pub fn get(&self) -> u8
        ensures value { result ≡ self.now }
        ensures positive { 1 ≤ result }
        ensures in_range { result ≤ 20 }
    {
        self.exponent
    }
}
