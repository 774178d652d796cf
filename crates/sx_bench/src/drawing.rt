//! Values drawn from a generator, so that each run has the same input.

ghost use Rattle.std.specs.Prelude.{◌+◌, ◌^◌, ◌<◌, ◌≤◌, IfOk};

use anyhow::Result;
use rand_core::{Rng, SeedableRng};
use rand_xoshiro::Xoshiro256PlusPlus;
use sx_base::Amount;

const SEED: u64 = 1;

pub fn generator() -> Xoshiro256PlusPlus {
    Xoshiro256PlusPlus::seed_from_u64(SEED)
}

/// A number from `low` up, of `count` numbers.
pub fn draw(generator: &mut Xoshiro256PlusPlus, low: u64, count: u64) -> u64
    requires some { 0 < count }
    requires room { low + count ≤ 2 ^ 64 }
    ensures at_least { low ≤ result }
    ensures below { result < low + count }
{
    low + generator.next_u64() % count
}

/// An amount small enough for any number of them to be within a total.
pub fn draw_amount(generator: &mut Xoshiro256PlusPlus) -> Result<Amount>
    ensures { IfOk result (λ amount. amount ≤ 2 ^ 40) }
{
    Ok(Amount::new(draw(generator, 1, 1 << 40))?)
}
