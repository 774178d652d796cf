//! Draws: words of the generator, cut to a range.
//!
//! The generator is xoshiro256++ (Blackman and Vigna, "Scrambled linear pseudorandom number
//! generators", 2021).

ghost use Rattle.std.specs.Prelude.{◌≡◌, ◌%◌, ◌<◌};
ghost use Rattle.rand_xoshiro.specs.Xoshiro256.{plus_plus};

use rand_core::utils::NextWord;
use rand_xoshiro::Xoshiro256PlusPlus;

// The next word of 64 bits, modulo `count`.
pub(crate) fn draw(generator: &mut Xoshiro256PlusPlus, count: u64) -> u64
    requires { 0 < count }
    ensures drawn { result ≡ (plus_plus generator.old).0 % count }
    ensures below { result < count }
    ensures after { generator.new ≡ (plus_plus generator.old).1 }
{
    generator.next_word() % count
}
