//! What searches differ in.

ghost use Rattle.std.specs.Prelude.{◌≡◌, ◌<◌, ◌≤◌, slice_index};
ghost use Rattle.sx_multi.specs.Posted.{first_exponents};

// The exponents that searches begin with, by the numbers of the searches.
const FIRST: [u32; 8] = [4, 1, 2, 3, 5, 6, 7, 8];

// The exponent that a search begins with.
pub(crate) fn first_exponent(number: usize) -> u32
    requires { number < 8 }
    ensures exponent { result ≡ slice_index first_exponents number }
    ensures some { 1 ≤ result }
    ensures small { result ≤ 8 }
{
    FIRST[number]
}
