//! Where the quotes of each pair stand among quotes in order.

ghost use Rattle.std.specs.Prelude.{◌≡◌, ℕ, ◌<◌, ◌≤◌, length, slice_index};
ghost use Rattle.sx_curve.specs.Curves.{place_of_pair};

use sx_base::AssetId;

// How many pairs there may be, of an asset with itself too.
pub(crate) const PAIRS: usize = 1024;

// The place of a pair among all that there may be.
pub(crate) fn place_of(sell: AssetId, buy: AssetId) -> usize
    ensures place { result ≡ place_of_pair sell buy }
    ensures in_range { result < 1024 }
    ensures buy { buy < 32 }
{
    usize::from(sell.get()) * 32 + usize::from(buy.get())
}

// Notes that the pairs from one place to before another begin at an index.
pub(crate) fn set_begins(begins: &mut [usize], from: usize, to: usize, at: usize)
    requires ordered { from ≤ to }
    requires within { to ≤ length begins.old }
    ensures full { length begins.new ≡ length begins.old }
    ensures set { (place : ℕ) → from ≤ place → place < to → slice_index begins.new place ≡ at }
    ensures others { (place : ℕ) → place < from → slice_index begins.new place ≡ slice_index begins.old place }
{
    for place in from..to {
        begins[place] = at;
    }
}
