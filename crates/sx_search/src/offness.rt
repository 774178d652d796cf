//! How far all assets are from balance.

ghost use Rattle.std.specs.Prelude.{◌≡◌, ◌≤◌, ◌^◌, All, length, unsigned_abs};
ghost use Rattle.std.specs.List.{sum_by};

// The sum of the excesses of all assets, at most 2^112.
pub(crate) fn off(nets: &[i128]) -> u128
    requires few { length nets.now ≤ 32 }
    requires in_range { All (λ net. unsigned_abs net ≤ 2 ^ 107) nets.now }
    ensures { result ≡ sum_by unsigned_abs nets.now }
{
    let mut sum = 0;
    for net in nets {
        sum += net.unsigned_abs();
    }
    sum
}
