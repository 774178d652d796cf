//! From amounts to values, and back to whole units.

ghost use Rattle.std.specs.Prelude.{◌≡◌, ◌*◌, ◌≤◌, ◌^◌};
ghost use Rattle.sx_price.specs.Rounding.{
  rounded_up,
  rounded_down,
  IsLeastToReach,
  IsGreatestWithin,
};

use crate::price::Price;

/// The value of `amount` units at `price`, in units of `2^-24`.
pub fn value(price: Price, amount: u64) -> u128
    requires { amount ≤ 2 ^ 62 }
    ensures product { result ≡ price * amount }
    ensures in_range { result ≤ 2 ^ 102 }
{
    u128::from(price.get()) * u128::from(amount)
}

/// The units that `value`, in units of `2^-24`, makes at `price`, rounded up: the least number of
/// units that are worth it.
pub fn units_up(value: u128, price: Price) -> u64
    requires { value ≤ price * 2 ^ 62 }
    ensures quotient { result ≡ rounded_up value price }
    ensures least { IsLeastToReach value price result }
    ensures in_range { result ≤ 2 ^ 62 }
{
    value.div_ceil(u128::from(price.get())) as u64
}

/// The units that `value`, in units of `2^-24`, makes at `price`, rounded down: the greatest number
/// of units that are worth no more.
pub fn units_down(value: u128, price: Price) -> u64
    requires { value ≤ price * 2 ^ 62 }
    ensures quotient { result ≡ rounded_down value price }
    ensures greatest { IsGreatestWithin value price result }
    ensures in_range { result ≤ 2 ^ 62 }
{
    (value / u128::from(price.get())) as u64
}
