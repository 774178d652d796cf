//! One price, moved by one step.

ghost use Rattle.std.specs.Prelude.{◌≡◌, ◌+◌, ◌*◌, ◌<◌, ◌≤◌, ◌^◌, pos, if◌then◌else◌, int_lt, ◌-◌, unsigned_abs};
ghost use Rattle.sx_curve.specs.Search.{cut_to_range, dropped_digits as dropped, moved_price, price_change};

use sx_price::Price;

// How many of the last digits of a volume do not count: all but 64.
fn dropped_digits(volume: u128) -> u32
    ensures value { result ≡ dropped volume }
    ensures few { result ≤ 64 }
    ensures most { volume < 2 ^ (64 + result) }
    ensures least { 0 < volume → 2 ^ result ≤ volume }
{
    (128 - volume.leading_zeros()).saturating_sub(64)
}

// By how much a price changes: its part net / volume, over 2^exponent. The product is below 2^105, and it is shifted
// before it is divided, so that the divisor has 64 bits.
fn change_of(exponent: u32, price: u64, net: u128, volume: u128) -> u128
    requires exponent { exponent ≤ 40 }
    requires price { price ≤ 2 ^ 40 }
    requires volume { 0 < volume }
    requires net { net ≤ volume }
    ensures value { result ≡ price_change exponent price net volume }
    ensures in_range { result < 2 ^ 104 }
{
    let dropped = dropped_digits(volume);
    let net = net >> dropped;
    let volume = volume >> dropped;
    ((u128::from(price) * net) >> exponent) / volume
}

// The nearest price in range.
fn cut(price: u128) -> Price
    ensures { result ≡ cut_to_range price }
{
    let raw = price.min(u128::from(Price::MOST)) as u64;
    Price::new(raw.max(Price::LEAST)).unwrap()
}

// The price after a step.
pub(crate) fn moved(exponent: u32, price: Price, net: i128, volume: u128) -> Price
    requires exponent { exponent ≤ 40 }
    requires net { unsigned_abs net ≤ volume }
    ensures { result ≡ moved_price exponent price net volume }
{
    if volume == 0 {
        return price;
    }
    let change = change_of(exponent, price.get(), net.unsigned_abs(), volume);
    let old = u128::from(price.get());
    if net > 0 {
        cut(old + change)
    } else {
        cut(old.saturating_sub(change))
    }
}
