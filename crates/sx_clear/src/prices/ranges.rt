//! The range of prices, which their type keeps.

ghost use Rattle.std.specs.Prelude.{All};
ghost use Rattle.sx_price.specs.Limits.{IsPrice};

use sx_price::Prices;

/// All prices are in their range. It does nothing when it runs.
#[inline]
pub fn price_ranges(prices: &Prices)
    ensures { All IsPrice prices.now }
{
    for price in prices.items() {
        let _price = price.get();
    }
}
