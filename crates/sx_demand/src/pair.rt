//! The value that one pair of assets sells.

ghost use Rattle.std.specs.Prelude.{◌≡◌, ◌≤◌, ◌^◌};
ghost use Rattle.sx_curve.specs.Demand.{pair_value};
ghost use Rattle.sx_curve.specs.Quotes.{pair_of};

use crate::parts::{Guesses, parts_of};
use sx_base::AssetId;
use sx_curve::Curves;
use sx_price::{Mu, Price};

// One, in units of 2^-24.
pub(crate) const ONE: u128 = 1 << 24;

// A sold and a bought asset, each with its price.
#[derive(Clone, Copy)]
pub(crate) struct Pair {
    pub sell: AssetId,
    pub buy: AssetId,
    pub sell_price: Price,
    pub buy_price: Price,
}

// The value that the quotes of a pair sell, at most 2^102: all of what must trade, and a part of what
// may and need not. The products on the way are at most 2^126. In a sparse market most pairs have no quote, so that is
// looked at first.
pub(crate) fn value_of(curves: &Curves, pair: &Pair, mu: Mu, guesses: &mut Guesses) -> u128
    ensures value { result ≡ pair_value pair.now.sell_price pair.now.buy_price mu
        (pair_of pair.now.sell pair.now.buy curves.now.quotes) }
    ensures in_range { result ≤ 2 ^ 102 }
{
    if curves.is_bare(pair.sell, pair.buy) {
        return 0;
    }
    let parts = parts_of(curves, pair, mu, guesses);
    let sell_price = u128::from(pair.sell_price.get());
    let buy_price = u128::from(pair.buy_price.get());
    let rated = sell_price * ONE * u128::from(parts.mid);
    let gain = rated - buy_price * parts.mid_weighted;
    sell_price * u128::from(parts.must) + (gain >> (24 - mu.get()))
}
