//! How much of a pair's quotes must trade at two prices, and how much may and need not.

ghost use Rattle.std.specs.Prelude.{◌≡◌, ◌+◌, ◌-◌, ◌*◌, ◌/◌, ◌≤◌, ◌^◌};
ghost use Rattle.std.specs.List.{filter};
ghost use Rattle.sx_curve.specs.Demand.{e_mid, e_must, m_mid, may_at, must_at};
ghost use Rattle.sx_curve.specs.Quotes.{amounts, pair_of, weighted_amounts};

use crate::pair::{ONE, Pair};
use sx_curve::{Curves, Sums};
use sx_price::{Mu, Price};

// Guesses of how many quotes of a pair may trade, and of how many must: as many as at the last prices.
#[derive(Clone, Copy, Debug)]
pub(crate) struct Guesses {
    pub may: usize,
    pub must: usize,
}

// The rates up to which the quotes of a pair must trade, and may: the former is cut by the part `mu`.
fn rates(sell_price: Price, mu: Mu) -> (u128, u128)
    ensures must { result.0 ≡ sell_price * 2 ^ 24 - sell_price * 2 ^ 24 / 2 ^ mu }
    ensures may { result.1 ≡ sell_price * 2 ^ 24 }
    ensures exponent { mu ≤ 20 }
{
    let rate = u128::from(sell_price.get()) * ONE;
    (rate - (rate >> mu.get()), rate)
}

// The sums over the quotes of a pair that must trade, and over those that may.
fn sums_of(curves: &Curves, pair: &Pair, mu: Mu, guesses: &mut Guesses) -> (Sums, Sums)
    ensures must_amount { result.0.amount ≡ amounts (filter (must_at pair.now.sell_price pair.now.buy_price mu)
        (pair_of pair.now.sell pair.now.buy curves.now.quotes)) }
    ensures must_weighted { result.0.weighted ≡ weighted_amounts
        (filter (must_at pair.now.sell_price pair.now.buy_price mu)
        (pair_of pair.now.sell pair.now.buy curves.now.quotes)) }
    ensures may_amount { result.1.amount ≡ amounts (filter (may_at pair.now.sell_price pair.now.buy_price)
        (pair_of pair.now.sell pair.now.buy curves.now.quotes)) }
    ensures may_weighted { result.1.weighted ≡ weighted_amounts (filter (may_at pair.now.sell_price pair.now.buy_price)
        (pair_of pair.now.sell pair.now.buy curves.now.quotes)) }
    ensures in_range { result.1.amount ≤ 2 ^ 62 }
{
    let (must, may) = rates(pair.sell_price, mu);
    let price = u128::from(pair.buy_price.get());
    curves.below_both(
        pair.sell,
        pair.buy,
        must,
        may,
        price,
        &mut guesses.must,
        &mut guesses.may,
    )
}

// The amounts that must trade, those that may and need not, and each of these times its limit.
#[derive(Clone, Copy)]
pub(crate) struct Parts {
    pub must: u64,
    pub mid: u64,
    pub mid_weighted: u128,
}

// The parts at two prices, with the guesses for the next ones.
pub(crate) fn parts_of(curves: &Curves, pair: &Pair, mu: Mu, guesses: &mut Guesses) -> Parts
    ensures must { result.must ≡ e_must pair.now.sell_price pair.now.buy_price mu
        (pair_of pair.now.sell pair.now.buy curves.now.quotes) }
    ensures mid { result.mid ≡ e_mid pair.now.sell_price pair.now.buy_price mu
        (pair_of pair.now.sell pair.now.buy curves.now.quotes) }
    ensures mid_weighted { result.mid_weighted ≡ m_mid pair.now.sell_price pair.now.buy_price mu
        (pair_of pair.now.sell pair.now.buy curves.now.quotes) }
    ensures in_range { result.must + result.mid ≤ 2 ^ 62 }
{
    let (must, may) = sums_of(curves, pair, mu, guesses);
    Parts {
        must: must.amount,
        mid: may.amount - must.amount,
        mid_weighted: may.weighted - must.weighted,
    }
}
