//! The points of the supply curves.

ghost use Rattle.std.specs.Prelude.{◌≡◌, ◌+◌, ◌*◌, ◌≤◌, ◌^◌, length};
ghost use Rattle.sx_curve.specs.Curves.{AreSumsAt, HasLimit};

use crate::quote::Quote;
use crate::sums::Sums;
use sx_price::Limit;

// The limit of a quote, and the sums of the quotes of its pair up to and with it: of the amounts, at
// most 2^62, and of each amount times its limit, at most 2^118. A point takes 32 bytes, so that a search
// finds the sums where it has read the limit.
#[derive(Clone, Copy, Debug)]
pub(crate) struct Point {
    pub limit: Limit,
    pub amount: u64,
    pub weighted: u128,
}

// The sums of no quote.
pub(crate) const NOTHING: Sums = Sums {
    amount: 0,
    weighted: 0,
};

impl Point {
    // The point of a quote, where these are the sums of those of its pair before it.
    pub(crate) fn after(before: Sums, quote: &Quote) -> Point
        requires amount { before.amount + quote.now.amount ≤ 2 ^ 62 }
        requires weighted { before.weighted ≤ 2 ^ 56 * before.amount }
        ensures limit { result.limit ≡ quote.now.limit }
        ensures amount { result.amount ≡ before.amount + quote.now.amount }
        ensures weighted { result.weighted ≡ before.weighted + quote.now.amount * quote.now.limit }
        ensures in_range { HasLimit quote.now }
    {
        let amount = quote.amount.get();
        Point {
            limit: quote.limit,
            amount: before.amount + amount,
            weighted: before.weighted + u128::from(amount) * u128::from(quote.limit.get()),
        }
    }

    // The sums up to and with this point.
    pub(crate) fn sums(&self) -> Sums
        ensures amount { result.amount ≡ self.now.amount }
        ensures weighted { result.weighted ≡ self.now.weighted }
    {
        Sums {
            amount: self.amount,
            weighted: self.weighted,
        }
    }
}

// The sums at the first points of a pair, as many as `count` says.
pub(crate) fn sums_at(pair: &[Point], count: usize) -> Sums
    requires { count ≤ length pair.now }
    ensures { AreSumsAt pair.now count result }
{
    if count == 0 {
        NOTHING
    } else {
        pair[count - 1].sums()
    }
}
