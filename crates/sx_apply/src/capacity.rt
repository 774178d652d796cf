//! How many fills there may be, so that their memory is taken once and no greater than it has to be.

ghost use Rattle.std.specs.Prelude.{◌≤◌, length};

use sx_ledger::Offer;
use sx_price::{Prices, may_trade};

// How many offers of a pair may trade at these prices. They stand by their limits.
fn count_in_pair(pair: &[Offer], prices: &Prices) -> usize
    ensures { result ≤ length pair.now }
{
    let Some(first) = pair.first() else {
        return 0;
    };
    let items = prices.items();
    let sell = items.get(usize::from(first.sell.get()));
    let buy = items.get(usize::from(first.buy.get()));
    match (sell, buy) {
        (Some(sell), Some(buy)) => {
            pair.partition_point(|offer| may_trade(*sell, *buy, offer.limit))
        }
        _ => pair.len(),
    }
}

// How many offers may trade at these prices. They stand by pair and limit, so that both ends are found by halving. No
// clause rests on it: where offers stood in another order, it would be some other number of them.
pub fn count_tradable(offers: &[Offer], prices: &Prices) -> usize
    ensures { result ≤ length offers.now }
{
    let mut count = 0;
    let mut left = offers;
    while let Some(first) = left.first() {
        let end = left.partition_point(|offer| offer.sell == first.sell && offer.buy == first.buy);
        let (own, others) = left.split_at(end.max(1));
        count += count_in_pair(own, prices);
        left = others;
    }
    count
}
