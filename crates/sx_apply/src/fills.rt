//! What each offer trades.

ghost use Rattle.std.specs.Prelude.{◌≡◌, ◌≤◌, ◌++◌, length, slice_get, take, All, IfOk, IfSome, IsTrue, None, Some, true, false, ◌==◌, ◌&&◌};
ghost use Rattle.sx_apply.specs.Trading.{CanTrade};
ghost use Rattle.sx_bytes.specs.Grammar.{in_order};
ghost use Rattle.sx_dual.specs.Tables.{value_of};
ghost use Rattle.sx_fill.specs.AllFills.{all_fills};
ghost use Rattle.sx_ledger.specs.Bounds.{pair_of};
ghost use Rattle.sx_ledger.specs.Ledger.{keys};
ghost use Rattle.sx_ledger.specs.Order.{key_before};

use crate::capacity::count_tradable;
use std::alloc::Global;
use sx_bytes::NoMemory;
use sx_dual::Flow;
use sx_fill::push_fills;
use sx_ledger::{Fills, Offer};
use sx_price::Prices;

// How many offers at the front are of the pair of this one, which is the first.
fn count_pair(offers: &[Offer], first: &Offer) -> usize
    requires first { slice_get offers.now 0 ≡ Some first.now }
    requires ordered { IsTrue (in_order key_before None (keys offers.now)) }
    ensures within { result ≤ length offers.now }
    ensures own { All (λ offer. ((offer.sell == first.now.sell) && (offer.buy == first.now.buy)) ≡ true) (take result offers.now) }
    ensures next { IfSome (slice_get offers.now result) (λ offer. ((offer.sell == first.now.sell) && (offer.buy == first.now.buy)) ≡ false) }
{
    offers.partition_point(|offer| offer.sell == first.sell && offer.buy == first.buy)
}

// The offers of the pair of the first one, and those of the pairs after it.
fn split_pair<'a>(offers: &'a [Offer], first: &Offer) -> (&'a [Offer], &'a [Offer])
    requires first { slice_get offers.now 0 ≡ Some first.now }
    requires ordered { IsTrue (in_order key_before None (keys offers.now)) }
    ensures own { result.0.now ≡ pair_of first.now.sell first.now.buy offers.now }
    ensures all { result.0.now ++ result.1.now ≡ offers.now }
    ensures apart { All (λ offer. ((offer.sell == first.now.sell) && (offer.buy == first.now.buy)) ≡ false) result.1.now }
{
    offers.split_at(count_pair(offers, first))
}

/// The fills of all offers that trade at these prices a value above 0, if each pair trades what the flow
/// says: by strictly rising place in the whole list of offers, which are those of a ledger. The flow can
/// trade: each pair has at most the value of its offers that may trade, and of each asset as much is sold
/// as is bought. It goes over the offers that trade, and finds where each pair ends by halving the offers
/// that are left. It takes memory for as many fills as there are offers that may trade.
pub fn fills_of(
    alloc: Global,
    offers: &[Offer],
    prices: &Prices,
    flow: &Flow,
) -> Result<Fills, NoMemory>
    requires assets { flow.now.assets ≡ length prices.now }
    requires tradable { CanTrade offers.now prices.now (value_of flow.now) }
    ensures { IfOk result (λ fills. fills ≡ all_fills prices.now (value_of flow.now) offers.now) }
{
    let mut fills = Vec::with_capacity(alloc, count_tradable(offers, prices))?;
    let mut left = offers;
    while let Some(first) = left.first() {
        let place = (offers.len() - left.len()) as u32;
        let (own, others) = split_pair(left, first);
        let sell = prices.items()[usize::from(first.sell.get())];
        let buy = prices.items()[usize::from(first.buy.get())];
        let value = flow.at(first.sell, first.buy);
        push_fills(&mut fills, place, own, sell, buy, value)?;
        left = others;
    }
    Ok(Fills::of(fills))
}
