//! Offers in order of their keys.

ghost use Rattle.std.specs.Prelude.{◌≡◌, ◌+◌, ◌*◌, ◌^◌, All, IfOk};
ghost use Rattle.std.specs.List.Sorted.{IsPermutation, IsSortedByKey};
ghost use Rattle.sx_tally.specs.SortNumbers.{IsInRange, sort_numbers};
ghost use Rattle.sx_ledger.specs.Order.{key_cmp, key_of};

use std::alloc::Global;
use sx_bytes::NoMemory;
use sx_ledger::Offer;

// The fields of these offers are in the ranges of their types. It does nothing when it runs.
#[inline]
fn offer_ranges(offers: &[Offer])
    ensures { All IsInRange offers.now }
{
    for offer in offers {
        let _terms = (offer.buy.get(), offer.limit.get(), offer.seq.get());
    }
}

// Two numbers in one: the first decides how it compares.
fn joined(first: u64, second: u64) -> u128
    ensures { result ≡ first * 2 ^ 64 + second }
{
    (u128::from(first) << 64) + u128::from(second)
}

// Two numbers that stand in the order of keys. They are compared faster than the five of a key.
fn order_of(offer: &Offer) -> (u128, u128)
    ensures { result ≡ sort_numbers offer.now }
{
    let pair = u64::from(offer.sell.get()) * 256 + u64::from(offer.buy.get());
    let terms = joined(pair, offer.limit.get());
    let maker = joined(offer.account.0, offer.seq.get());
    (terms, maker)
}

// A copy of these offers, in order of their keys.
pub fn sorted_copy(alloc: Global, offers: &[Offer]) -> Result<Vec<Offer>, NoMemory>
    ensures all { IfOk result (λ copy. IsPermutation offers.now copy.items) }
    ensures sorted { IfOk result (λ copy. IsSortedByKey key_of key_cmp copy.items) }
{
    let mut copy = Vec::from_slice(alloc, offers)?;
    offer_ranges(&copy);
    copy.sort_unstable_by_key(|offer| order_of(offer));
    Ok(copy)
}
