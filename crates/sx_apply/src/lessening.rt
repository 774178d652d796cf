//! What trading leaves of offers.

ghost use Rattle.std.specs.Prelude.{◌≡◌, ℕ, List, ◌-◌, ◌≤◌, slice_get, All, IfSome, Some, None, nat_lt, if◌then◌else◌};
ghost use Rattle.sx_apply.specs.NextFill.{after_next, next_gives};
ghost use Rattle.sx_fill.specs.AllFills.{all_fills};
ghost use Rattle.sx_ledger.specs.Fills.{Flow};
ghost use Rattle.sx_ledger.specs.Trade.{offers_traded};

use sx_base::Amount;
use sx_ledger::{Fill, Offer};

// What the offer at a place gives, where these are the fills from that place on, and the fills after it.
fn next_given(fills: &[Fill], place: usize) -> (u64, &[Fill])
    ensures gives { result.0 ≡ next_gives place fills.now }
    ensures after { result.1.now ≡ after_next place fills.now }
{
    match fills.first() {
        Some(fill) if fill.place as usize == place => (fill.gives, &fills[1..]),
        _ => (0, fills),
    }
}

// What is left of an offer that gives these units, if anything is.
fn left_of(offer: &Offer, gives: u64) -> Option<Offer>
    requires { gives ≤ offer.now.amount }
    ensures { result ≡ (if nat_lt 0 (offer.now.amount - gives) then Some (record offer.now { amount = offer.now.amount - gives }) else None) }
{
    let amount = Amount::new(offer.amount.get() - gives).ok()?;
    Some(Offer { amount, ..*offer })
}

// Offers less what they give, without those of which nothing is left. They change in place, and not at
// all where nothing was filled.
pub fn lessened(offers: Vec<Offer>, fills: &[Fill]) -> Vec<Offer>
    requires some { All (λ offer. 1 ≤ offer.amount) offers.items }
    requires within { All (λ fill. IfSome (slice_get offers.items fill.place) (λ offer. fill.gives ≤ offer.amount)) fills.now }
    ensures { (prices : List ℕ) (flow : Flow) → fills.now ≡ all_fills prices flow offers.items → result.items ≡ offers_traded prices flow offers.items }
{
    if fills.is_empty() {
        return offers;
    }
    let mut offers = offers;
    let mut left = fills;
    let mut kept = 0;
    for place in 0..offers.len() {
        let (gives, others) = next_given(left, place);
        left = others;
        if let Some(offer) = left_of(&offers[place], gives) {
            offers[kept] = offer;
            kept += 1;
        }
    }
    offers.truncate(kept);
    offers
}
