//! The supply curves of a ledger's offers.

ghost use Rattle.std.specs.Prelude.{◌≡◌, IfOk, IfSome};
ghost use Rattle.std.specs.List.Sorted.{IsPermutation};
ghost use Rattle.sx_fill.specs.Bounds.{AreOffers};
ghost use Rattle.sx_multi.specs.Quotes.{quotes_of as the_quotes_of};
ghost use Rattle.sx_dual.specs.Tables.{IsAssetCount};
ghost use Rattle.sx_ledger.specs.Body.{IsAdmissible, body_after};
ghost use Rattle.sx_ledger.specs.Ledger.{assets_of};

use crate::prices::body::body_of;
use crate::prices::quotes::{quote_of, quotes_of};
use std::alloc::Global;
use sx_bytes::NoMemory;
use sx_curve::{Curves, CurvesBuilder};
use sx_ledger::{Ledger, Offer};
use sx_tx::Tx;

// The supply curves of offers that stand by pair and limit, as those of a ledger do, or `None` where they do not.
fn curves_in_order(alloc: Global, assets: u32, offers: &[Offer]) -> Result<Option<Curves>, NoMemory>
    requires assets { IsAssetCount assets }
    requires offers { AreOffers assets offers.now }
    ensures assets { IfOk result (λ found. IfSome found (λ curves. curves.assets ≡ assets)) }
    ensures quotes { IfOk result (λ found. IfSome found (λ curves. curves.quotes ≡ the_quotes_of offers.now)) }
{
    let mut builder = CurvesBuilder::new(alloc, offers.len())?;
    for offer in offers {
        if !builder.push(&quote_of(offer))? {
            return Ok(None);
        }
    }
    Ok(Some(builder.finish(assets)))
}

// The supply curves of offers of a ledger of this many assets. Their order is free: in another one than that of a
// ledger, their quotes are sorted.
pub(crate) fn offer_curves(alloc: Global, assets: u32, offers: &[Offer]) -> Result<Curves, NoMemory>
    requires assets { IsAssetCount assets }
    requires offers { AreOffers assets offers.now }
    ensures assets { IfOk result (λ curves. curves.assets ≡ assets) }
    ensures quotes { IfOk result (λ curves. IsPermutation (the_quotes_of offers.now) curves.quotes) }
{
    if let Some(curves) = curves_in_order(alloc, assets, offers)? {
        return Ok(curves);
    }
    let quotes = quotes_of(alloc, offers)?;
    Curves::build(alloc, assets, quotes)
}

/// The supply curves of the offers after a body. `NoMemory` is the only error. It goes over the transactions once, and
/// over the offers, whose order is that of the curves.
pub fn curves_of(alloc: Global, ledger: &Ledger, txs: &[Tx]) -> Result<Curves, NoMemory>
    requires admissible { IsAdmissible ledger.now txs.now }
    ensures assets { IfOk result (λ curves. curves.assets ≡ assets_of ledger.now) }
    ensures quotes { IfOk result (λ curves. IsPermutation (the_quotes_of (body_after ledger.now txs.now).offers) curves.quotes) }
{
    let body = body_of(alloc, ledger, txs)?;
    offer_curves(alloc, ledger.assets(), body.offers.after(ledger))
}
