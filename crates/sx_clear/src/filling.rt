//! What offers trade, and what rounding keeps.

ghost use Rattle.std.specs.Prelude.{◌≡◌, ℕ, ◌<◌, IfOk, length, slice_index};
ghost use Rattle.sx_apply.specs.Trading.{CanTrade};
ghost use Rattle.sx_dual.specs.Tables.{value_of};
ghost use Rattle.sx_fill.specs.AllFills.{all_fills};
ghost use Rattle.sx_ledger.specs.Fills.{IsRounding};

use std::alloc::Global;
use sx_apply::{fills_of, rounding_of};
use sx_base::Balances;
use sx_bytes::NoMemory;
use sx_dual::Flow;
use sx_ledger::{Fills, Offer};
use sx_price::Prices;

// What each offer trades, and what rounding keeps of each asset.
#[derive(Drop)]
pub struct Filled {
    pub fills: Fills,
    pub rounding: Balances,
}

// The fills of a ledger's offers at the prices, where each pair trades what the flow says.
pub fn fill(
    alloc: Global,
    offers: &[Offer],
    prices: &Prices,
    flow: &Flow,
) -> Result<Filled, NoMemory>
    requires assets { flow.now.assets ≡ length prices.now }
    requires tradable { CanTrade offers.now prices.now (value_of flow.now) }
    ensures fills { IfOk result (λ filled. filled.fills ≡ all_fills prices.now (value_of flow.now) offers.now) }
    ensures one_each { IfOk result (λ filled. length filled.rounding ≡ length prices.now) }
    ensures rounding { IfOk result (λ filled. (asset : ℕ) → asset < length prices.now → IsRounding prices.now (value_of flow.now) offers.now asset (slice_index filled.rounding asset)) }
{
    let fills = fills_of(alloc, offers, prices, flow)?;
    let rounding = rounding_of(alloc, offers, fills.items(), flow.assets())?;
    Ok(Filled { fills, rounding })
}
