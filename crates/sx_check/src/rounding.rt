//! What rounding keeps, against what a block says of it: reason 15.

ghost use Rattle.std.specs.Prelude.{◌≡◌, ◌≢◌, ℕ, ◌<◌, length, slice_index, IfErr, IfNone, IfOk, IfSome, OnOk};
ghost use Rattle.sx_block.specs.Block.{IsBlock};
ghost use Rattle.sx_block.specs.Rule as rule;
ghost use Rattle.sx_block.specs.Validity.{HoldsButParent, IsApplicable, Rounds, flow_of_block, offers_of};
ghost use Rattle.sx_block.specs.Refusals.{RefusesButParent};
ghost use Rattle.sx_check.specs.Explanations.{ExplainsButParent};
ghost use Rattle.sx_fill.specs.AllFills.{all_fills};
ghost use Rattle.sx_ledger.specs.Ledger.{assets_of};

use crate::fault::CheckFault;
use std::alloc::Global;
use sx_apply::{fills_of, rounding_of};
use sx_base::AssetId;
use sx_block::{Block, Invalid};
use sx_ledger::{Fills, Ledger, Offer};

// The first place at which two lists of as many numbers differ.
fn first_difference(one: &[u64], other: &[u64]) -> Option<usize>
    requires { length one.now ≡ length other.now }
    ensures within { IfSome result (λ place. place < length one.now) }
    ensures differ { IfSome result (λ place. slice_index one.now place ≢ slice_index other.now place) }
    ensures earlier { IfSome result (λ place. (k : ℕ) → k < place → slice_index one.now k ≡ slice_index other.now k) }
    ensures none { IfNone result (one.now ≡ other.now) }
{
    for place in 0..one.len() {
        if one[place] != other[place] {
            return Some(place);
        }
    }
    None
}

// The block says of each asset what rounding keeps of it, `kept`.
fn check_kept(ledger: &Ledger, block: &Block, kept: &[u64]) -> Result<(), Invalid>
    requires form { IsBlock block.now }
    requires cut { HoldsButParent rule.Rounded ledger.now block.now }
    requires one_each { length kept.now ≡ assets_of ledger.now }
    requires kept { (asset : ℕ) → asset < assets_of ledger.now → Rounds ledger.now block.now asset (slice_index kept.now asset) }
    ensures applicable { OnOk result (IsApplicable ledger.now block.now) }
    ensures refused { IfErr result (RefusesButParent ledger.now block.now) }
{
    let said = block.header.rounding.items();
    if let Some(place) = first_difference(said, kept) {
        return Err(Invalid::Rounding {
            asset: AssetId::new(place as u8).unwrap(),
            said: said[place],
            real: kept[place],
        });
    }
    Ok(())
}

// The block says of each asset what rounding keeps of it. It answers what the offers trade, which are
// those after the transactions.
pub fn check_rounding(
    alloc: Global,
    ledger: &Ledger,
    block: &Block,
    offers: &[Offer],
) -> Result<Fills, CheckFault>
    requires form { IsBlock block.now }
    requires cut { HoldsButParent rule.Rounded ledger.now block.now }
    requires offers { offers.now ≡ offers_of ledger.now block.now }
    ensures applicable { OnOk result (IsApplicable ledger.now block.now) }
    ensures fills { IfOk result (λ fills. fills ≡ all_fills block.now.header.prices (flow_of_block block.now) (offers_of ledger.now block.now)) }
    ensures refused { IfErr result (ExplainsButParent ledger.now block.now) }
{
    let assets = ledger.assets();
    let header = &block.header;
    let fills = fills_of(alloc, offers, &header.prices, &header.trades)?;
    let kept = rounding_of(alloc, offers, fills.items(), assets)?;
    check_kept(ledger, block, kept.items())?;
    Ok(fills)
}
