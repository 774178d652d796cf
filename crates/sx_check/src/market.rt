//! What a block trades, against the bounds of the offers: reasons 11 to 14.

ghost use Rattle.std.specs.Prelude.{◌≡◌, Some, None, IfErr, OnOk};
ghost use Rattle.sx_block.specs.Block.{IsBlock};
ghost use Rattle.sx_block.specs.Rule as rule;
ghost use Rattle.sx_block.specs.Validity.{HoldsButParent, high_in, low_in, offers_of, undropped_low_in};
ghost use Rattle.sx_fill.specs.Bounds.{HasBounds};
ghost use Rattle.sx_block.specs.Refusals.{RefusesButParent};
ghost use Rattle.sx_check.specs.Explanations.{ExplainsButParent};
ghost use Rattle.sx_ledger.specs.Ledger.{IsLedger, assets_of};

use crate::fault::CheckFault;
use std::alloc::Global;
use sx_block::{Block, Invalid};
use sx_dual::{Bounds, Cut, cuts, fits};
use sx_fill::{bounds_of, without_low};
use sx_ledger::{Ledger, Offer};

// The flow and the potentials fit the bounds.
fn check_fit(ledger: &Ledger, block: &Block, bounds: &Bounds) -> Result<(), Invalid>
    requires form { IsBlock block.now }
    requires body { HoldsButParent rule.Within ledger.now block.now }
    requires bounds { HasBounds (assets_of ledger.now) (low_in ledger.now block.now) (high_in ledger.now block.now) bounds.now }
    ensures fits { OnOk result (HoldsButParent rule.Cut ledger.now block.now) }
    ensures refused { IfErr result (RefusesButParent ledger.now block.now) }
{
    match fits(bounds, &block.header.trades, &block.header.potentials) {
        Ok(()) => Ok(()),
        Err(misfit) => Err(Invalid::from(misfit)),
    }
}

// The same where the header says that lower bounds were dropped, and its cut shows why.
fn check_dropped(ledger: &Ledger, block: &Block, bounds: Bounds, cut: Cut) -> Result<(), Invalid>
    requires form { IsBlock block.now }
    requires body { HoldsButParent rule.Within ledger.now block.now }
    requires dropped { block.now.header.dropped ≡ Some cut }
    requires bounds { HasBounds (assets_of ledger.now) (undropped_low_in ledger.now block.now) (high_in ledger.now block.now) bounds }
    ensures cut { OnOk result (HoldsButParent rule.Rounded ledger.now block.now) }
    ensures refused { IfErr result (RefusesButParent ledger.now block.now) }
{
    let is_cut = cuts(&bounds, cut);
    check_fit(ledger, block, &without_low(bounds))?;
    if !is_cut {
        return Err(Invalid::NoCut { cut });
    }
    Ok(())
}

// The same where lower bounds were kept.
fn check_kept(ledger: &Ledger, block: &Block, bounds: &Bounds) -> Result<(), Invalid>
    requires form { IsBlock block.now }
    requires body { HoldsButParent rule.Within ledger.now block.now }
    requires kept { block.now.header.dropped ≡ None }
    requires bounds { HasBounds (assets_of ledger.now) (undropped_low_in ledger.now block.now) (high_in ledger.now block.now) bounds.now }
    ensures cut { OnOk result (HoldsButParent rule.Rounded ledger.now block.now) }
    ensures refused { IfErr result (RefusesButParent ledger.now block.now) }
{
    check_fit(ledger, block, bounds)
}

// The flow and the potentials fit the bounds of these offers, which are those after the transactions,
// and where lower bounds were dropped a cut shows why.
pub fn check_market(
    alloc: Global,
    ledger: &Ledger,
    block: &Block,
    offers: &[Offer],
) -> Result<(), CheckFault>
    requires kept { IsLedger ledger.now }
    requires form { IsBlock block.now }
    requires body { HoldsButParent rule.Within ledger.now block.now }
    requires offers { offers.now ≡ offers_of ledger.now block.now }
    ensures cut { OnOk result (HoldsButParent rule.Rounded ledger.now block.now) }
    ensures refused { IfErr result (ExplainsButParent ledger.now block.now) }
{
    let bounds = bounds_of(alloc, offers, &block.header.prices, block.header.mu)?;
    match block.header.dropped {
        Some(cut) => check_dropped(ledger, block, bounds, cut)?,
        None => check_kept(ledger, block, &bounds)?,
    }
    Ok(())
}
