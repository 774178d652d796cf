//! The ledger after a body, and after a block.

ghost use Rattle.std.specs.Prelude.{◌≡◌, IfOk};
ghost use Rattle.sx_apply.specs.Effects.{AreEffects};
ghost use Rattle.sx_block.specs.Validity.{IsApplicable, ledger_after};
ghost use Rattle.sx_ledger.specs.Body.{IsAdmissibleIn, body_after};

use crate::effects::Effects;
use crate::tallying::tally_of;
use crate::trading::execute;
use std::alloc::Global;
use sx_block::{Block, Header};
use sx_bytes::NoMemory;
use sx_ledger::Ledger;
use sx_tally::{apply_accounts, offers_after};
use sx_tx::Tx;

/// The ledger after the body of a block, before anything trades. The transactions are a body for the
/// ledger by the rule of version 2, which those are too that are one by the rule of version 1. It works on
/// a copy of the ledger.
pub fn apply_body(alloc: Global, ledger: &Ledger, txs: &[Tx]) -> Result<Ledger, NoMemory>
    requires admissible { IsAdmissibleIn 2 ledger.now txs.now }
    ensures { IfOk result (λ after. after ≡ body_after ledger.now txs.now) }
{
    let tally = tally_of(alloc, ledger, txs)?;
    let offers = offers_after(alloc, ledger, &tally)?;
    apply_accounts(alloc, ledger.copy()?, &tally, offers)
}

/// The ledger after a block, whose effects on the ledger are known: the ledger after the transactions,
/// after trading. The block is valid but for the digests of the ledgers before and after it. The ledger changes in
/// place.
pub fn apply(
    alloc: Global,
    ledger: Ledger,
    block: &Block,
    effects: Effects,
) -> Result<Ledger, NoMemory>
    requires applicable { IsApplicable ledger block.now }
    requires effects { AreEffects ledger block.now effects }
    ensures { IfOk result (λ after. after ≡ ledger_after ledger block.now) }
{
    let Effects {
        tally,
        offers,
        fills,
    } = effects;
    let after_body = apply_accounts(alloc, ledger, &tally, offers)?;
    let Header {
        prices,
        rounding,
        ..
    } = &block.header;
    execute(alloc, after_body, prices, rounding, fills.items())
}
