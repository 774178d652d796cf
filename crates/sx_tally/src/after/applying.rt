//! The ledger after a body.

ghost use Rattle.std.specs.Prelude.{◌≡◌, List, IfOk};
ghost use Rattle.sx_tally.specs.Accounts.{AreKnownAfter, with_all_accounts, with_known_accounts};
ghost use Rattle.sx_tally.specs.OfferChanges.{changed_by};
ghost use Rattle.sx_tally.specs.Tally.{IsTally, IsTallyOfBody};
ghost use Rattle.sx_ledger.specs.declared.parts.Parts.{Parts as Ledgers};
ghost use Rattle.sx_ledger.specs.Body.{IsAdmissibleIn, body_after, offers_after as all_offers};
ghost use Rattle.sx_ledger.specs.Ledger.{IsLedger};
ghost use Rattle.sx_tx.specs.declared.tx.Tx.{Tx as Transaction};

use crate::Tally;
use crate::after::accounts::apply_to_known;
use crate::after::created::with_created;
use crate::after::offers::OfferChange;
use std::alloc::Global;
use sx_bytes::NoMemory;
use sx_ledger::{Accounts, Ledger, Parts};

// The parts of a ledger whose accounts are as they are after the body, with those too that are created.
fn with_all(alloc: Global, parts: Parts, tally: &Tally) -> Result<Parts, NoMemory>
    ensures { (before : Ledgers) (txs : List Transaction) → IsLedger before → IsAdmissibleIn 2 before txs
        → IsTally before txs tally.now → parts ≡ with_known_accounts before txs
        → IfOk result (λ after. after ≡ with_all_accounts before txs) }
{
    let ids = tally.created_ids();
    if ids.is_empty() {
        return Ok(parts);
    }
    let Parts {
        version,
        height,
        prices,
        rounding,
        accounts,
        offers,
    } = parts;
    let assets = prices.items().len();
    let accounts = with_created(alloc, accounts.into_items(), ids, assets)?;
    Ok(Parts {
        version,
        height,
        prices,
        rounding,
        accounts: Accounts::of(accounts),
        offers,
    })
}

/// The ledger after the body of a block, before anything trades, if each account that was there is already as
/// it is after the body ([`apply_to_account`](crate::after::apply_to_account)): the accounts that are created
/// stand among them, and the offers change as [`offers_after`](crate::after::offers_after) answers.
/// `NoMemory` comes only where an account is created.
pub fn complete_accounts(
    alloc: Global,
    parts: Parts,
    tally: &Tally,
    change: OfferChange,
) -> Result<Ledger, NoMemory>
    requires { AreKnownAfter parts tally.now change }
    ensures { (before : Ledgers) (txs : List Transaction) → IsLedger before → IsAdmissibleIn 2 before txs
        → IsTally before txs tally.now → parts ≡ with_known_accounts before txs
        → changed_by change before.offers ≡ all_offers before txs
        → IfOk result (λ after. after ≡ body_after before txs) }
{
    let parts = with_all(alloc, parts, tally)?;
    Ok(Ledger::of(Parts {
        version: parts.version,
        height: parts.height,
        prices: parts.prices,
        rounding: parts.rounding,
        accounts: parts.accounts,
        offers: change.applied(parts.offers),
    }))
}

/// The ledger after the body of a block, before anything trades, from the tally of the body and from
/// what it changes the offers to: what [`precheck`](crate::precheck) and
/// [`offers_after`](crate::after::offers_after) answer. Balances change in place.
pub fn apply_accounts(
    alloc: Global,
    ledger: Ledger,
    tally: &Tally,
    change: OfferChange,
) -> Result<Ledger, NoMemory>
    requires body { IsTallyOfBody ledger tally.now }
    requires offers { (txs : List Transaction) → IsAdmissibleIn 2 ledger txs → IsTally ledger txs tally.now
        → changed_by change ledger.offers ≡ all_offers ledger txs }
    ensures { (txs : List Transaction) → IsAdmissibleIn 2 ledger txs → IsTally ledger txs tally.now
        → IfOk result (λ after. after ≡ body_after ledger txs) }
{
    let parts = apply_to_known(alloc, ledger, tally);
    complete_accounts(alloc, parts, tally, change)
}
