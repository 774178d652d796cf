//! What a transaction debits and credits.

ghost use Rattle.std.specs.Prelude.{◌≡◌, ℕ, Ok, ◌++◌, [], ◌∷◌, List, ◌+◌, ◌<◌, ◌^◌, length, slice_get, Some};
ghost use Rattle.std.specs.Prelude.{IfSome, IfNone, None, OnOk};
ghost use Rattle.std.specs.List.Sorted.{IsStrictlyIncreasing};
ghost use Rattle.sx_tally.specs.Postings.{AreWithin, HasPostingsWithPending, IsEntry, units_in};
ghost use Rattle.sx_tally.specs.declared.postings.Postings.{Postings as AnyPostings};
ghost use Rattle.sx_ledger.specs.Effects.{credit as credit_by, debit as debit_by, posted};
ghost use Rattle.sx_ledger.specs.Ledger.{assets_of, ids};
ghost use Rattle.sx_ledger.specs.Places.{ArePlaces};
ghost use Rattle.sx_ledger.specs.Static.{static_of};
ghost use Rattle.sx_tx.specs.declared.tx.Tx.{Tx as Transaction};

use crate::entry::Entry;
use crate::pending::Pending;
use sx_bytes::NoMemory;
use sx_ledger::{Ledger, Places, Target};
use sx_tx::{Kind, Tx};

// What a transaction debits, which stands at these places: a payment and an offer their own account.
fn debit_of(ledger: &Ledger, tx: &Tx, places: &Places) -> Option<Entry>
    requires passes { static_of ledger.now tx.now ≡ Ok tt }
    requires places { ArePlaces ledger.now tx.now places.now }
    ensures some { IfSome result (IsEntry ledger.now (debit_by tx.now)) }
    ensures none { IfNone result (debit_by tx.now ≡ None) }
{
    let (asset, amount) = match tx.kind {
        Kind::Pay { asset, amount, .. } => (asset, amount),
        Kind::Offer { sell, amount, .. } => (sell, amount),
        Kind::Create { .. } | Kind::Cancel { .. } => return None,
    };
    Some(Entry {
        place: places.account,
        asset,
        amount,
    })
}

// What a transaction credits, which stands at these places: a payment the payee, and a cancellation its
// own account, by the amount of the offer.
fn credit_of(ledger: &Ledger, tx: &Tx, places: &Places) -> Option<Entry>
    requires passes { static_of ledger.now tx.now ≡ Ok tt }
    requires places { ArePlaces ledger.now tx.now places.now }
    ensures some { IfSome result (IsEntry ledger.now (credit_by ledger.now.offers tx.now)) }
    ensures none { IfNone result (credit_by ledger.now.offers tx.now ≡ None) }
{
    match tx.kind {
        Kind::Pay { asset, amount, .. } => {
            let Target::Payee(place) = places.target else {
                unreachable!()
            };
            Some(Entry {
                place,
                asset,
                amount,
            })
        }
        Kind::Cancel { sell, .. } => {
            let Target::Offer(place) = places.target else {
                unreachable!()
            };
            Some(Entry {
                place: places.account,
                asset: sell,
                amount: ledger.offer(place).amount,
            })
        }
        Kind::Create { .. } | Kind::Offer { .. } => None,
    }
}

// Puts what a transaction debits, which stands at these places, behind the debits that are pending.
fn hold_debit(
    debits: &mut Vec<Entry>,
    ledger: &Ledger,
    tx: &Tx,
    places: &Places,
) -> Result<(), NoMemory>
    requires passes { static_of ledger.now tx.now ≡ Ok tt }
    requires places { ArePlaces ledger.now tx.now places.now }
    requires by_id { IsStrictlyIncreasing (ids ledger.now.accounts) }
    ensures within { OnOk result (AreWithin (length ledger.now.accounts) (assets_of ledger.now) debits.old.items
        → AreWithin (length ledger.now.accounts) (assets_of ledger.now) debits.new.items) }
    ensures debits { OnOk result ((p account x : ℕ) → slice_get (ids ledger.now.accounts) p ≡ Some account
        → x < assets_of ledger.now
        → units_in debits.new.items p x ≡ units_in debits.old.items p x
        + posted (debit_by tx.now) account x) }
{
    if let Some(entry) = debit_of(ledger, tx, places) {
        debits.push(entry)?;
    }
    Ok(())
}

// Puts what a transaction credits, which stands at these places, behind the credits that are pending.
fn hold_credit(
    credits: &mut Vec<Entry>,
    ledger: &Ledger,
    tx: &Tx,
    places: &Places,
) -> Result<(), NoMemory>
    requires passes { static_of ledger.now tx.now ≡ Ok tt }
    requires places { ArePlaces ledger.now tx.now places.now }
    requires by_id { IsStrictlyIncreasing (ids ledger.now.accounts) }
    ensures within { OnOk result (AreWithin (length ledger.now.accounts) (assets_of ledger.now) credits.old.items
        → AreWithin (length ledger.now.accounts) (assets_of ledger.now) credits.new.items) }
    ensures credits { OnOk result ((p account x : ℕ) → slice_get (ids ledger.now.accounts) p ≡ Some account
        → x < assets_of ledger.now
        → units_in credits.new.items p x ≡ units_in credits.old.items p x
        + posted (credit_by ledger.now.offers tx.now) account x) }
{
    if let Some(entry) = credit_of(ledger, tx, places) {
        credits.push(entry)?;
    }
    Ok(())
}

/// Puts what a transaction debits and credits, which stands at these places, behind what is pending.
pub fn hold(
    pending: &mut Pending,
    ledger: &Ledger,
    tx: &Tx,
    places: &Places,
) -> Result<(), NoMemory>
    requires passes { static_of ledger.now tx.now ≡ Ok tt }
    requires places { ArePlaces ledger.now tx.now places.now }
    requires by_id { IsStrictlyIncreasing (ids ledger.now.accounts) }
    ensures { OnOk result ((before : List Transaction) (postings : AnyPostings)
        → HasPostingsWithPending ledger.now before pending.old postings
        → HasPostingsWithPending ledger.now (before ++ tx.now ∷ []) pending.new postings) }
{
    hold_debit(&mut pending.debits, ledger, tx, places)?;
    hold_credit(&mut pending.credits, ledger, tx, places)
}
