//! The offers that candidates cancel, and the accounts that they create.

ghost use Rattle.std.specs.Prelude.{◌≡◌, ◌++◌, [], ◌∷◌, List, IfOk, OnOk};
ghost use Rattle.sx_filter.specs.Alone.{is_twice};
ghost use Rattle.sx_filter.specs.Cancellations.{cancellations};
ghost use Rattle.sx_filter.specs.Kept.{same_id, same_offer};
ghost use Rattle.sx_filter.specs.Named.{AreIds, AreOffers};
ghost use Rattle.sx_ledger.specs.Body.{created};
ghost use Rattle.sx_tx.specs.declared.tx.Tx.{Tx as Transaction};

use crate::sift::cancellation::Cancellation;
use crate::sift::kinds::{cancelled_key, created_id};
use crate::sift::seen::Seen;
use std::alloc::Global;
use sx_bytes::{ListOf, NoMemory};
use sx_tx::Tx;

/// Ids of accounts.
pub type Ids = ListOf<u64>;

// What candidates name: the offers that they cancel, and the ids of the accounts that they create.
#[derive(Debug, Drop)]
pub(crate) struct Names {
    pub(crate) offers: Vec<Cancellation>,
    pub(crate) ids: Ids,
}

// Puts what a candidate names behind what those before it do.
fn note(tx: &Tx, offers: &mut Vec<Cancellation>, ids: &mut Vec<u64>) -> Result<(), NoMemory>
    ensures offers { OnOk result (offers.new.items ≡ offers.old.items ++ cancellations (tx.now ∷ [])) }
    ensures ids { OnOk result (ids.new.items ≡ ids.old.items ++ created (tx.now ∷ [])) }
{
    if let Some(key) = cancelled_key(tx) {
        offers.push(Cancellation::of(key))?;
    }
    if let Some(id) = created_id(tx) {
        ids.push(id)?;
    }
    Ok(())
}

// What some candidates name, looked for in one pass.
pub(crate) fn names_of(alloc: Global, txs: &[Tx]) -> Result<Names, NoMemory>
    ensures offers { IfOk result (λ names. names.offers.items ≡ cancellations txs.now) }
    ensures ids { IfOk result (λ names. names.ids ≡ created txs.now) }
{
    let mut offers = Vec::new(alloc);
    let mut ids = Vec::new(alloc);
    for tx in txs {
        note(tx, &mut offers, &mut ids)?;
    }
    let ids = Ids::of(ids);
    Ok(Names { offers, ids })
}

// Whether another candidate cancels the offer that this one cancels.
pub(crate) fn is_offer_taken(offers: &Seen<Cancellation>, tx: &Tx) -> bool
    ensures { (txs : List Transaction) → AreOffers txs offers.now → result ≡ is_twice (same_offer tx.now) txs }
{
    match cancelled_key(tx) {
        Some(key) => offers.is_again(Cancellation::of(key)),
        None => false,
    }
}

/// Whether another candidate creates the account that this one creates.
pub fn is_id_taken(ids: &Seen<u64>, tx: &Tx) -> bool
    ensures { (txs : List Transaction) → AreIds txs ids.now → result ≡ is_twice (same_id tx.now) txs }
{
    match created_id(tx) {
        Some(id) => ids.is_again(id),
        None => false,
    }
}
