//! The candidates of some accounts, sorted, put to the ledger's test and then tested against each other.

ghost use Rattle.std.specs.Prelude.{◌≡◌, IfOk};
ghost use Rattle.std.specs.List.Sorted.{IsPermutation, IsSortedBy};
ghost use Rattle.sx_filter.specs.Kept.{passing};
ghost use Rattle.sx_filter.specs.Sifted.{IsSifted};
ghost use Rattle.sx_ledger.specs.Body.{tx_before};
ghost use Rattle.sx_ledger.specs.Ledger.{ids as accounts_of};

use crate::sift::fitting::fit;
use crate::sift::named::{Ids, Names, names_of};
use crate::sift::seen::Seen;
use std::alloc::Global;
use sx_bytes::NoMemory;
use sx_ledger::{Ledger, LedgerIndex};
use sx_outcome::sort_txs;
use sx_tx::Tx;

/// Of the candidates of some accounts that pass, those that none of them stands in the way of, in lists one after the
/// other, and the ids of the accounts that any of them create. A candidate of another account may create the same one.
#[derive(Debug, Drop)]
pub struct Sifted {
    pub fit: Vec<Vec<Tx>>,
    pub ids: Ids,
}

// Sorts transactions by account and then by number.
fn sort(txs: &mut Vec<Tx>)
    ensures moves { IsPermutation txs.old.items txs.new.items }
    ensures sorted { IsSortedBy tx_before txs.new.items }
{
    sort_txs(txs);
}

// Leaves those that the ledger passes, in their order. Each account is looked for near the one before it.
fn drop_refused(ledger: &Ledger, index: &LedgerIndex, txs: &mut Vec<Tx>)
    requires { index.now ≡ accounts_of ledger.now.accounts }
    ensures { txs.new.items ≡ passing ledger.now txs.old.items }
{
    let mut near = 0;
    let mut kept = 0;
    for place in 0..txs.len() {
        let tx = txs[place];
        if let Ok(places) = ledger.places_of(index, near, &tx) {
            near = places.account;
            txs[kept] = tx;
            kept += 1;
        }
    }
    txs.truncate(kept);
}

/// Sifts candidates in their own memory: of those that pass, sorted by account and then by number, the ones that no other
/// of them stands in the way of, in one list.
pub fn sift(
    alloc: Global,
    ledger: &Ledger,
    index: &LedgerIndex,
    candidates: Vec<Tx>,
) -> Result<Sifted, NoMemory>
    requires { index.now ≡ accounts_of ledger.now.accounts }
    ensures { IfOk result (IsSifted ledger.now candidates.items) }
{
    let mut txs = candidates;
    sort(&mut txs);
    drop_refused(ledger, index, &mut txs);
    let Names { offers, ids } = names_of(alloc, &txs)?;
    let mut lists = Vec::with_capacity(alloc, 1)?;
    lists.push(fit(alloc, ledger, index, txs, &Seen::of(offers))?)?;
    Ok(Sifted { fit: lists, ids })
}
