//! What was sifted of classes of accounts, taken together.

ghost use Rattle.std.specs.Prelude.{◌≡◌, ℕ, ◌<◌, IfOk, slice_index_or, vec_len};
ghost use Rattle.sx_filter.specs.Joined.{IsJoined};
ghost use Rattle.sx_ledger.specs.Ledger.{ids as accounts_of};
ghost use Rattle.sx_filter.specs.Sifted.{IsSifted, TxVec};

use crate::sift::{Ids, Sifted, sift};
use std::alloc::Global;
use sx_bytes::NoMemory;
use sx_ledger::{Ledger, LedgerIndex};
use sx_tx::Tx;

// Sifts the candidates of each list.
pub(crate) fn each_sifted(
    alloc: Global,
    ledger: &Ledger,
    index: &LedgerIndex,
    lists: Vec<Vec<Tx>>,
) -> Result<Vec<Sifted>, NoMemory>
    requires { index.now ≡ accounts_of ledger.now.accounts }
    ensures one_each { IfOk result (λ all. vec_len all ≡ vec_len lists) }
    ensures each { IfOk result (λ all. (k : ℕ) (c : TxVec) (d : Sifted) → k < vec_len lists
        → IsSifted ledger.now (slice_index_or lists.items k c).items (slice_index_or all.items k d)) }
{
    let mut all = Vec::with_capacity(alloc, lists.len())?;
    for txs in lists {
        all.push(sift(alloc, ledger, index, txs)?)?;
    }
    Ok(all)
}

// What was sifted of all classes, as one.
pub(crate) fn joined(alloc: Global, all: Vec<Sifted>) -> Result<Sifted, NoMemory>
    ensures { IfOk result (IsJoined all.items) }
{
    let mut fit = Vec::new(alloc);
    let mut ids = Vec::new(alloc);
    for mut one in all {
        fit.append(&mut one.fit)?;
        ids.extend_from_slice(one.ids.items())?;
    }
    let ids = Ids::of(ids);
    Ok(Sifted { fit, ids })
}
