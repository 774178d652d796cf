//! The ids of the accounts that candidates create.

ghost use Rattle.std.specs.Prelude.{◌≡◌, ◌≤◌, length, IfOk};
ghost use Rattle.std.specs.List.Sorted.{IsStrictlyIncreasing};
ghost use Rattle.sx_layout.specs.NewIds.{new_ids as all_new_ids};
ghost use Rattle.sx_ledger.specs.Body.{created, created_by};

use std::alloc::Global;
use sx_bytes::NoMemory;
use sx_tx::{Kind, Tx};

// The id of the account that a candidate creates.
fn created_id(tx: &Tx) -> Option<u64>
    ensures { result ≡ created_by tx.now.kind }
{
    match tx.kind {
        Kind::Create { id } => Some(id.0),
        Kind::Pay { .. } | Kind::Offer { .. } | Kind::Cancel { .. } => None,
    }
}

// The ids of the accounts that are created, in the order of the candidates.
fn created_ids(alloc: Global, candidates: &[Tx]) -> Result<Vec<u64>, NoMemory>
    ensures { IfOk result (λ ids. ids.items ≡ created candidates.now) }
{
    let ids = candidates
        .iter()
        .filter_map(|tx| created_id(tx))
        .collect(alloc)?;
    Ok(ids)
}

// The new ids in order, each once.
pub fn new_ids(alloc: Global, candidates: &[Tx]) -> Result<Vec<u64>, NoMemory>
    ensures ids { IfOk result (λ ids. ids.items ≡ all_new_ids candidates.now) }
    ensures rise { IfOk result (λ ids. IsStrictlyIncreasing ids.items) }
    ensures few { IfOk result (λ ids. length ids.items ≤ length candidates.now) }
{
    let mut ids = created_ids(alloc, candidates)?;
    ids.sort_unstable();
    ids.dedup();
    Ok(ids)
}
