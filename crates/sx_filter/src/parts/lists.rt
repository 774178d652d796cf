//! Lists of candidates, one for each class of accounts, which a loop fills.

ghost use Rattle.std.specs.Prelude.{◌≡◌, ℕ, ◌<◌, ◌≤◌, ◌++◌, [], ◌∷◌, IfOk, OnOk, length, slice_index_or, vec_len};
ghost use Rattle.sx_filter.specs.Sifted.{TxVec};

use std::alloc::Global;
use sx_bytes::NoMemory;
use sx_tx::Tx;

/// So many empty lists, each with memory for its share of so many candidates and an eighth more. Where the classes are
/// about even, they do not grow.
pub fn empty_lists(alloc: Global, count: usize, candidates: usize) -> Result<Vec<Vec<Tx>>, NoMemory>
    requires { 1 ≤ count }
    ensures one_each { IfOk result (λ lists. vec_len lists ≡ count) }
    ensures empty { IfOk result (λ lists. (k : ℕ) (d : TxVec) → k < count
        → (slice_index_or lists.items k d).items ≡ []) }
{
    let share = candidates / count;
    let room = share.saturating_add(share / 8);
    let mut lists = Vec::with_capacity(alloc, count)?;
    for _ in 0..count {
        lists.push(Vec::with_capacity(alloc, room)?)?;
    }
    Ok(lists)
}

/// Puts a candidate after those of a list.
pub fn put(lists: &mut [Vec<Tx>], place: usize, tx: &Tx) -> Result<(), NoMemory>
    requires { place < length lists.old }
    ensures one_each { length lists.new ≡ length lists.old }
    ensures here { OnOk result ((d : TxVec)
        → (slice_index_or lists.new place d).items ≡ (slice_index_or lists.old place d).items ++ tx.now ∷ []) }
    ensures others { (k : ℕ) (d : TxVec) → (k ≡ place → ⊥)
        → slice_index_or lists.new k d ≡ slice_index_or lists.old k d }
{
    // Taken apart, since the check knows how to move a kind only where one is named.
    let Tx { account, seq, kind } = *tx;
    lists[place].push(Tx { account, seq, kind })?;
    Ok(())
}
