//! The candidates that pass the ledger's test, sorted and sifted, by ranges of accounts: a thread sees to each range.

ghost use Rattle.std.specs.Prelude.{◌≡◌, ℕ, ◌<◌, ◌++◌, IfOk, OnOk, length, slice_index_or, vec_len};
ghost use Rattle.sx_filter.specs.Bands.{AreBands, in_band};
ghost use Rattle.sx_filter.specs.SiftedRanges.{AreSiftedRanges};
ghost use Rattle.sx_filter.specs.ByRange.{piece, pieces};
ghost use Rattle.sx_filter.specs.Sifted.{IsSifted, TxVec};
ghost use Rattle.sx_ledger.specs.Ledger.{ids};

use crate::bands::{Bands, bands_of};
use crate::joining::{each_sifted, joined};
use crate::parts::{ByRange, empty_lists, put};
use crate::sift::Sifted;
use std::alloc::Global;
use std::thread::Threads;
use sx_bytes::{NoMemory, all_of};
use sx_fork::map_indices;
use sx_ledger::{Ledger, LedgerIndex};
use sx_tx::Tx;

// The candidates of a part that are in a range.
fn list_in(part: &ByRange, range: usize) -> &[Tx]
    ensures { result.now ≡ piece range part.now }
{
    match part.lists.get(range) {
        Some(list) => list.as_slice(),
        None => &[],
    }
}

// How many candidates of a range stand in all parts. Only time rests on it.
fn count_in(parts: &[ByRange], range: usize) -> usize {
    let mut count: usize = 0;
    for part in parts {
        count = count.saturating_add(list_in(part, range).len());
    }
    count
}

// Puts candidates behind those that are there, each into the list of its band.
fn select_from(list: &[Tx], bands: &Bands, lists: &mut [Vec<Tx>]) -> Result<(), NoMemory>
    requires bands { AreBands bands.now }
    requires one_each { length lists.old ≡ bands.now.count }
    ensures one_each { length lists.new ≡ bands.now.count }
    ensures each { OnOk result ((band : ℕ) (d : TxVec) → band < bands.now.count
        → (slice_index_or lists.new band d).items
        ≡ (slice_index_or lists.old band d).items ++ in_band bands.now band list.now) }
{
    for tx in list {
        put(lists, bands.band_of(tx.account.0), tx)?;
    }
    Ok(())
}

// The candidates of a range, of each band those in it.
fn select(
    alloc: Global,
    parts: &[ByRange],
    range: usize,
    bands: &Bands,
    count: usize,
) -> Result<Vec<Vec<Tx>>, NoMemory>
    requires { AreBands bands.now }
    ensures one_each { IfOk result (λ lists. vec_len lists ≡ bands.now.count) }
    ensures each { IfOk result (λ lists. (band : ℕ) (d : TxVec) → band < bands.now.count
        → (slice_index_or lists.items band d).items ≡ in_band bands.now band (pieces range parts.now)) }
{
    let mut lists = empty_lists(alloc, bands.count, count)?;
    for part in parts {
        select_from(list_in(part, range), bands, &mut lists)?;
    }
    Ok(lists)
}

// The candidates of a range that pass, sorted and sifted, one band after the other.
fn sifted_range(
    alloc: Global,
    ledger: &Ledger,
    index: &LedgerIndex,
    parts: &[ByRange],
    cuts: &[u64],
    range: usize,
) -> Result<Sifted, NoMemory>
    requires index { index.now ≡ ids ledger.now.accounts }
    ensures { IfOk result (IsSifted ledger.now (pieces range parts.now)) }
{
    let count = count_in(parts, range);
    let bands = bands_of(ledger, cuts, range, count);
    let lists = select(alloc, parts, range, &bands, count)?;
    joined(alloc, each_sifted(alloc, ledger, index, lists)?)
}

// Of each range the candidates that pass, sorted and sifted. A thread sees to each range.
pub(crate) fn sifted_ranges<R: Threads + Sync>(
    rt: &R,
    alloc: Global,
    ledger: &Ledger,
    index: &LedgerIndex,
    parts: &[ByRange],
    cuts: &[u64],
) -> Result<Vec<Sifted>, NoMemory>
    requires index { index.now ≡ ids ledger.now.accounts }
    ensures { IfOk result (λ all. AreSiftedRanges ledger.now cuts.now parts.now all.items) }
{
    let results = map_indices(
        rt,
        alloc,
        cuts.len() + 1,
        &|range: usize| -> Result<Sifted, NoMemory>
            requires { index.now ≡ ids ledger.now.accounts }
            ensures { IfOk result (IsSifted ledger.entry.now (pieces range parts.entry.now)) }
        { sifted_range(alloc, ledger, index, parts, cuts, range) },
    )?;
    all_of(alloc, results)
}
