//! The candidates of each part by ranges of accounts, and what they would add: a thread goes over a part once.

ghost use Rattle.std.specs.Prelude.{◌≡◌, ℕ, ◌+◌, ◌<◌, ◌≤◌, ◌++◌, List, IfOk, OnOk, length, slice_index_or};
ghost use Rattle.std.specs.List.{filter as those, flat_map};
ghost use Rattle.sx_filter.specs.Additions.{AreAdditions};
ghost use Rattle.sx_filter.specs.ByRange.{AreByRange, IsByRange};
ghost use Rattle.sx_filter.specs.Ranges.{is_in};
ghost use Rattle.sx_filter.specs.Sifted.{TxVec};
ghost use Rattle.sx_tx.specs.declared.tx.Tx.{Tx as Transaction};
ghost use Rattle.sx_tx.specs.Transactions.{most_transactions};

use crate::parts::counting::together;
use crate::parts::lists::{empty_lists, put};
use crate::parts::ranges::range_of;
use std::alloc::Global;
use std::slice::from_ref;
use std::thread::Threads;
use sx_bytes::{NoMemory, all_of};
use sx_fork::for_each_mut;
use sx_outcome::{Additions, additions_of};
use sx_tx::{Tx, TxList};

/// The candidates of a part, of each range those in it, and what all of them would add.
#[derive(Debug, Drop)]
pub struct ByRange {
    pub lists: Vec<Vec<Tx>>,
    pub more: Additions,
}

// Puts candidates behind those that are there, each into the list of its range, and counts what they would add.
fn put_each(list: &[Tx], cuts: &[u64], lists: &mut [Vec<Tx>]) -> Result<Additions, NoMemory>
    requires few { length list.now ≤ most_transactions }
    requires one_each { length lists.old ≡ length cuts.now + 1 }
    ensures one_each { length lists.new ≡ length cuts.now + 1 }
    ensures each { OnOk result ((range : ℕ) (d : TxVec) → range < length cuts.now + 1
        → (slice_index_or lists.new range d).items
        ≡ (slice_index_or lists.old range d).items ++ those (is_in cuts.now range) list.now) }
    ensures more { IfOk result (AreAdditions list.now) }
{
    let mut more = Additions {
        accounts: 0,
        offers: 0,
    };
    for tx in list {
        let one = additions_of(from_ref(tx));
        more = together(more, one);
        put(lists, range_of(cuts, tx.account.0), tx)?;
    }
    Ok(more)
}

fn by_range(alloc: Global, list: &[Tx], cuts: &[u64]) -> Result<ByRange, NoMemory>
    requires { length list.now ≤ most_transactions }
    ensures { IfOk result (IsByRange cuts.now list.now) }
{
    let mut lists = empty_lists(alloc, cuts.len() + 1, list.len())?;
    let more = put_each(list, cuts, &mut lists)?;
    Ok(ByRange { lists, more })
}

// The same of the part at a place, if there is one.
fn part_by_range(
    alloc: Global,
    parts: &[TxList],
    place: usize,
    cuts: &[u64],
) -> Result<ByRange, NoMemory>
    requires { length (flat_map (λ part. part) parts.now) ≤ most_transactions }
    ensures { IfOk result (λ found. (d : List Transaction) → IsByRange cuts.now (slice_index_or parts.now place d) found) }
{
    match parts.get(place) {
        Some(part) => by_range(alloc, part.items(), cuts),
        None => Err(NoMemory),
    }
}

// So many places for what threads find.
fn places_for(alloc: Global, count: usize) -> Result<Vec<Result<ByRange, NoMemory>>, NoMemory>
    ensures { IfOk result (λ places. length places.items ≡ count) }
{
    let mut places = Vec::with_capacity(alloc, count)?;
    for _ in 0..count {
        places.push(Err(NoMemory))?;
    }
    Ok(places)
}

// The same of all parts. So many threads share them.
pub(crate) fn parts_by_range<R: Threads + Sync>(
    rt: &R,
    alloc: Global,
    parts: &[TxList],
    cuts: &[u64],
    threads: usize,
) -> Result<Vec<ByRange>, NoMemory>
    requires some { 1 ≤ threads }
    requires few { length (flat_map (λ part. part) parts.now) ≤ most_transactions }
    ensures { IfOk result (λ all. AreByRange cuts.now parts.now all.items) }
{
    let mut results = places_for(alloc, parts.len())?;
    for_each_mut(
        rt,
        &mut results,
        threads,
        &|place: usize, answer: &mut Result<ByRange, NoMemory>|
            requires { length (flat_map (λ part. part) parts.now) ≤ most_transactions }
            ensures { IfOk answer.exit.now (λ found. (d : List Transaction) → IsByRange cuts.entry.now (slice_index_or parts.entry.now place d) found) }
        { *answer = part_by_range(alloc, parts, place, cuts) },
    );
    all_of(alloc, results)
}
