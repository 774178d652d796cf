//! What is kept of the ranges of accounts, once their candidates have been tested against each other.
//!
//! Candidates of two ranges have nothing in common but the accounts that they create. So only a candidate that creates an
//! account is tested once more.

ghost use Rattle.std.specs.Prelude.{◌≡◌, ◌≤◌, List, IfOk};
ghost use Rattle.std.specs.List.{filter as those};
ghost use Rattle.sx_filter.specs.Alone.{is_new};
ghost use Rattle.sx_filter.specs.Kept.{kept_of};
ghost use Rattle.sx_filter.specs.Named.{AreIds};
ghost use Rattle.sx_filter.specs.Joined.{AreSiftedParts};
ghost use Rattle.sx_filter.specs.Sifted.{in_lists};
ghost use Rattle.sx_ledger.specs.declared.parts.Parts.{Parts as Ledgers};
ghost use Rattle.sx_tx.specs.declared.tx.Tx.{Tx as Transaction};

use crate::joining::joined;
use crate::sift::{Seen, Sifted, is_id_taken};
use std::alloc::Global;
use std::thread::Threads;
use sx_bytes::NoMemory;
use sx_fork::for_each_mut;
use sx_tx::{Tx, TxList, TxParts};

// Leaves those that create no account that another candidate creates, in their order. Those before the first that goes
// stay where they are.
fn drop_taken(txs: &mut Vec<Tx>, ids: &Seen<u64>)
    ensures { (passed : List Transaction) → AreIds passed ids.now → txs.new.items ≡ those (is_new passed) txs.old.items }
{
    let mut kept = 0;
    for place in 0..txs.len() {
        let tx = txs[place];
        if !is_id_taken(ids, &tx) {
            if kept < place {
                txs[kept] = tx;
            }
            kept += 1;
        }
    }
    txs.truncate(kept);
}

// The same of each list, by so many threads.
fn drop_taken_of_each<R: Threads + Sync>(
    rt: &R,
    threads: usize,
    lists: &mut [Vec<Tx>],
    ids: &Seen<u64>,
)
    requires { 1 ≤ threads }
    ensures { (passed : List Transaction) → AreIds passed ids.now
        → in_lists lists.new ≡ those (is_new passed) (in_lists lists.old) }
{
    for_each_mut(
        rt,
        lists,
        threads,
        &|_: usize, txs: &mut Vec<Tx>|
            ensures { (passed : List Transaction) → AreIds passed ids.entry.now
                → txs.exit.now.items ≡ those (is_new passed) txs.entry.now.items }
        { drop_taken(txs, ids) },
    );
}

// The same, and nothing is looked at where no account is created.
fn drop_taken_where_any<R: Threads + Sync>(
    rt: &R,
    threads: usize,
    lists: &mut [Vec<Tx>],
    ids: &Seen<u64>,
)
    requires { 1 ≤ threads }
    ensures { (passed : List Transaction) → AreIds passed ids.now
        → in_lists lists.new ≡ those (is_new passed) (in_lists lists.old) }
{
    if !ids.is_empty() {
        drop_taken_of_each(rt, threads, lists, ids);
    }
}

// The lists as parts of one.
fn parts_of_lists(alloc: Global, lists: Vec<Vec<Tx>>) -> Result<TxParts, NoMemory>
    ensures { IfOk result (λ all. all ≡ in_lists lists.items) }
{
    let mut parts = Vec::with_capacity(alloc, lists.len())?;
    for txs in lists {
        parts.push(TxList::of(txs))?;
    }
    Ok(TxParts::of(parts))
}

// What is kept of candidates, of which these were sifted by ranges of accounts. There are as many threads as ranges.
pub(crate) fn kept_in_parts<R: Threads + Sync>(
    rt: &R,
    alloc: Global,
    all: Vec<Sifted>,
) -> Result<TxParts, NoMemory>
    ensures { (parts : Ledgers) (candidates : List Transaction) → AreSiftedParts parts candidates all.items
        → IfOk result (λ kept. kept ≡ kept_of parts candidates) }
{
    let threads = all.len().max(1);
    let Sifted { fit, ids } = joined(alloc, all)?;
    let mut lists = fit;
    drop_taken_where_any(rt, threads, &mut lists, &Seen::of(ids.into_items()));
    parts_of_lists(alloc, lists)
}
