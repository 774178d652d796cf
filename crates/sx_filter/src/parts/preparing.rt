//! Candidates by ranges of accounts, and what they would add.

ghost use Rattle.std.specs.Prelude.{◌≤◌, length, IfOk};
ghost use Rattle.std.specs.List.{flat_map};
ghost use Rattle.sx_filter.specs.ByRange.{IsPrepared};
ghost use Rattle.sx_tx.specs.Transactions.{most_transactions};

use crate::parts::by_range::{ByRange, parts_by_range};
use crate::parts::counting::{count_of, together};
use crate::parts::ranges::cuts_of;
use std::alloc::Global;
use std::thread::Threads;
use sx_bytes::NoMemory;
use sx_ledger::Ledger;
use sx_outcome::Additions;
use sx_tx::{TxList, TxParts};

/// Candidates by ranges of accounts, of which these are the cuts, and what all of them would add.
#[derive(Debug, Drop)]
pub struct Prepared {
    pub cuts: Vec<u64>,
    pub parts: Vec<ByRange>,
    pub more: Additions,
}

// Candidates in lists by ranges between these cuts, which so many threads share.
fn prepared_by<R: Threads + Sync>(
    rt: &R,
    alloc: Global,
    lists: &[TxList],
    cuts: Vec<u64>,
    threads: usize,
) -> Result<Prepared, NoMemory>
    requires some { 1 ≤ threads }
    requires few { length (flat_map (λ list. list) lists.now) ≤ most_transactions }
    ensures { IfOk result (IsPrepared (flat_map (λ list. list) lists.now)) }
{
    let parts = parts_by_range(rt, alloc, lists, &cuts, threads)?;
    let mut more = Additions {
        accounts: 0,
        offers: 0,
    };
    for part in &parts {
        more = together(more, part.more);
    }
    Ok(Prepared { cuts, parts, more })
}

/// Candidates by as many ranges as so many workers are worth.
pub fn prepared_of<R: Threads + Sync>(
    rt: &R,
    alloc: Global,
    ledger: &Ledger,
    candidates: &TxParts,
    workers: u32,
) -> Result<Prepared, NoMemory>
    requires some_worker { 1 ≤ workers }
    requires few { length candidates.now ≤ most_transactions }
    ensures { IfOk result (IsPrepared candidates.now) }
{
    let lists = candidates.parts();
    let cuts = cuts_of(alloc, ledger, count_of(lists), workers)?;
    prepared_by(rt, alloc, lists, cuts, workers as usize)
}
