//! Which worker has which candidates, and its pass.

ghost use Rattle.std.specs.Prelude.{◌≡◌, ◌+◌, ◌<◌, ◌≤◌, length, max, vec_len, IfOk};
ghost use Rattle.sx_gather.specs.Passes.{IsPassOf};
ghost use Rattle.sx_script.specs.Actors.{working as at_work, part_begin as the_begin};
ghost use Rattle.sx_tx.specs.Transactions.{most_transactions};
ghost use Rattle.sx_workers.specs.Passing.{AreHeld, IsWaiting};

use std::alloc::Global;
use sx_bytes::NoMemory;
use sx_gather::{Gather, Pass};

// How many workers work: as many as there are candidates for, and at least one.
pub fn working(workers: u32, count: u32) -> u32
    ensures { result ≡ at_work workers count }
{
    workers.min(count).max(1)
}

// Where the part of a worker begins. It ends where the next one's begins.
fn part_begin(count: u32, n: u32, k: u32) -> u32
    requires count { count ≤ most_transactions }
    requires some { 1 ≤ n }
    requires few { n ≤ 64 }
    requires within { k ≤ n }
    ensures begin { result ≡ the_begin count n k }
    ensures within { result ≤ count }
{
    count * k / n
}

// A pass for each worker, of which the last has the first part. It may answer `NoMemory`.
pub fn split_all(
    alloc: Global,
    gather: &Gather,
    mut first: Pass,
    count: u32,
    n: u32,
) -> Result<Vec<Option<Pass>>, NoMemory>
    requires count { count ≡ length gather.now.candidates }
    requires few_candidates { count ≤ most_transactions }
    requires some { 1 ≤ n }
    requires few { n ≤ 64 }
    requires enough { n ≤ max 1 count }
    requires of { IsPassOf gather.now first }
    requires range { (first.from ≡ 0) × (first.next ≡ 0) × (first.end ≡ count) }
    requires spare { first.spare ≡ count }
    ensures one_each { IfOk result (λ slots. vec_len slots ≡ n) }
    ensures waiting { IfOk result (λ slots. AreHeld (IsWaiting gather.now n) n slots.items) }
{
    let mut slots = Vec::with_capacity(alloc, n as usize)?;
    for made in 1..n {
        let at = part_begin(count, n, n - made);
        slots.push(Some(gather.split(&mut first, at)?))?;
    }
    slots.push(Some(first))?;
    Ok(slots)
}
