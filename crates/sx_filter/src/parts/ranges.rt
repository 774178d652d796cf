//! Ranges of accounts, so that each thread has the candidates of a range to itself.

ghost use Rattle.std.specs.Prelude.{◌≡◌, ◌+◌, ◌<◌, ◌≤◌, length};
ghost use Rattle.sx_filter.specs.Ranges.{range_among};

use std::alloc::Global;
use sx_bytes::NoMemory;
use sx_ledger::Ledger;

// The most ranges.
const MOST_RANGES: usize = 8;

// How many candidates are worth a range, and so a thread, of their own.
const WORTH_A_RANGE: usize = 4_096;

// Into how many ranges the accounts of so many candidates are cut.
fn range_count(candidates: usize, workers: u32) -> usize
    ensures some { 1 ≤ result }
{
    (candidates / WORTH_A_RANGE)
        .min(workers as usize)
        .clamp(1, MOST_RANGES)
}

// The ids at which the accounts are cut into ranges, each the lowest of its range: those that accounts of the ledger
// have at even places. Only time rests on where they are cut.
pub(crate) fn cuts_of(
    alloc: Global,
    ledger: &Ledger,
    candidates: usize,
    workers: u32,
) -> Result<Vec<u64>, NoMemory> {
    let ranges = range_count(candidates, workers);
    let accounts = ledger.parts().accounts.items();
    let step = accounts.len() / ranges;
    let mut cuts = Vec::new(alloc);
    for range in 1..ranges {
        if let Some(account) = accounts.get(step.saturating_mul(range)) {
            cuts.push(account.id.0)?;
        }
    }
    Ok(cuts)
}

// In which range an account lies: how many of the cuts are not above it.
pub(crate) fn range_of(cuts: &[u64], account: u64) -> usize
    ensures within { result < length cuts.now + 1 }
    ensures is { result ≡ range_among cuts.now account }
{
    let mut range = 0;
    for cut in cuts {
        if *cut <= account {
            range += 1;
        }
    }
    range
}
