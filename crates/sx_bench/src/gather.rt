//! Candidates are gathered by workers.

ghost use Rattle.std.specs.Prelude.{◌≤◌, length, IfSome};
ghost use Rattle.sx_tx.specs.Transactions.{most_transactions};

use crate::records::record;
use crate::report::ROUNDS;
use anyhow::{Result, bail, ensure};
use std::alloc::Global;
use std::rt::Clock;
use std::thread::Threads;
use std::time::Instant;
use sx_base::Source;
use sx_ledger::Ledger;
use sx_record::tag;
use sx_state::read_state;
use sx_tx::{TxList, read_candidates};
use sx_workers::{NoGate, gather_all};

pub const NAME: &str = "gather";

pub const WHAT: &str = "gathers the candidates that are read after their state, by WORKERS workers";

const SHARDS: u32 = 16;

const MOST_WORKERS: u32 = 64;

// A ledger and candidates.
#[derive(Drop)]
struct Input {
    ledger: Ledger,
    candidates: TxList,
}

fn read_input<S: Source>(alloc: Global, source: &mut S) -> Option<Input>
    ensures few { IfSome result (λ input. length input.candidates ≤ most_transactions) }
{
    let state = record(alloc, source, tag::STATE)?;
    let candidates = record(alloc, source, tag::CANDIDATES)?;
    Some(Input {
        ledger: read_state(alloc, state.payload.items()).ok()?,
        candidates: read_candidates(alloc, candidates.payload.items()).ok()?,
    })
}

// The nanoseconds that it takes, and how many candidates are accepted.
fn gather_once<R: Threads + Sync + Clock + AllocGlobal>(
    rt: &R,
    input: &Input,
    workers: u32,
) -> Result<(u128, usize)>
    requires few_candidates { length input.now.candidates ≤ most_transactions }
    requires some_worker { 1 ≤ workers }
    requires few_workers { workers ≤ 64 }
{
    let candidates = input.candidates.items();
    let start = Instant::now(rt)?;
    let sealed = gather_all(
        rt,
        rt.alloc(),
        &input.ledger,
        candidates,
        SHARDS,
        workers,
        &NoGate,
    )?;
    let nanoseconds = start.elapsed(rt)?.as_nanos();
    Ok((nanoseconds, sealed.txs.items().len()))
}

/// Reads a state and candidates, and prints the least time of several runs in nanoseconds and how many
/// candidates are accepted.
pub fn measure<R: Threads + Sync + Clock + Print + AllocGlobal, S: Source>(
    rt: &R,
    source: &mut S,
    workers: u32,
) -> Result<()> {
    ensure!(
        1 <= workers && workers <= MOST_WORKERS,
        "from 1 to {MOST_WORKERS} workers"
    );
    let Some(input) = read_input(rt.alloc(), source) else {
        bail!("no state and no candidates");
    };
    let mut least = u128::MAX;
    let mut accepted = 0;
    for _ in 0..ROUNDS {
        let (nanoseconds, count) = gather_once(rt, &input, workers)?;
        least = least.min(nanoseconds);
        accepted = count;
    }
    println!(rt; "{NAME} {workers} {least} ns {accepted} accepted")?;
    Ok(())
}
