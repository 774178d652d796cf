//! Gathering by threads: candidates that exclude each other, and whether threads run at the same time.

ghost use Rattle.std.specs.Prelude.{◌≤◌, length};
ghost use Rattle.sx_tx.specs.Transactions.{most_transactions};

use crate::markets::{cancel, create, one_offer, pay, two_accounts};
use std::alloc::Global;
use std::sync::atomic::{AtomicBool, Ordering};
use std::thread::Threads;
use sx_outcome::Outcome;
use sx_state::read_state;
use sx_tx::{Tx, TxList};
use sx_workers::{Gate, NoGate, gather_all, gather_list};

// How often each gathering is repeated.
const TIMES: u32 = 100;

// How often a worker looks for the other one.
const LOOKS: u32 = 100_000_000;

const SHARDS: u32 = 2;

fn debits() -> Option<[Tx; 2]> {
    Some([pay(1, 1, 2, 60)?, pay(1, 2, 2, 60)?])
}

// Each of the first four excludes the one four places after it, which another of four workers has.
fn pairs() -> Option<[Tx; 8]> {
    Some([
        pay(2, 1, 2, 60)?,
        cancel(4)?,
        create(1, 6, 9)?,
        pay(3, 2, 2, 101)?,
        pay(2, 2, 2, 60)?,
        cancel(5)?,
        create(3, 1, 9)?,
        pay(3, 2, 2, 5)?,
    ])
}

// What may become of the first of a pair and of the second: the account spends 60 of 100 units twice, the offer
// is cancelled twice, the account is created twice, and 101 of 100 units are paid beside 5 under one sequence number.
fn is_allowed(pair: usize, first: Outcome, second: Outcome) -> bool {
    match (pair, first, second) {
        (0, Outcome::Accepted, Outcome::Overdraft { seen, need }) => seen == 40 && need == 60,
        (0, Outcome::Overdraft { seen, need }, Outcome::Accepted) => seen == 40 && need == 60,
        (1, Outcome::Accepted, Outcome::OfferTaken) => true,
        (1, Outcome::OfferTaken, Outcome::Accepted) => true,
        (2, Outcome::Accepted, Outcome::NameTaken) => true,
        (2, Outcome::NameTaken, Outcome::Accepted) => true,
        (3, Outcome::Overdraft { seen, need }, Outcome::SeqTaken) => seen == 100 && need == 101,
        (3, Outcome::SeqTaken, Outcome::Accepted) => true,
        _ => false,
    }
}

// Whether the outcomes are those of the first so many pairs.
fn are_allowed(outcomes: &[Outcome]) -> bool {
    let (first, second) = outcomes.split_at(outcomes.len() / 2);
    for (pair, (one, other)) in first.iter().zip(second).enumerate() {
        if !is_allowed(pair, *one, *other) {
            return false;
        }
    }
    true
}

// Whether what workers make of these pairs is allowed, in a copy and in the memory of a list.
fn gathers<R: Threads + Sync, G: Gate + Sync>(
    rt: &R,
    alloc: Global,
    state: &[u8],
    candidates: &[Tx],
    workers: u32,
    gate: &G,
) -> Option<bool>
    requires few_candidates { length candidates.now ≤ most_transactions }
    requires some_worker { 1 ≤ workers }
    requires few_workers { workers ≤ 64 }
{
    let ledger = read_state(alloc, state).ok()?;
    let list = TxList::of(candidates.to_vec(alloc).ok()?);
    let sealed = gather_all(rt, alloc, &ledger, candidates, SHARDS, workers, gate).ok()?;
    let other = gather_list(rt, alloc, &ledger, list, SHARDS, workers, gate).ok()?;
    let outcomes = sealed.outcomes.to_list(alloc).ok()?;
    let others = other.outcomes.to_list(alloc).ok()?;
    Some(are_allowed(outcomes.items()) && are_allowed(others.items()))
}

// Two workers with the debits, and four with the pairs.
fn both_gather<R: Threads + Sync>(rt: &R, alloc: Global) -> Option<bool> {
    let debits = debits()?;
    let pairs = pairs()?;
    let two = gathers(rt, alloc, &two_accounts(), &debits, 2, &NoGate)?;
    let four = gathers(rt, alloc, &one_offer(), &pairs, 4, &NoGate)?;
    Some(two && four)
}

#[test]
fn one_of_two_is_accepted(rt: HostRuntime) {
    for _ in 0..TIMES {
        assert!(rt; both_gather(&rt, rt.alloc()) == Some(true));
    }
}

// What one of two workers tells the other.
#[derive(Drop)]
struct Side {
    here: AtomicBool,
    met: AtomicBool,
}

impl Side {
    fn new() -> Side {
        Side {
            here: AtomicBool::new(false),
            met: AtomicBool::new(false),
        }
    }

    // Before its first candidate a worker says that it is here, and looks for the other one.
    fn meet(&self, other: &Side) {
        if self.here.swap(true, Ordering::SeqCst) {
            return;
        }
        for _ in 0..LOOKS {
            if other.here.load(Ordering::SeqCst) {
                self.met.store(true, Ordering::SeqCst);
                return;
            }
        }
    }

    fn has_met(&self) -> bool {
        self.met.load(Ordering::SeqCst)
    }
}

// The sides of two workers.
#[derive(Drop)]
struct Meeting {
    one: Side,
    other: Side,
}

impl Gate for Meeting {
    fn before(&self, worker: u32, _index: u32) {
        match worker {
            0 => self.one.meet(&self.other),
            _ => self.other.meet(&self.one),
        }
    }
}

// Whether two workers gather, and each meets the other.
fn both_meet<R: Threads + Sync>(rt: &R, alloc: Global) -> Option<bool> {
    let debits = debits()?;
    let meeting = Meeting {
        one: Side::new(),
        other: Side::new(),
    };
    let gathered = gathers(rt, alloc, &two_accounts(), &debits, 2, &meeting)?;
    Some(gathered && meeting.one.has_met() && meeting.other.has_met())
}

#[test]
fn two_workers_run_at_the_same_time(rt: HostRuntime) {
    assert!(rt; both_meet(&rt, rt.alloc()) == Some(true));
}
