//! The order of a body: by account, and then by sequence number.

ghost use Rattle.std.specs.Prelude.{◌≡◌, ◌≤◌, false, length, true};
ghost use Rattle.std.specs.Bool.{OnFalse, OnTrue};
ghost use Rattle.std.specs.List.{AllWithin};
ghost use Rattle.std.specs.List.Sorted.{IsPermutation, IsSortedBy};
ghost use Rattle.std.specs.Ordering.{is_lt};
ghost use Rattle.std.specs.Thread.{IsSync};
ghost use Rattle.sx_ledger.specs.Body.{tx_before};

use std::cmp::Ordering;
use std::thread::Threads;
use sx_fork::fork_mut;
use sx_tx::Tx;

// Whether a transaction stands before another in a body.
fn stands_before(one: &Tx, other: &Tx) -> bool
    ensures { result ≡ tx_before one.now other.now }
{
    one.account.0 < other.account.0
        || one.account.0 == other.account.0 && one.seq.get() < other.seq.get()
}

/// Whether transactions are in the order of a body: by account, and then by sequence number. Two of one account and
/// number may stand side by side.
pub fn are_sorted(txs: &[Tx]) -> bool
    ensures sorted { OnTrue result (IsSortedBy tx_before txs.now) }
    ensures not_sorted { OnFalse result (IsSortedBy tx_before txs.now → ⊥) }
{
    for place in 1..txs.len() {
        if stands_before(&txs[place], &txs[place - 1]) {
            return false;
        }
    }
    true
}

// How two transactions stand in the order of a body. Both numbers are always compared, since a sort is twice as
// fast where nothing branches on the accounts.
fn order(one: &Tx, other: &Tx) -> Ordering
    ensures { is_lt result ≡ tx_before one.now other.now }
{
    let by_account = one.account.0.cmp(&other.account.0);
    by_account.then(one.seq.get().cmp(&other.seq.get()))
}

/// Puts transactions into the order of a body: by account, and then by sequence number. It takes no memory.
/// Those of one account and number stand side by side, in no order that is told.
pub fn sort_txs(txs: &mut [Tx])
    ensures moves { IsPermutation txs.old txs.new }
    ensures sorted { IsSortedBy tx_before txs.new }
{
    txs.sort_unstable_by(|one, other| order(one, other));
}

// How many threads sort at most.
const MOST_THREADS: usize = 4;

// A list of fewer transactions is sorted by one thread, since to start another would hardly pay.
const LEAST_FOR_TWO: usize = 16_384;

// How many transactions are looked at to find one near the middle of the order. With so many it is rarely more than
// 3 hundredths of the list away from the middle.
const SAMPLES: usize = 1023;

// A transaction near the middle of the order: the middle one of samples that lie equally far apart in the list.
fn near_middle(txs: &[Tx]) -> Tx
    requires enough { SAMPLES ≤ length txs.now }
{
    let mut samples = [txs[0]; SAMPLES];
    let distance = txs.len() / SAMPLES;
    for place in 0..SAMPLES {
        samples[place] = txs[place * distance];
    }
    sort_txs(&mut samples);
    samples[SAMPLES / 2]
}

// Moves the transactions that stand before a given one in front of the rest, and answers where the rest begins. Each
// changes places with the first of the rest even if it does not go in front, since that is faster than a branch.
fn part(txs: &mut [Tx], by: &Tx) -> usize
    ensures moves { IsPermutation txs.old txs.new }
    ensures within { result ≤ length txs.new }
    ensures front { AllWithin (λ tx. tx_before tx by.now ≡ true) txs.new 0 result }
    ensures rest { AllWithin (λ tx. tx_before tx by.now ≡ false) txs.new result (length txs.new) }
{
    let mut end = 0;
    for place in 0..txs.len() {
        let goes_before = order(&txs[place], by).is_lt();
        txs.swap(place, end);
        end += goes_before as usize;
    }
    end
}

// Sorts by up to so many threads. The list is parted at a transaction near the middle of its order, so that the front
// and the rest are about equally long. Then half of the threads sort the front, and the other half the rest.
fn sort_by_halves<R: Threads + Sync>(rt: &R, threads: usize, txs: &mut [Tx])
    ensures moves { IsPermutation txs.old txs.new }
    ensures sorted { IsSortedBy tx_before txs.new }
{
    if threads < 2 || txs.len() < LEAST_FOR_TWO {
        return sort_txs(txs);
    }
    let half = threads / 2;
    let other_half = threads - half;
    let middle = near_middle(txs);
    let end = part(txs, &middle);
    let (front, rest) = txs.split_at_mut(end);
    fork_mut(
        rt,
        true,
        &mut ||
            requires { IsSync R.row }
            ensures { IsPermutation front.entry.now front.exit.now × IsSortedBy tx_before front.exit.now }
        { sort_by_halves(rt, half, front) },
        &mut ||
            requires { IsSync R.row }
            ensures { IsPermutation rest.entry.now rest.exit.now × IsSortedBy tx_before rest.exit.now }
        { sort_by_halves(rt, other_half, rest) },
    );
}

/// The same by up to four threads, which sort about equally many transactions, and by none if the transactions
/// come in the order of a body. It returns where the threads that it joins return.
pub fn par_sort_txs<R: Threads + Sync>(rt: &R, txs: &mut [Tx])
    ensures moves { IsPermutation txs.old txs.new }
    ensures sorted { IsSortedBy tx_before txs.new }
{
    if are_sorted(txs) {
        return;
    }
    sort_by_halves(rt, MOST_THREADS, txs);
}
