//! The places of transactions, looked up by one thread or by several before they are entered.

ghost use Rattle.std.specs.Prelude.{◌≡◌, ◌+◌, ◌≤◌, IfSome, length};
ghost use Rattle.std.specs.Thread.{IsSync};
ghost use Rattle.sx_tally.specs.Known.{AreKnown, HasPlaces};
ghost use Rattle.sx_ledger.specs.Ledger.{ids};

use std::thread::Threads;
use sx_fork::fork_mut;
use sx_ledger::{Ledger, LedgerIndex, Places};
use sx_tx::Tx;

// How many transactions are worth a thread of their own. Looking them up takes half a millisecond, and to start a
// thread a small part of that.
const WORTH_A_THREAD: usize = 2_048;

// The places of a transaction, or `None` where the ledger refuses it.
fn look_up_one(ledger: &Ledger, index: &LedgerIndex, near: u32, tx: &Tx) -> Option<Places>
    requires index { index.now ≡ ids ledger.now.accounts }
    ensures { IfSome result (HasPlaces ledger.now tx.now) }
{
    ledger.places_of(index, near, tx).ok()
}

/// Looks up the places of transactions one after another, from an index on. Each account is looked for near the one
/// before it.
pub fn look_up_part(
    ledger: &Ledger,
    index: &LedgerIndex,
    txs: &[Tx],
    from: usize,
    known: &mut [Option<Places>],
)
    requires index { index.now ≡ ids ledger.now.accounts }
    requires within { from + length known.old ≤ length txs.now }
    ensures one_each { length known.new ≡ length known.old }
    ensures known { AreKnown ledger.now txs.now from known.new }
{
    let mut near = 0;
    for k in 0..known.len() {
        let found = look_up_one(ledger, index, near, &txs[from + k]);
        if let Some(places) = found {
            near = places.account;
        }
        known[k] = found;
    }
}

// The same by so many threads, of which each looks up what a part of the transactions names.
fn look_up_by<R: Threads + Sync>(
    rt: &R,
    threads: usize,
    ledger: &Ledger,
    index: &LedgerIndex,
    txs: &[Tx],
    from: usize,
    known: &mut [Option<Places>],
)
    requires some { 1 ≤ threads }
    requires index { index.now ≡ ids ledger.now.accounts }
    requires within { from + length known.old ≤ length txs.now }
    ensures one_each { length known.new ≡ length known.old }
    ensures known { AreKnown ledger.now txs.now from known.new }
{
    if threads < 2 {
        return look_up_part(ledger, index, txs, from, known);
    }
    let others = threads - 1;
    let share = known.len() / threads;
    let middle = from + share;
    let (front, back) = known.split_at_mut(share);
    fork_mut(
        rt,
        others < 2,
        &mut ||
            requires { (index.now ≡ ids ledger.now.accounts) × (from + length front.now ≤ length txs.now) }
            ensures one_each { length front.exit.now ≡ length front.entry.now }
            ensures known { AreKnown ledger.entry.now txs.entry.now from front.exit.now }
        { look_up_part(ledger, index, txs, from, front) },
        &mut ||
            requires ready { IsSync R.row × (1 ≤ others) }
            requires index { index.now ≡ ids ledger.now.accounts }
            requires within { middle + length back.now ≤ length txs.now }
            ensures one_each { length back.exit.now ≡ length back.entry.now }
            ensures known { AreKnown ledger.entry.now txs.entry.now middle back.exit.now }
        { look_up_by(rt, others, ledger, index, txs, middle, back) },
    );
}

/// Looks up the places of transactions from an index on, in at most so many threads.
pub fn look_up<R: Threads + Sync>(
    rt: &R,
    ledger: &Ledger,
    index: &LedgerIndex,
    txs: &[Tx],
    from: usize,
    workers: u32,
    known: &mut [Option<Places>],
)
    requires index { index.now ≡ ids ledger.now.accounts }
    requires some_worker { 1 ≤ workers }
    requires within { from + length known.old ≤ length txs.now }
    ensures one_each { length known.new ≡ length known.old }
    ensures known { AreKnown ledger.now txs.now from known.new }
{
    let threads = (known.len() / WORTH_A_THREAD).clamp(1, workers as usize);
    look_up_by(rt, threads, ledger, index, txs, from, known);
}
