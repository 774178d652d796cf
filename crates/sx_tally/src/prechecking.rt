//! One pass over transactions, which tests each by itself and adds up what they do.

ghost use Rattle.std.specs.Prelude.{◌≡◌, ◌+◌, ◌<◌, ◌≤◌, [], Err, IfErr, IfOk, IfSome, OnOk, length, slice_index_or, take};
ghost use Rattle.sx_tally.specs.declared.prechecking.PrecheckFault.TheVariants as precheck_fault;
ghost use Rattle.sx_tally.specs.Known.{AreKnown, HasPlaces};
ghost use Rattle.sx_tally.specs.Prechecks.{IsPrecheckFault};
ghost use Rattle.sx_tally.specs.Postings.{IsNonePending};
ghost use Rattle.sx_tally.specs.Tally.{IsTally, IsTallyWithPending};
ghost use Rattle.sx_ledger.specs.Ledger.{IsLedger, ids};
ghost use Rattle.sx_ledger.specs.Static.{static_of};
ghost use Rattle.sx_tx.specs.declared.tx.Tx.{Tx as Transaction};

use crate::lookup::{look_up, look_up_part};
use crate::pending::Pending;
use crate::tally::Tally;
use std::alloc::Global;
use std::mem;
use std::thread::Threads;
use sx_bytes::NoMemory;
use sx_fork::fork_mut;
use sx_ledger::{Ledger, LedgerIndex, Places, Static};
use sx_tx::Tx;
use thiserror::Error;

// From how many transactions on threads look places up. One thread takes three milliseconds there, and to start a
// thread a small part of one.
const MANY_TRANSACTIONS: usize = 1 << 13;

// How many transactions are in a piece. While one piece is entered, threads look up what the next one names. The places
// of both stay in a processor's cache.
const PIECE: usize = 1 << 16;

// How many transactions are entered before what they debit and credit is posted. It stays in a processor's first cache
// meanwhile.
const RUN: usize = 1 << 8;

/// Why transactions have no tally.
#[derive(Clone, Copy, Debug, PartialEq, Eq, Error)]
pub enum PrecheckFault {
    /// Memory ran out. It may be answered in place of any other answer.
    #[error("out of memory")]
    NoMemory,
    /// The first transaction that the ledger refuses by itself: its index in the list, from 0, and the
    /// reason.
    #[error("transaction {index}: {why}")]
    Refused { index: usize, why: Static },
}

impl From<NoMemory> for PrecheckFault {
    ghost from_gives = { λ _ error. error ≡ precheck_fault.NoMemory };

    fn from(_error: NoMemory) -> PrecheckFault {
        PrecheckFault::NoMemory
    }
}

// The places of a transaction, which may be known, or the reason why the ledger refuses it.
fn places_of(
    ledger: &Ledger,
    index: &LedgerIndex,
    tx: &Tx,
    known: Option<Places>,
) -> Result<Places, Static>
    requires index { index.now ≡ ids ledger.now.accounts }
    requires known { IfSome known (HasPlaces ledger.now tx.now) }
    ensures places { IfOk result (HasPlaces ledger.now tx.now) }
    ensures refused { IfErr result (λ why. static_of ledger.now tx.now ≡ Err why) }
{
    match known {
        Some(places) => Ok(places),
        None => ledger.places_of(index, 0, tx),
    }
}

// Enters the transaction at an index, whose places may be known, where all those before it are entered. What it
// debits and credits is pending afterwards.
fn enter_one(
    ledger: &Ledger,
    index: &LedgerIndex,
    txs: &[Tx],
    at: usize,
    known: Option<Places>,
    tally: &mut Tally,
    pending: &mut Pending,
) -> Result<(), PrecheckFault>
    requires ledger { IsLedger ledger.now }
    requires index { index.now ≡ ids ledger.now.accounts }
    requires at { at < length txs.now }
    requires known { (tx : Transaction) → IfSome known (HasPlaces ledger.now (slice_index_or txs.now at tx)) }
    requires tally { IsTallyWithPending ledger.now (take at txs.now) pending.old tally.old }
    ensures tally { OnOk result (IsTallyWithPending ledger.now (take (at + 1) txs.now) pending.new tally.new) }
    ensures refused { IfErr result (IsPrecheckFault ledger.now txs.now) }
{
    let tx = &txs[at];
    match places_of(ledger, index, tx, known) {
        Ok(places) => {
            tally.enter(ledger, at, tx, &places, pending)?;
            Ok(())
        }
        Err(why) => Err(PrecheckFault::Refused { index: at, why }),
    }
}

// Enters a run of transactions from an index on, whose places may be known, where all those before them are entered.
// It posts what they debit and credit when all are entered.
fn enter_run(
    ledger: &Ledger,
    index: &LedgerIndex,
    txs: &[Tx],
    from: usize,
    known: &[Option<Places>],
    tally: &mut Tally,
    pending: &mut Pending,
) -> Result<(), PrecheckFault>
    requires ledger { IsLedger ledger.now }
    requires index { index.now ≡ ids ledger.now.accounts }
    requires within { from + length known.now ≤ length txs.now }
    requires known { AreKnown ledger.now txs.now from known.now }
    requires none { IsNonePending pending.old }
    requires tally { IsTally ledger.now (take from txs.now) tally.old }
    ensures none { OnOk result (IsNonePending pending.new) }
    ensures tally { OnOk result (IsTally ledger.now (take (from + length known.now) txs.now) tally.new) }
    ensures refused { IfErr result (IsPrecheckFault ledger.now txs.now) }
{
    for k in 0..known.len() {
        enter_one(ledger, index, txs, from + k, known[k], tally, pending)?;
    }
    tally.post_pending(pending)?;
    Ok(())
}

// Enters transactions from an index on, whose places may be known, where all those before them are entered. It goes
// over them run by run.
fn enter_known(
    ledger: &Ledger,
    index: &LedgerIndex,
    txs: &[Tx],
    from: usize,
    known: &[Option<Places>],
    tally: &mut Tally,
    pending: &mut Pending,
) -> Result<(), PrecheckFault>
    requires ledger { IsLedger ledger.now }
    requires index { index.now ≡ ids ledger.now.accounts }
    requires within { from + length known.now ≤ length txs.now }
    requires known { AreKnown ledger.now txs.now from known.now }
    requires none { IsNonePending pending.old }
    requires tally { IsTally ledger.now (take from txs.now) tally.old }
    ensures none { OnOk result (IsNonePending pending.new) }
    ensures tally { OnOk result (IsTally ledger.now (take (from + length known.now) txs.now) tally.new) }
    ensures refused { IfErr result (IsPrecheckFault ledger.now txs.now) }
{
    let mut done = 0;
    while done < known.len() {
        let count = RUN.min(known.len() - done);
        let run = &known[done..done + count];
        enter_run(ledger, index, txs, from + done, run, tally, pending)?;
        done += count;
    }
    Ok(())
}

// Goes over the transactions piece by piece: it looks up what a piece names, and then enters its transactions. A piece
// has as many transactions as there are slots for their places.
fn enter_alone(
    ledger: &Ledger,
    index: &LedgerIndex,
    txs: &[Tx],
    slots: &mut [Option<Places>],
    tally: &mut Tally,
    pending: &mut Pending,
) -> Result<(), PrecheckFault>
    requires ledger { IsLedger ledger.now }
    requires index { index.now ≡ ids ledger.now.accounts }
    requires some_slot { 1 ≤ length slots.old }
    requires none { IsNonePending pending.old }
    requires tally { IsTally ledger.now [] tally.old }
    ensures tally { OnOk result (IsTally ledger.now txs.now tally.new) }
    ensures refused { IfErr result (IsPrecheckFault ledger.now txs.now) }
{
    let mut from = 0;
    while from < txs.len() {
        let count = slots.len().min(txs.len() - from);
        let known = &mut slots[..count];
        look_up_part(ledger, index, txs, from, known);
        enter_known(ledger, index, txs, from, known, tally, pending)?;
        from += count;
    }
    Ok(())
}

// Slots for the places of so many transactions.
fn empty_slots(alloc: Global, count: usize) -> Result<Vec<Option<Places>>, NoMemory>
    ensures { IfOk result (λ slots. length slots.items ≡ count) }
{
    Ok(vec![in alloc; None; count]?)
}

/// The tally of transactions on a ledger, or the first of them that the ledger refuses by itself. It goes
/// over them once, in any order and of any number, and looks each payee and each cancelled offer up once;
/// where transactions of one account stand together, the account is found without a search.
pub fn precheck(alloc: Global, ledger: &Ledger, txs: &[Tx]) -> Result<Tally, PrecheckFault>
    ensures tally { IfOk result (IsTally ledger.now txs.now) }
    ensures refused { IfErr result (IsPrecheckFault ledger.now txs.now) }
{
    let index = ledger.index()?;
    let mut tally = Tally::none(alloc, ledger, txs.len())?;
    let mut slots = empty_slots(alloc, RUN)?;
    let mut pending = Pending::none(alloc, RUN)?;
    enter_alone(ledger, &index, txs, &mut slots, &mut tally, &mut pending)?;
    Ok(tally)
}

// Enters a piece of transactions from an index on, whose places may be known, where all those before them are entered.
// Meanwhile threads look up what the piece behind it names.
fn enter_piece<R: Threads + Sync>(
    rt: &R,
    ledger: &Ledger,
    index: &LedgerIndex,
    txs: &[Tx],
    from: usize,
    workers: u32,
    known: &[Option<Places>],
    ahead: &mut [Option<Places>],
    tally: &mut Tally,
    pending: &mut Pending,
) -> Result<(), PrecheckFault>
    requires ledger { IsLedger ledger.now }
    requires index { index.now ≡ ids ledger.now.accounts }
    requires some_workers { 2 ≤ workers }
    requires within { from + length known.now + length ahead.old ≤ length txs.now }
    requires known { AreKnown ledger.now txs.now from known.now }
    requires none { IsNonePending pending.old }
    requires tally { IsTally ledger.now (take from txs.now) tally.old }
    ensures one_each { length ahead.new ≡ length ahead.old }
    ensures ahead { AreKnown ledger.now txs.now (from + length known.now) ahead.new }
    ensures none { OnOk result (IsNonePending pending.new) }
    ensures tally { OnOk result (IsTally ledger.now (take (from + length known.now) txs.now) tally.new) }
    ensures refused { IfErr result (IsPrecheckFault ledger.now txs.now) }
{
    if ahead.is_empty() {
        return enter_known(ledger, index, txs, from, known, tally, pending);
    }
    let next = from + known.len();
    let others = workers - 1;
    let (_, entered) = fork_mut(
        rt,
        true,
        &mut ||
            requires index { index.now ≡ ids ledger.now.accounts }
            requires some_worker { 1 ≤ others }
            requires some { 1 ≤ length ahead.now }
            requires within { next + length ahead.now ≤ length txs.now }
            ensures one_each { length ahead.exit.now ≡ length ahead.entry.now }
            ensures known { AreKnown ledger.entry.now txs.entry.now next ahead.exit.now }
        { look_up(rt, ledger, index, txs, next, others, ahead) },
        &mut || -> Result<(), PrecheckFault>
            requires ledger { IsLedger ledger.now }
            requires index { index.now ≡ ids ledger.now.accounts }
            requires within { from + length known.now ≤ length txs.now }
            requires known { AreKnown ledger.now txs.now from known.now }
            requires none { IsNonePending pending.now }
            requires tally { IsTally ledger.now (take from txs.now) tally.now }
            ensures none { OnOk result (IsNonePending pending.exit.now) }
            ensures tally { OnOk result (IsTally ledger.entry.now (take (from + length known.entry.now) txs.entry.now)
                tally.exit.now) }
            ensures refused { IfErr result (IsPrecheckFault ledger.entry.now txs.entry.now) }
        { enter_known(ledger, index, txs, from, known, tally, pending) },
    );
    entered
}

// Goes over the transactions piece by piece: while one is entered, threads look up what the next one names. The first
// piece has as many transactions as there are slots in `known`, and no other has more.
fn enter_pieces<R: Threads + Sync>(
    rt: &R,
    ledger: &Ledger,
    index: &LedgerIndex,
    txs: &[Tx],
    workers: u32,
    known: &mut Vec<Option<Places>>,
    ahead: &mut Vec<Option<Places>>,
    tally: &mut Tally,
    pending: &mut Pending,
) -> Result<(), PrecheckFault>
    requires ledger { IsLedger ledger.now }
    requires index { index.now ≡ ids ledger.now.accounts }
    requires some_workers { 2 ≤ workers }
    requires some_slot { 1 ≤ length known.old.items }
    requires as_many { length ahead.old.items ≡ length known.old.items }
    requires within { length known.old.items ≤ length txs.now }
    requires none { IsNonePending pending.old }
    requires tally { IsTally ledger.now [] tally.old }
    ensures tally { OnOk result (IsTally ledger.now txs.now tally.new) }
    ensures refused { IfErr result (IsPrecheckFault ledger.now txs.now) }
{
    look_up(rt, ledger, index, txs, 0, workers, known);
    let mut from = 0;
    while from < txs.len() {
        let next = from + known.len();
        ahead.truncate(txs.len() - next);
        enter_piece(
            rt, ledger, index, txs, from, workers, known, ahead, tally, pending,
        )?;
        mem::swap(known, ahead);
        from = next;
    }
    Ok(())
}

// The same, with room for the places of two pieces and for what is pending.
fn enter_all<R: Threads + Sync>(
    rt: &R,
    alloc: Global,
    ledger: &Ledger,
    index: &LedgerIndex,
    txs: &[Tx],
    workers: u32,
    tally: &mut Tally,
) -> Result<(), PrecheckFault>
    requires ledger { IsLedger ledger.now }
    requires index { index.now ≡ ids ledger.now.accounts }
    requires some_workers { 2 ≤ workers }
    requires some { 1 ≤ length txs.now }
    requires tally { IsTally ledger.now [] tally.old }
    ensures tally { OnOk result (IsTally ledger.now txs.now tally.new) }
    ensures refused { IfErr result (IsPrecheckFault ledger.now txs.now) }
{
    let mut known = empty_slots(alloc, PIECE.min(txs.len()))?;
    let mut ahead = empty_slots(alloc, known.len())?;
    let mut pending = Pending::none(alloc, RUN)?;
    enter_pieces(
        rt,
        ledger,
        index,
        txs,
        workers,
        &mut known,
        &mut ahead,
        tally,
        &mut pending,
    )
}

/// The same as [`precheck`], with threads that look places up. It goes over the transactions in pieces: threads look up
/// what the first piece names; then one thread enters the transactions of a piece in their order, while others look up
/// what the next piece names. At most so many threads work at the same time. So the answer is that of [`precheck`],
/// and the same for every number of workers. With one worker, or for few transactions, no thread is started.
pub fn par_precheck<R: Threads + Sync>(
    rt: &R,
    alloc: Global,
    ledger: &Ledger,
    txs: &[Tx],
    workers: u32,
) -> Result<Tally, PrecheckFault>
    requires some_worker { 1 ≤ workers }
    ensures tally { IfOk result (IsTally ledger.now txs.now) }
    ensures refused { IfErr result (IsPrecheckFault ledger.now txs.now) }
{
    if workers == 1 || txs.len() < MANY_TRANSACTIONS {
        return precheck(alloc, ledger, txs);
    }
    let index = ledger.index()?;
    let mut tally = Tally::none(alloc, ledger, txs.len())?;
    enter_all(rt, alloc, ledger, &index, txs, workers, &mut tally)?;
    Ok(tally)
}
