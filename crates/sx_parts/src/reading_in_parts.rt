//! Decoding a long list of transactions by several threads.
//!
//! A thread decodes a first part of the transactions into its part of one vector, and so many more threads the rest, in
//! the same way. Where the rest seems to begin is a guess. Where the first part is decoded whole and ends at that place,
//! both side by side are what the payload says. Where anything is amiss, one thread decodes the payload from its first
//! byte, and so finds the first fault.

ghost use Rattle.std.specs.Prelude.{◌≡◌, ◌*◌, ◌≤◌, List, length, IfOk, Ok};
ghost use Rattle.std.specs.Thread.{IsSync};
ghost use Rattle.sx_bytes.specs.Grammar.{Gives};
ghost use Rattle.sx_parts.specs.Decoded.{AreDecoded, IsListAt};
ghost use Rattle.sx_tx.specs.declared.tx.Tx.{Tx as Transaction};
ghost use Rattle.sx_tx.specs.Transactions.{list_bytes, IsTxList};
ghost use Rattle.sx_tx.specs.TransactionDecoding.{candidates_at};

use crate::guess::{end_of, fault_at, length_of_each, threads_for};
use std::alloc::Global;
use std::thread::Threads;
use sx_bytes::{Form, FormFault, ReadError, Reader};
use sx_fork::fork_mut;
use sx_tx::{MOST_TRANSACTIONS, Tx, TxList, decode_tx, read_candidates};

// Decodes the transactions from a place on, one into each slot, and answers where they end.
fn fill(payload: &[u8], place: usize, txs: &mut [Tx]) -> Result<usize, FormFault>
    ensures { IfOk result (λ end. AreDecoded payload.now place (length txs.old) txs.new end) }
{
    let mut from = Reader::at(payload, place)?;
    for slot in 0..txs.len() {
        // Taken apart, since the check knows how to move a kind only where one is named.
        let Tx { account, seq, kind } = decode_tx(&mut from)?;
        txs[slot] = Tx { account, seq, kind };
    }
    Ok(from.place())
}

// The same by so many threads.
fn fill_by<R: Threads + Sync>(
    rt: &R,
    payload: &[u8],
    place: usize,
    threads: usize,
    each: Option<usize>,
    txs: &mut [Tx],
) -> Result<usize, FormFault>
    requires some { 1 ≤ threads }
    ensures { IfOk result (λ end. AreDecoded payload.now place (length txs.old) txs.new end) }
{
    if threads < 2 {
        return fill(payload, place, txs);
    }
    let others = threads - 1;
    let share = txs.len() / threads;
    let middle = end_of(payload, place, share, each)?;
    let (front, back) = txs.split_at_mut(share);
    let (one, other) = fork_mut(
        rt,
        others < 2,
        &mut || -> Result<usize, FormFault>
            ensures { IfOk result (λ end.
                AreDecoded payload.entry.now place (length front.entry.now) front.exit.now end) }
        { fill(payload, place, front) },
        &mut || -> Result<usize, FormFault>
            requires { IsSync R.row × (1 ≤ others) }
            ensures { IfOk result (λ end.
                AreDecoded payload.entry.now middle (length back.entry.now) back.exit.now end) }
        { fill_by(rt, payload, middle, others, each, back) },
    );
    if one? != middle {
        return Err(fault_at(middle, Form::Short));
    }
    other
}

// The count at a place of a payload and that many transactions, decoded by so many threads, and where they end.
fn listed<R: Threads + Sync>(
    rt: &R,
    alloc: Global,
    payload: &[u8],
    place: usize,
    threads: usize,
) -> Result<(TxList, usize), ReadError>
    requires { 1 ≤ threads }
    ensures { IfOk result (λ read. IsListAt payload.now place read.0 read.1) }
{
    let mut from = Reader::at(payload, place)?;
    let count = from.field_u32(0, MOST_TRANSACTIONS, Form::TooMany)?;
    let begin = from.place();
    // Memory grows with what the bytes left can hold, and not with what the count claims.
    if from.left() / Tx::LEAST_BYTES < count as usize {
        return Err(ReadError::Form(fault_at(begin, Form::Short)));
    }
    // A slot has some transaction before its own is decoded: the first one serves.
    let first = decode_tx(&mut from)?;
    let each = length_of_each(payload.len() - begin, count as usize, from.place() - begin);
    let mut txs = vec![in alloc; first; count as usize]?;
    let end = fill_by(rt, payload, begin, threads, each, &mut txs)?;
    Ok((TxList::of(txs), end))
}

/// The list of transactions at a place of a payload, its count included, and where it ends. As many as `workers` threads
/// decode a long one. An error says nothing of the bytes: a caller that wants the first fault reads them by one thread.
pub fn par_read_list<R: Threads + Sync>(
    rt: &R,
    alloc: Global,
    payload: &[u8],
    place: usize,
    workers: u32,
) -> Result<(TxList, usize), ReadError>
    requires some_worker { 1 ≤ workers }
    ensures { IfOk result (λ read. IsListAt payload.now place read.0 read.1) }
{
    let threads = threads_for(payload.len(), workers);
    listed(rt, alloc, payload, place, threads)
}

// The transactions of a payload, decoded by so many threads. An error says nothing of the payload.
fn whole<R: Threads + Sync>(
    rt: &R,
    alloc: Global,
    payload: &[u8],
    threads: usize,
) -> Result<TxList, ReadError>
    requires { 1 ≤ threads }
    ensures { IfOk result (λ txs. candidates_at payload.now ≡ Ok txs) }
{
    let (txs, end) = listed(rt, alloc, payload, 0, threads)?;
    if end != payload.len() {
        return Err(ReadError::Form(fault_at(end, Form::Rest)));
    }
    Ok(txs)
}

/// The transactions of a payload of candidates, as [`read_candidates`] answers them, with the same errors. As many as
/// `workers` threads decode a long one, where threads can be started. It may answer `NoMemory` in place of any other
/// answer.
pub fn par_read_candidates<R: Threads + Sync>(
    rt: &R,
    alloc: Global,
    payload: &[u8],
    workers: u32,
) -> Result<TxList, ReadError>
    requires some_worker { 1 ≤ workers }
    // It answers transactions only where the payload is their encoding.
    ensures found { IfOk result (λ txs. IsTxList txs × (payload.now ≡ list_bytes txs)) }
    // It does so for every encoding, unless memory runs out.
    ensures only { (txs : List Transaction) → IsTxList txs → payload.now ≡ list_bytes txs →
        Gives (λ found. found) result (Ok txs) }
    // Which fault it is.
    ensures exact { Gives (λ txs. txs) result (candidates_at payload.now) }
{
    let threads = threads_for(payload.len(), workers);
    if threads < 2 {
        return read_candidates(alloc, payload);
    }
    match whole(rt, alloc, payload, threads) {
        Ok(txs) => Ok(txs),
        Err(_) => read_candidates(alloc, payload),
    }
}
