//! Decoding a long list of candidates by several threads, each of which has a vector of its own for its part.
//!
//! The list is cut as in `reading_in_parts`. But there one thread fills the vector first that all threads share, and so
//! is the first to touch its memory. Here each thread touches that of its own part.

ghost use Rattle.std.specs.Prelude.{◌≡◌, ◌*◌, ◌-◌, ◌≤◌, List, IfOk, Ok};
ghost use Rattle.std.specs.List.{flat_map};
ghost use Rattle.std.specs.Thread.{IsSync};
ghost use Rattle.sx_bytes.specs.Grammar.{Gives};
ghost use Rattle.sx_parts.specs.Decoded.{AreDecoded};
ghost use Rattle.sx_tx.specs.declared.tx.Tx.{Tx as Transaction};
ghost use Rattle.sx_tx.specs.Transactions.{list_bytes, IsTxList};
ghost use Rattle.sx_tx.specs.TransactionDecoding.{candidates_at};

use crate::guess::{end_of, fault_at, length_of_each, threads_for};
use std::alloc::Global;
use std::thread::Threads;
use sx_bytes::{Form, NoMemory, ReadError, Reader};
use sx_fork::fork_mut;
use sx_tx::{MOST_TRANSACTIONS, Tx, TxList, TxParts, decode_tx, read_candidates};

// A list of one part.
fn one_part(alloc: Global, txs: TxList) -> Result<Vec<TxList>, NoMemory>
    ensures { IfOk result (λ parts. flat_map (λ list. list) parts.items ≡ txs) }
{
    let mut parts = Vec::with_capacity(alloc, 1)?;
    parts.push(txs)?;
    Ok(parts)
}

// So many transactions from a place on, as one part, and where they end.
fn part(
    alloc: Global,
    payload: &[u8],
    place: usize,
    count: usize,
) -> Result<(TxList, usize), ReadError>
    ensures { IfOk result (λ read. AreDecoded payload.now place count read.0 read.1) }
{
    let mut from = Reader::at(payload, place)?;
    let mut txs = Vec::with_capacity(alloc, count)?;
    for _ in 0..count {
        // Taken apart, since the check knows how to move a kind only where one is named.
        let Tx { account, seq, kind } = decode_tx(&mut from)?;
        txs.push(Tx { account, seq, kind })?;
    }
    Ok((TxList::of(txs), from.place()))
}

// The same as a list of one part.
fn first_part(
    alloc: Global,
    payload: &[u8],
    place: usize,
    count: usize,
) -> Result<(Vec<TxList>, usize), ReadError>
    ensures { IfOk result (λ read. AreDecoded payload.now place count (flat_map (λ list. list) read.0.items) read.1) }
{
    let (txs, end) = part(alloc, payload, place, count)?;
    Ok((one_part(alloc, txs)?, end))
}

// The same by so many threads, of which each decodes a part.
fn parts_by<R: Threads + Sync>(
    rt: &R,
    alloc: Global,
    payload: &[u8],
    place: usize,
    count: usize,
    threads: usize,
    each: Option<usize>,
) -> Result<(Vec<TxList>, usize), ReadError>
    requires some { 1 ≤ threads }
    ensures { IfOk result (λ read. AreDecoded payload.now place count (flat_map (λ list. list) read.0.items) read.1) }
{
    if threads < 2 {
        return first_part(alloc, payload, place, count);
    }
    let others = threads - 1;
    let share = count / threads;
    let rest = count - share;
    let middle = end_of(payload, place, share, each)?;
    let (one, other) = fork_mut(
        rt,
        others < 2,
        &mut || -> Result<(Vec<TxList>, usize), ReadError>
            ensures { IfOk result (λ read.
                AreDecoded payload.entry.now place share (flat_map (λ list. list) read.0.items) read.1) }
        { first_part(alloc, payload, place, share) },
        &mut || -> Result<(Vec<TxList>, usize), ReadError>
            requires { IsSync R.row × (1 ≤ others) }
            ensures { IfOk result (λ read.
                AreDecoded payload.entry.now middle rest (flat_map (λ list. list) read.0.items) read.1) }
        { parts_by(rt, alloc, payload, middle, rest, others, each) },
    );
    let (mut parts, front_end) = one?;
    let (mut others, end) = other?;
    if front_end != middle {
        return Err(ReadError::Form(fault_at(middle, Form::Short)));
    }
    parts.append(&mut others)?;
    Ok((parts, end))
}

// The transactions of a payload, in parts that so many threads decode. An error says nothing of the payload.
fn whole<R: Threads + Sync>(
    rt: &R,
    alloc: Global,
    payload: &[u8],
    threads: usize,
) -> Result<TxParts, ReadError>
    requires { 1 ≤ threads }
    ensures { IfOk result (λ txs. candidates_at payload.now ≡ Ok txs) }
{
    let mut from = Reader::new(payload);
    let count = from.field_u32(0, MOST_TRANSACTIONS, Form::TooMany)? as usize;
    let begin = from.place();
    // Memory grows with what the bytes left can hold, and not with what the count claims.
    if from.left() / Tx::LEAST_BYTES < count {
        return Err(ReadError::Form(fault_at(begin, Form::Short)));
    }
    decode_tx(&mut from)?;
    let each = length_of_each(payload.len() - begin, count, from.place() - begin);
    let (parts, end) = parts_by(rt, alloc, payload, begin, count, threads, each)?;
    if end != payload.len() {
        return Err(ReadError::Form(fault_at(end, Form::Rest)));
    }
    Ok(TxParts::of(parts))
}

// The same by one thread, in one part, with the errors of `read_candidates`.
fn alone(alloc: Global, payload: &[u8]) -> Result<TxParts, ReadError>
    ensures { Gives (λ txs. txs) result (candidates_at payload.now) }
{
    let txs = read_candidates(alloc, payload)?;
    Ok(TxParts::of(one_part(alloc, txs)?))
}

/// The transactions of a payload of candidates, as [`read_candidates`] answers them, with the same errors, in parts. As
/// many as `workers` threads decode a long one, where threads can be started, each a part of it. It may answer `NoMemory`
/// in place of any other answer.
pub fn par_read_candidates_in_parts<R: Threads + Sync>(
    rt: &R,
    alloc: Global,
    payload: &[u8],
    workers: u32,
) -> Result<TxParts, ReadError>
    requires some_worker { 1 ≤ workers }
    // It answers transactions only where the payload is their encoding.
    ensures found { IfOk result (λ txs. IsTxList txs × (payload.now ≡ list_bytes txs)) }
    // It does so for every encoding, unless memory runs out.
    ensures only { (txs : List Transaction) → IsTxList txs → payload.now ≡ list_bytes txs →
        Gives (λ found. found) result (Ok txs) }
    // Which fault it is.
    ensures exact { Gives (λ txs. txs) result (candidates_at payload.now) }
{
    let threads = threads_for(payload.len(), workers);
    if threads < 2 {
        return alone(alloc, payload);
    }
    match whole(rt, alloc, payload, threads) {
        Ok(txs) => Ok(txs),
        Err(_) => alone(alloc, payload),
    }
}
