//! The record of candidates that come in parts, which threads encode.

ghost use Rattle.std.specs.Prelude.{◌≡◌, ◌*◌, ◌≤◌, ◌++◌, IfOk, OnOk, length};
ghost use Rattle.std.specs.List.{flat_map};
ghost use Rattle.std.specs.Thread.{IsSync};
ghost use Rattle.byteorder.specs.Endian.{big_bytes};
ghost use Rattle.sx_record.specs.Frame.{frame, most_bytes, record_bytes};
ghost use Rattle.sx_record.specs.Tags.{candidates_tag};
ghost use Rattle.sx_tx.specs.Transactions.{list_bytes, most_transactions, tx_bytes};

use crate::pieces::Pieces;
use std::alloc::Global;
use std::thread::Threads;
use sx_bytes::{NoMemory, Writer};
use sx_fork::fork;
use sx_record::tag;
use sx_tx::{Tx, TxList, TxParts, write_tx};

// How many bytes a transaction takes at most.
const MOST_TX_BYTES: usize = 35;

// How many bytes the count of candidates takes.
const COUNT_BYTES: usize = 4;

// How many candidates are worth a thread that encodes them, and the most threads.
const WORTH_A_THREAD: usize = 4_096;

const MOST_THREADS: usize = 8;

// How many transactions there are in all parts.
fn count_of(parts: &[TxList]) -> usize
    requires { length (flat_map (λ part. part) parts.now) ≤ most_transactions }
    ensures { result ≡ length (flat_map (λ part. part) parts.now) }
{
    let mut count = 0;
    for part in parts {
        count += part.items().len();
    }
    count
}

// Puts the encodings of transactions behind what was written.
fn put_all(told: &mut Writer, txs: &[Tx]) -> Result<(), NoMemory>
    ensures { OnOk result (told.new ≡ told.old ++ flat_map tx_bytes txs.now) }
{
    for tx in txs {
        write_tx(told, tx)?;
    }
    Ok(())
}

// The encoding of the transactions of all parts, with no count.
fn encoded(alloc: Global, parts: &[TxList]) -> Result<Writer, NoMemory>
    requires { length (flat_map (λ part. part) parts.now) ≤ most_transactions }
    ensures { IfOk result (λ told. told ≡ flat_map tx_bytes (flat_map (λ part. part) parts.now)) }
{
    let mut told = Writer::new(alloc);
    told.reserve(count_of(parts) * MOST_TX_BYTES)?;
    for part in parts {
        put_all(&mut told, part.items())?;
    }
    Ok(told)
}

// The same as a list of one.
fn encoded_alone(alloc: Global, parts: &[TxList]) -> Result<Vec<Writer>, NoMemory>
    requires { length (flat_map (λ part. part) parts.now) ≤ most_transactions }
    ensures { IfOk result (λ told. flat_map (λ bytes. bytes) told.items
        ≡ flat_map tx_bytes (flat_map (λ part. part) parts.now)) }
{
    let mut told = Vec::with_capacity(alloc, 1)?;
    told.push(encoded(alloc, parts)?)?;
    Ok(told)
}

// The same by so many threads, each of which encodes some of the parts.
fn encoded_by<R: Threads + Sync>(
    rt: &R,
    alloc: Global,
    threads: usize,
    parts: &[TxList],
) -> Result<Vec<Writer>, NoMemory>
    requires { length (flat_map (λ part. part) parts.now) ≤ most_transactions }
    ensures { IfOk result (λ told. flat_map (λ bytes. bytes) told.items
        ≡ flat_map tx_bytes (flat_map (λ part. part) parts.now)) }
{
    if threads < 2 {
        return encoded_alone(alloc, parts);
    }
    let others = threads - 1;
    let (front, back) = parts.split_at(parts.len() / threads);
    let (some, more) = fork(
        rt,
        others < 2,
        || -> Result<Vec<Writer>, NoMemory>
            requires { length (flat_map (λ part. part) front.now) ≤ most_transactions }
            ensures { IfOk result (λ told. flat_map (λ bytes. bytes) told.items
                ≡ flat_map tx_bytes (flat_map (λ part. part) front.entry.now)) }
        { encoded_alone(alloc, front) },
        || -> Result<Vec<Writer>, NoMemory>
            requires { IsSync R.row × (length (flat_map (λ part. part) back.now) ≤ most_transactions) }
            ensures { IfOk result (λ told. flat_map (λ bytes. bytes) told.items
                ≡ flat_map tx_bytes (flat_map (λ part. part) back.entry.now)) }
        { encoded_by(rt, alloc, others, back) },
    );
    let mut told = some?;
    told.append(&mut more?)?;
    Ok(told)
}

// How many bytes were written.
fn bytes_of(told: &[Writer]) -> usize
    requires { length (flat_map (λ bytes. bytes) told.now) ≤ most_bytes }
    ensures { result ≡ length (flat_map (λ bytes. bytes) told.now) }
{
    let mut size = 0;
    for one in told {
        size += one.bytes().len();
    }
    size
}

// What stands before the transactions: the frame of a record of so many bytes, and their number.
fn front_of(alloc: Global, size: u32, count: u32) -> Result<Writer, NoMemory>
    ensures { IfOk result (λ front. front ≡ frame candidates_tag size ++ big_bytes 4 count) }
{
    let mut front = Writer::new(alloc);
    front.put_u8(tag::CANDIDATES)?;
    front.put_u32(size)?;
    front.put_u32(count)?;
    Ok(front)
}

// One piece, and others behind it.
fn behind(alloc: Global, front: Writer, mut others: Vec<Writer>) -> Result<Pieces, NoMemory>
    ensures { IfOk result (λ pieces. pieces ≡ front ++ flat_map (λ bytes. bytes) others.items) }
{
    let mut pieces = Vec::with_capacity(alloc, others.len().saturating_add(1))?;
    pieces.push(front)?;
    pieces.append(&mut others)?;
    Ok(Pieces::of(pieces))
}

/// The record of at most 1,000,000 candidates, in pieces. As many as so many workers encode a long one, and eight at most.
pub fn candidates_in_pieces<R: Threads + Sync>(
    rt: &R,
    alloc: Global,
    candidates: &TxParts,
    workers: u32,
) -> Result<Pieces, NoMemory>
    requires few { length candidates.now ≤ most_transactions }
    ensures record { IfOk result (λ told. told ≡ record_bytes candidates_tag (list_bytes candidates.now)) }
{
    let parts = candidates.parts();
    let count = count_of(parts);
    let threads = (count / WORTH_A_THREAD)
        .min(workers as usize)
        .min(MOST_THREADS);
    let told = encoded_by(rt, alloc, threads, parts)?;
    let size = COUNT_BYTES + bytes_of(&told);
    let front = front_of(alloc, size as u32, count as u32)?;
    behind(alloc, front, told)
}
