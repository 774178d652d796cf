//! Reading a long block, whose transactions several threads decode.

ghost use Rattle.std.specs.Prelude.{◌≡◌, ◌≤◌, None, Ok, IfOk};
ghost use Rattle.std.specs.Thread.{IsSync};
ghost use Rattle.sx_block.specs.declared.header.Block.{Block as OneBlock};
ghost use Rattle.sx_block.specs.Block.{IsBlock};
ghost use Rattle.sx_block.specs.Decoding.{block_at};
ghost use Rattle.sx_block.specs.Encoding.{block_bytes};
ghost use Rattle.sx_bytes.specs.Grammar.{Gives, in_order};
ghost use Rattle.sx_ledger.specs.Body.{tx_before};

use crate::header::Block;
use crate::header_reading::read_header;
use crate::reading::{follows, read_block};
use crate::trade_reading::fault_at;
use std::alloc::Global;
use std::thread::Threads;
use sx_bytes::{Form, ReadError, Reader};
use sx_parts::par_read_list;
use sx_tx::Tx;

// From how many bytes on several threads decode the transactions. To decode them takes a millisecond there, and to start
// threads a small part of one.
const LONG: usize = 1 << 19;

// Whether transactions are in the order of a body.
fn are_in_order(txs: &[Tx]) -> bool
    ensures { result ≡ in_order tx_before None txs.now }
{
    let mut before = None;
    for next in txs {
        if !follows(before, next) {
            return false;
        }
        before = Some(*next);
    }
    true
}

// The block of a payload, whose transactions several threads decode. An error says nothing of the payload.
fn read_by<R: Threads + Sync>(
    rt: &R,
    alloc: Global,
    payload: &[u8],
    workers: u32,
) -> Result<Block, ReadError>
    requires { 1 ≤ workers }
    ensures { IfOk result (λ block. block_at payload.now ≡ Ok block) }
{
    let mut from = Reader::new(payload);
    let header = read_header(alloc, &mut from)?;
    let (txs, end) = par_read_list(rt, alloc, payload, from.place(), workers)?;
    if end != payload.len() || !are_in_order(txs.items()) {
        return Err(fault_at(end, Form::Rest));
    }
    Ok(Block { header, txs })
}

/// The block of a payload, as [`read_block`] answers it, with the same errors. As many as `workers` threads decode the
/// transactions of a long one, where threads can be started. It may answer `NoMemory` in place of any other answer.
pub fn par_read_block<R: Threads + Sync>(
    rt: &R,
    alloc: Global,
    payload: &[u8],
    workers: u32,
) -> Result<Block, ReadError>
    requires some_worker { 1 ≤ workers }
    // What is read is encoded so.
    ensures found { IfOk result (λ block. IsBlock block × (payload.now ≡ block_bytes block)) }
    // What is encoded so is read, unless memory runs out.
    ensures only { (block : OneBlock) → IsBlock block → payload.now ≡ block_bytes block →
        Gives (λ found. found) result (Ok block) }
    // Which fault it is.
    ensures exact { Gives (λ block. block) result (block_at payload.now) }
{
    if workers == 1 || payload.len() < LONG {
        return read_block(alloc, payload);
    }
    match read_by(rt, alloc, payload, workers) {
        Ok(block) => Ok(block),
        Err(_) => read_block(alloc, payload),
    }
}
