//! Reading a block from left to right, with the first fault.

ghost use Rattle.std.specs.Prelude.{◌≡◌, ◌≤◌, length, IfOk, Ok, None};
ghost use Rattle.sx_block.specs.declared.header.Block.{Block};
ghost use Rattle.sx_block.specs.Block.{IsBlock};
ghost use Rattle.sx_block.specs.Decoding.{body_at, fields_at, block_at};
ghost use Rattle.sx_block.specs.Encoding.{block_bytes};
ghost use Rattle.sx_bytes.specs.declared.fault.Form.TheVariants as form;
ghost use Rattle.sx_bytes.specs.Grammar.{MayDecodeOrStray, Gives, may_follow, ordered_at};
ghost use Rattle.sx_ledger.specs.Body.{tx_before};
ghost use Rattle.sx_tx.specs.TransactionDecoding.{tx_at};

use crate::header::Block;
use crate::header_reading::read_header;
use crate::trade_reading::fault_at;
use std::alloc::Global;
use sx_bytes::{Form, ReadError, Reader};
use sx_tx::{MOST_TRANSACTIONS, Tx, TxList, read_tx};

// How many bytes the shortest transaction takes.
const LEAST_BYTES: usize = 25;

// Whether a transaction may follow the one before it.
pub(crate) fn follows(before: Option<Tx>, next: &Tx) -> bool
    ensures { result ≡ may_follow tx_before before next.now }
{
    match before {
        None => true,
        Some(before) => {
            before.account.0 < next.account.0
                || (before.account.0 == next.account.0 && before.seq.get() < next.seq.get())
        }
    }
}

// Memory grows with what the bytes left can hold, and not with what the count claims.
fn read_txs(alloc: Global, from: &mut Reader, count: u32) -> Result<TxList, ReadError>
    ensures { MayDecodeOrStray (λ x. x) (ordered_at tx_at tx_before form.Order count None from.old) from.new result }
{
    let room = from.left() / LEAST_BYTES;
    let mut txs = Vec::with_capacity(alloc, room.min(count as usize))?;
    let mut before = None;
    for _ in 0..count {
        let at = from.place();
        let next = read_tx(from)?;
        if !follows(before, &next) {
            return Err(fault_at(at, Form::Order));
        }
        txs.push(next)?;
        before = Some(next);
    }
    Ok(TxList::of(txs))
}

#[tactic(auto, unfolding(crate::specs::Decoding::body_at))]
fn read_body(alloc: Global, from: &mut Reader) -> Result<TxList, ReadError>
    ensures { MayDecodeOrStray (λ x. x) (body_at from.old) from.new result }
{
    let count = from.field_u32(0, MOST_TRANSACTIONS, Form::TooMany)?;
    read_txs(alloc, from, count)
}

#[tactic(auto, unfolding(crate::specs::Decoding::fields_at))]
fn read_fields(alloc: Global, from: &mut Reader) -> Result<Block, ReadError>
    ensures { MayDecodeOrStray (λ x. x) (fields_at from.old) from.new result }
{
    let header = read_header(alloc, from)?;
    let txs = read_body(alloc, from)?;
    Ok(Block { header, txs })
}

#[tactic(auto, unfolding(crate::specs::Decoding::block_at))]
fn read_whole(alloc: Global, payload: &[u8]) -> Result<Block, ReadError>
    ensures { Gives (λ block. block) result (block_at payload.now) }
{
    let mut from = Reader::new(payload);
    let block = read_fields(alloc, &mut from)?;
    if from.left() != 0 {
        return Err(fault_at(from.place(), Form::Rest));
    }
    Ok(block)
}

/// The block that a payload encodes, all of the payload. An error is the first fault from left to
/// right, its offset counted from the payload's first byte, or `NoMemory`, which may come in place of
/// any other answer.
///
/// The faults are `Version`, `HeightRange`, `MuRange`, `AssetCount`, `PriceRange`, `TooMany` of more
/// trades than there are pairs or of more than 1,000,000 transactions, `AssetRange` of what a trade
/// sells or buys, `ValueRange`, `TradeOrder` at a trade that does not come after the one before it by
/// what is sold and bought, `Tag` of a flag that is not 0 or 1, `CutRange`, `AmountRange` of a
/// rounding, those of `read_tx`, `Order` at a transaction that does not come after the one before it
/// by account and sequence number, `Short` where a field passes the end, and `Rest` at the first byte
/// after the last transaction.
pub fn read_block(alloc: Global, payload: &[u8]) -> Result<Block, ReadError>
    // What is read is encoded so.
    ensures found { IfOk result (λ block. IsBlock block × (payload.now ≡ block_bytes block)) }
    // What is encoded so is read, unless memory runs out.
    ensures only { (block : Block) → IsBlock block → payload.now ≡ block_bytes block →
        Gives (λ found. found) result (Ok block) }
    // Which fault it is.
    ensures exact { Gives (λ block. block) result (block_at payload.now) }
{
    read_whole(alloc, payload)
}
