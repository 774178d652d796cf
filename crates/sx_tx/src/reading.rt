//! Decoding a transaction, or a payload of them, field by field from left to right. Each field is
//! read whole and then tested.

ghost use Rattle.std.specs.Prelude.{◌≡◌, ◌≤◌, List, IfOk, Ok};
ghost use Rattle.sx_bytes.specs.declared.fault.ReadError.TheVariants as read_error;
ghost use Rattle.sx_bytes.specs.Cursor.{Decodes};
ghost use Rattle.sx_bytes.specs.Grammar.{DecodesOrStrays, MayDecodeOrStray, Gives, many_at};
ghost use Rattle.sx_tx.specs.declared.tx.Tx.{Tx};
ghost use Rattle.sx_tx.specs.Transactions.{list_bytes, IsTxList};
ghost use Rattle.sx_tx.specs.TransactionDecoding.{terms_at, pay_at, create_at, offer_at, cancel_at, kind_at, tx_at, list_at, candidates_at};

use crate::fields::{read_amount, read_asset, read_id, read_limit, read_seq};
use crate::kind::Kind;
use crate::tx::Tx;
use crate::tx_list::{MOST_TRANSACTIONS, TxList};
use std::alloc::Global;
use sx_base::AssetId;
use sx_bytes::{Form, FormFault, ReadError, Reader};
use sx_price::Limit;

// What is sold, what is bought, and the limit.
#[inline]
#[tactic(auto, unfolding(crate::specs::TransactionDecoding::terms_at))]
fn terms(from: &mut Reader) -> Result<(AssetId, AssetId, Limit), FormFault>
    ensures exact { DecodesOrStrays (λ x. x) (terms_at from.old) from.new result }
    ensures same { from.new.bytes ≡ from.old.bytes }
    ensures onward { from.old.place ≤ from.new.place }
{
    let sell = read_asset(from)?;
    let buy = read_asset(from)?;
    let limit = read_limit(from)?;
    Ok((sell, buy, limit))
}

#[inline]
#[tactic(auto, unfolding(crate::specs::TransactionDecoding::pay_at))]
fn pay(from: &mut Reader) -> Result<Kind, FormFault>
    ensures exact { DecodesOrStrays (λ x. x) (pay_at from.old) from.new result }
    ensures same { from.new.bytes ≡ from.old.bytes }
    ensures onward { from.old.place ≤ from.new.place }
{
    let to = read_id(from)?;
    let asset = read_asset(from)?;
    let amount = read_amount(from)?;
    Ok(Kind::Pay { to, asset, amount })
}

#[inline]
#[tactic(auto, unfolding(crate::specs::TransactionDecoding::create_at))]
fn create(from: &mut Reader) -> Result<Kind, FormFault>
    ensures exact { DecodesOrStrays (λ x. x) (create_at from.old) from.new result }
    ensures same { from.new.bytes ≡ from.old.bytes }
    ensures onward { from.old.place ≤ from.new.place }
{
    let id = read_id(from)?;
    Ok(Kind::Create { id })
}

#[inline]
#[tactic(auto, unfolding(crate::specs::TransactionDecoding::offer_at))]
fn offer(from: &mut Reader) -> Result<Kind, FormFault>
    ensures exact { DecodesOrStrays (λ x. x) (offer_at from.old) from.new result }
    ensures same { from.new.bytes ≡ from.old.bytes }
    ensures onward { from.old.place ≤ from.new.place }
{
    let (sell, buy, limit) = terms(from)?;
    let amount = read_amount(from)?;
    Ok(Kind::Offer {
        sell,
        buy,
        limit,
        amount,
    })
}

#[inline]
#[tactic(auto, unfolding(crate::specs::TransactionDecoding::cancel_at))]
fn cancel(from: &mut Reader) -> Result<Kind, FormFault>
    ensures exact { DecodesOrStrays (λ x. x) (cancel_at from.old) from.new result }
    ensures same { from.new.bytes ≡ from.old.bytes }
    ensures onward { from.old.place ≤ from.new.place }
{
    let (sell, buy, limit) = terms(from)?;
    let seq = read_seq(from)?;
    Ok(Kind::Cancel {
        sell,
        buy,
        limit,
        seq,
    })
}

#[inline]
#[tactic(auto, unfolding(crate::specs::TransactionDecoding::kind_at))]
fn kind(from: &mut Reader) -> Result<Kind, FormFault>
    ensures exact { DecodesOrStrays (λ x. x) (kind_at from.old) from.new result }
    ensures same { from.new.bytes ≡ from.old.bytes }
    ensures onward { from.old.place ≤ from.new.place }
{
    match from.field_u8(1, 4, Form::Tag)? {
        1 => pay(from),
        2 => create(from),
        3 => offer(from),
        _ => cancel(from),
    }
}

/// The transaction at the place, as [`read_tx`] answers it. A refusal may leave the reader anywhere after its old place.
#[inline]
#[tactic(auto, unfolding(crate::specs::TransactionDecoding::tx_at))]
pub fn decode_tx(from: &mut Reader) -> Result<Tx, FormFault>
    ensures exact { DecodesOrStrays (λ x. x) (tx_at from.old) from.new result }
    ensures same { from.new.bytes ≡ from.old.bytes }
    ensures onward { from.old.place ≤ from.new.place }
{
    let account = read_id(from)?;
    let seq = read_seq(from)?;
    let kind = kind(from)?;
    Ok(Tx { account, seq, kind })
}

/// The transaction whose encoding stands at the place; the reader then stands after it. An error is
/// the first fault from left to right, its offset counted from the reader's first byte, and leaves
/// the reader where it was. The faults are `SeqRange` of the transaction's own sequence number or of
/// the one that a cancel names, `Tag` of a kind that is not 1 to 4, `AssetRange`, `LimitRange`,
/// `AmountRange`, and `Short` where a field passes the end of the bytes. It takes no memory.
pub fn read_tx(from: &mut Reader) -> Result<Tx, FormFault>
    ensures { Decodes (λ x. x) (tx_at from.old) from.old from.new result }
{
    let place = from.place();
    let read = decode_tx(from);
    if read.is_err() {
        from.back(place);
    }
    read
}

// Memory grows with what the bytes left can hold, and not with what the count claims.
fn txs(alloc: Global, from: &mut Reader, count: u32) -> Result<TxList, ReadError>
    ensures { MayDecodeOrStray (λ x. x) (many_at tx_at count from.old) from.new result }
{
    let room = from.left() / Tx::LEAST_BYTES;
    let mut txs = Vec::with_capacity(alloc, room.min(count as usize))?;
    for _ in 0..count {
        // Taken apart, since the check knows how to move a kind only where one is named.
        let Tx { account, seq, kind } = decode_tx(from)?;
        txs.push(Tx { account, seq, kind })?;
    }
    Ok(TxList::of(txs))
}

#[tactic(auto, unfolding(crate::specs::TransactionDecoding::list_at))]
fn list(alloc: Global, from: &mut Reader) -> Result<TxList, ReadError>
    ensures { MayDecodeOrStray (λ x. x) (list_at from.old) from.new result }
{
    let count = from.field_u32(0, MOST_TRANSACTIONS, Form::TooMany)?;
    txs(alloc, from, count)
}

#[tactic(auto, unfolding(crate::specs::TransactionDecoding::candidates_at))]
fn whole(alloc: Global, payload: &[u8]) -> Result<TxList, ReadError>
    ensures { Gives (λ txs. txs) result (candidates_at payload.now) }
{
    let mut from = Reader::new(payload);
    let txs = list(alloc, &mut from)?;
    if from.left() != 0 {
        let at = from.place() as u64;
        let fault = Form::Rest;
        return Err(ReadError::Form(FormFault { at, fault }));
    }
    Ok(txs)
}

/// The transactions of a payload of candidates, which has to be all of the bytes: a count and that
/// many transactions, in any order and with repeats. An error is the first fault from left to right,
/// its offset counted from the payload's first byte. The faults are `TooMany` of a count above
/// `MOST_TRANSACTIONS`, those of `read_tx`, and `Rest` at the first byte after the last transaction.
/// It may answer `NoMemory` in place of any other answer.
pub fn read_candidates(alloc: Global, payload: &[u8]) -> Result<TxList, ReadError>
    // It answers transactions only where the payload is their encoding.
    ensures found { IfOk result (λ txs. IsTxList txs × (payload.now ≡ list_bytes txs)) }
    // It does so for every encoding, unless memory runs out.
    ensures only { (txs : List Tx) → IsTxList txs → payload.now ≡ list_bytes txs →
        Gives (λ found. found) result (Ok txs) }
    // Which fault it is.
    ensures exact { Gives (λ txs. txs) result (candidates_at payload.now) }
{
    whole(alloc, payload)
}
