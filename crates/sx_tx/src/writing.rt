//! Encoding a transaction, or a payload of them. Where memory runs out, what was written is taken
//! back.

ghost use Rattle.std.specs.Prelude.{◌≡◌, ◌≤◌, ◌++◌, length, OnOk, OnErr};
ghost use Rattle.byteorder.specs.Endian.{big_bytes};
ghost use Rattle.sx_bytes.specs.Written.{Begins};
ghost use Rattle.sx_tx.specs.Transactions.{most_transactions, terms_bytes, kind_bytes, tx_bytes, list_bytes};

use crate::kind::Kind;
use crate::tx::Tx;
use sx_base::{AccountId, Amount, AssetId};
use sx_bytes::{NoMemory, Writer};
use sx_price::Limit;

#[inline]
#[tactic(auto, using(sx_bytes::proofs::Written::begins, sx_bytes::proofs::Written::begins_then))]
fn put_pay(
    to: &mut Writer,
    payee: AccountId,
    asset: AssetId,
    amount: Amount,
) -> Result<(), NoMemory>
    ensures ok { OnOk result (to.new ≡ to.old ++ kind_bytes (Kind.Pay asset payee amount)) }
    ensures err { OnErr result (Begins to.old to.new) }
{
    to.put_u8(1)?;
    to.put_u64(payee.0)?;
    to.put_u8(asset.get())?;
    to.put_u64(amount.get())
}

#[inline]
#[tactic(auto, using(sx_bytes::proofs::Written::begins, sx_bytes::proofs::Written::begins_then))]
fn put_create(to: &mut Writer, id: AccountId) -> Result<(), NoMemory>
    ensures ok { OnOk result (to.new ≡ to.old ++ kind_bytes (Kind.Create id)) }
    ensures err { OnErr result (Begins to.old to.new) }
{
    to.put_u8(2)?;
    to.put_u64(id.0)
}

// The byte of a kind, what is sold, what is bought, the limit, and the last field.
#[inline]
#[tactic(auto, using(sx_bytes::proofs::Written::begins, sx_bytes::proofs::Written::begins_then))]
fn put_terms(
    to: &mut Writer,
    kind: u8,
    sell: AssetId,
    buy: AssetId,
    limit: Limit,
    last: u64,
) -> Result<(), NoMemory>
    ensures ok { let fields = terms_bytes sell buy limit ++ big_bytes 8 last in
        OnOk result (to.new ≡ to.old ++ (big_bytes 1 kind ++ fields)) }
    ensures err { OnErr result (Begins to.old to.new) }
{
    to.put_u8(kind)?;
    to.put_u8(sell.get())?;
    to.put_u8(buy.get())?;
    to.put_u64(limit.get())?;
    to.put_u64(last)
}

#[inline]
fn put_kind(to: &mut Writer, kind: Kind) -> Result<(), NoMemory>
    ensures ok { OnOk result (to.new ≡ to.old ++ kind_bytes kind) }
    ensures err { OnErr result (Begins to.old to.new) }
{
    match kind {
        Kind::Pay {
            to: payee,
            asset,
            amount,
        } => put_pay(to, payee, asset, amount),
        Kind::Create { id } => put_create(to, id),
        Kind::Offer {
            sell,
            buy,
            limit,
            amount,
        } => put_terms(to, 3, sell, buy, limit, amount.get()),
        Kind::Cancel {
            sell,
            buy,
            limit,
            seq,
        } => put_terms(to, 4, sell, buy, limit, seq.get()),
    }
}

#[inline]
#[tactic(auto, using(sx_bytes::proofs::Written::begins, sx_bytes::proofs::Written::begins_then))]
fn put_tx(to: &mut Writer, tx: &Tx) -> Result<(), NoMemory>
    ensures ok { OnOk result (to.new ≡ to.old ++ tx_bytes tx.now) }
    ensures err { OnErr result (Begins to.old to.new) }
{
    to.put_u64(tx.account.0)?;
    to.put_u64(tx.seq.get())?;
    put_kind(to, tx.kind)
}

/// Appends the transaction's encoding. `NoMemory` does not change what was written before.
#[tactic(auto, using(sx_bytes::proofs::Written::begins_cut))]
pub fn write_tx(to: &mut Writer, tx: &Tx) -> Result<(), NoMemory>
    ensures ok { OnOk result (to.new ≡ to.old ++ tx_bytes tx.now) }
    ensures err { OnErr result (to.new ≡ to.old) }
{
    let before = to.bytes().len();
    let written = put_tx(to, tx);
    if written.is_err() {
        to.cut(before);
    }
    written
}

#[tactic(auto, using(sx_bytes::proofs::Written::begins, sx_bytes::proofs::Written::begins_then))]
fn put_list(to: &mut Writer, txs: &[Tx]) -> Result<(), NoMemory>
    requires { length txs.now ≤ most_transactions }
    ensures ok { OnOk result (to.new ≡ to.old ++ list_bytes txs.now) }
    ensures err { OnErr result (Begins to.old to.new) }
{
    to.put_u32(txs.len() as u32)?;
    for tx in txs {
        put_tx(to, tx)?;
    }
    Ok(())
}

/// Appends the encoding of a payload of candidates: their count and the transactions, in the order
/// of the slice. `NoMemory` does not change what was written before.
#[tactic(auto, using(sx_bytes::proofs::Written::begins_cut))]
pub fn write_candidates(to: &mut Writer, txs: &[Tx]) -> Result<(), NoMemory>
    requires { length txs.now ≤ most_transactions }
    ensures ok { OnOk result (to.new ≡ to.old ++ list_bytes txs.now) }
    ensures err { OnErr result (to.new ≡ to.old) }
{
    let before = to.bytes().len();
    let written = put_list(to, txs);
    if written.is_err() {
        to.cut(before);
    }
    written
}
