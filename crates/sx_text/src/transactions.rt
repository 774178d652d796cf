//! The lines of transactions.

ghost use Rattle.std.specs.Prelude.{◌≡◌, ◌++◌, OnOk, string_bytes};
ghost use Rattle.sx_text.specs.Transactions.{kind_text, transactions_text, tx_line};

use crate::entries::Line;
use crate::hands::Hands;
use crate::lines::{put_count, put_word};
use sx_base::{AccountId, Amount, AssetId, Seq};
use sx_bytes::NoMemory;
use sx_price::Limit;
use sx_tx::{Kind, Tx};

fn put_payment(
    to: &mut String,
    payee: AccountId,
    asset: AssetId,
    amount: Amount,
) -> Result<(), NoMemory>
    ensures { OnOk result (string_bytes to.new ≡ string_bytes to.old ++ kind_text (Kind.Pay asset payee amount)) }
{
    let payee = payee.0;
    let asset = asset.get();
    let amount = amount.get();
    write!(to, "pay {payee} {asset} {amount}")?;
    Ok(())
}

fn put_creation(to: &mut String, id: AccountId) -> Result<(), NoMemory>
    ensures { OnOk result (string_bytes to.new ≡ string_bytes to.old ++ kind_text (Kind.Create id)) }
{
    let id = id.0;
    write!(to, "create {id}")?;
    Ok(())
}

fn put_offer(
    to: &mut String,
    sell: AssetId,
    buy: AssetId,
    limit: Limit,
    amount: Amount,
) -> Result<(), NoMemory>
    ensures { OnOk result (string_bytes to.new ≡ string_bytes to.old ++ kind_text (Kind.Offer sell buy limit amount)) }
{
    let sell = sell.get();
    let buy = buy.get();
    let limit = limit.get();
    let amount = amount.get();
    write!(to, "offer {sell} {buy} limit {limit} amount {amount}")?;
    Ok(())
}

fn put_cancellation(
    to: &mut String,
    sell: AssetId,
    buy: AssetId,
    limit: Limit,
    seq: Seq,
) -> Result<(), NoMemory>
    ensures { OnOk result (string_bytes to.new ≡ string_bytes to.old ++ kind_text (Kind.Cancel sell buy limit seq)) }
{
    let sell = sell.get();
    let buy = buy.get();
    let limit = limit.get();
    let seq = seq.get();
    write!(to, "cancel {sell} {buy} limit {limit} seq {seq}")?;
    Ok(())
}

fn put_kind(to: &mut String, kind: Kind) -> Result<(), NoMemory>
    ensures { OnOk result (string_bytes to.new ≡ string_bytes to.old ++ kind_text kind) }
{
    match kind {
        Kind::Pay {
            to: payee,
            asset,
            amount,
        } => put_payment(to, payee, asset, amount),
        Kind::Create { id } => put_creation(to, id),
        Kind::Offer {
            sell,
            buy,
            limit,
            amount,
        } => put_offer(to, sell, buy, limit, amount),
        Kind::Cancel {
            sell,
            buy,
            limit,
            seq,
        } => put_cancellation(to, sell, buy, limit, seq),
    }
}

/// Transactions, as they are shown.
#[derive(Clone, Copy)]
pub struct TxLine;

impl Line<Tx> for TxLine {
    ghost line = { λ _. tx_line };

    fn put(&self, to: &mut String, tx: &Tx) -> Result<(), NoMemory> {
        let account = tx.account.0;
        let seq = tx.seq.get();
        write!(to, "tx {account} {seq} ")?;
        put_kind(to, tx.kind)?;
        put_word(to, "\n")
    }
}

/// Appends transactions under this name, their number first.
pub fn put_transactions<H: Hands>(
    hands: &H,
    to: &mut String,
    name: &str,
    txs: &[Tx],
) -> Result<(), NoMemory>
    requires { H.is_ready }
    ensures { OnOk result (string_bytes to.new ≡ string_bytes to.old ++ transactions_text name.now txs.now) }
{
    put_count(to, name, txs.len())?;
    hands.put_txs(to, txs)
}
