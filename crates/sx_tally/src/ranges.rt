//! The ranges of the numbers of a transaction, which their types keep.

ghost use Rattle.std.specs.Prelude.{◌<◌, ◌^◌};
ghost use Rattle.sx_tx.specs.Transactions.{IsKind, IsTx};

use sx_tx::{Kind, Tx};

// An id is below 2^64.
#[inline]
fn id_range(id: u64)
    ensures { id < 2 ^ 64 }
{
    let _ = id;
}

// The fields of this kind are in their ranges.
#[inline]
fn kind_ranges(kind: &Kind)
    ensures { IsKind kind.now }
{
    match *kind {
        Kind::Pay { to, asset, amount } => {
            id_range(to.0);
            let _asset = asset.get();
            let _amount = amount.get();
        }
        Kind::Create { id } => {
            id_range(id.0);
        }
        Kind::Offer {
            sell,
            buy,
            limit,
            amount,
        } => {
            let _pair = (sell.get(), buy.get());
            let _terms = (limit.get(), amount.get());
        }
        Kind::Cancel {
            sell,
            buy,
            limit,
            seq,
        } => {
            let _pair = (sell.get(), buy.get());
            let _terms = (limit.get(), seq.get());
        }
    }
}

/// All fields of a transaction are in their ranges. It does nothing when it runs.
#[inline]
pub fn tx_ranges(tx: &Tx)
    ensures { IsTx tx.now }
{
    id_range(tx.account.0);
    let _seq = tx.seq.get();
    kind_ranges(&tx.kind);
}
