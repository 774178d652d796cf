//! What a candidate names and debits.

ghost use Rattle.std.specs.Prelude.{◌≡◌, Some, None, IfSome, IfNone};
ghost use Rattle.sx_ledger.specs.Body.{cancelled_by, created_by};
ghost use Rattle.sx_ledger.specs.Effects.{debit};

use sx_base::AssetId;
use sx_ledger::Key;
use sx_tx::{Kind, Tx};

// The id of the account that a candidate creates.
pub(crate) fn created_id(tx: &Tx) -> Option<u64>
    ensures { result ≡ created_by tx.now.kind }
{
    match tx.kind {
        Kind::Create { id } => Some(id.0),
        Kind::Pay { .. } | Kind::Offer { .. } | Kind::Cancel { .. } => None,
    }
}

// The key of the offer that a candidate cancels.
pub(crate) fn cancelled_key(tx: &Tx) -> Option<Key>
    ensures { result ≡ cancelled_by tx.now tx.now.kind }
{
    match tx.kind {
        Kind::Cancel {
            sell,
            buy,
            limit,
            seq,
        } => Some(Key {
            sell,
            buy,
            limit,
            account: tx.account,
            seq,
        }),
        Kind::Pay { .. } | Kind::Create { .. } | Kind::Offer { .. } => None,
    }
}

// So many units of an asset.
#[derive(Clone, Copy, Debug)]
pub(crate) struct Portion {
    pub asset: AssetId,
    pub units: u64,
}

// What a candidate debits to its account.
pub(crate) fn debited_portion(tx: &Tx) -> Option<Portion>
    ensures some { IfSome result (λ portion. debit tx.now
        ≡ Some (record { account = tx.now.account.0; asset = portion.asset; units = portion.units })) }
    ensures none { IfNone result (debit tx.now ≡ None) }
{
    match tx.kind {
        Kind::Pay { asset, amount, .. } => Some(Portion {
            asset,
            units: amount.get(),
        }),
        Kind::Offer { sell, amount, .. } => Some(Portion {
            asset: sell,
            units: amount.get(),
        }),
        Kind::Create { .. } | Kind::Cancel { .. } => None,
    }
}
