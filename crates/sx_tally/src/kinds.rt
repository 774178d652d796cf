//! What a transaction makes and creates.

ghost use Rattle.std.specs.Prelude.{◌≡◌};
ghost use Rattle.sx_ledger.specs.Body.{created_by, made_by};

use sx_ledger::Offer;
use sx_tx::{Kind, Tx};

/// The offer that a transaction makes.
pub fn made_offer(tx: &Tx) -> Option<Offer>
    ensures { result ≡ made_by tx.now tx.now.kind }
{
    match tx.kind {
        Kind::Offer {
            sell,
            buy,
            limit,
            amount,
        } => Some(Offer {
            sell,
            buy,
            limit,
            account: tx.account,
            seq: tx.seq,
            amount,
        }),
        Kind::Pay { .. } | Kind::Create { .. } | Kind::Cancel { .. } => None,
    }
}

// The id of the account that a transaction creates.
pub fn created_id(tx: &Tx) -> Option<u64>
    ensures { result ≡ created_by tx.now.kind }
{
    match tx.kind {
        Kind::Create { id } => Some(id.0),
        Kind::Pay { .. } | Kind::Offer { .. } | Kind::Cancel { .. } => None,
    }
}
