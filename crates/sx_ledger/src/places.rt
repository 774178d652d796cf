//! Where what a transaction names stands in a ledger.

ghost use Rattle.std.specs.Prelude.{◌≡◌, Ok, Err, IfOk, OnOk, IfErr, IfSome};
ghost use Rattle.sx_ledger.specs.Ledger.{ids};
ghost use Rattle.sx_ledger.specs.Places.{ArePlaces, IsFound, named_account as account_named};
ghost use Rattle.sx_ledger.specs.Static.{static_of};

use crate::ledger::Ledger;
use crate::ledger_index::LedgerIndex;
use crate::statics::Static;
use sx_base::AccountId;
use sx_tx::{Kind, Tx};

/// What a transaction names in a ledger beside its own account, and where it stands: the payee of a
/// payment among the accounts, or the offer of a cancellation among the offers.
#[derive(Clone, Copy, Debug, PartialEq, Eq)]
pub enum Target {
    Nothing,
    Payee(u32),
    Offer(u32),
}

/// Where the account of a transaction stands, and what the transaction names.
#[derive(Clone, Copy, Debug, PartialEq, Eq)]
pub struct Places {
    pub account: u32,
    pub target: Target,
}

// The account that a transaction pays or creates.
fn named_account(kind: &Kind) -> Option<AccountId>
    ensures { result ≡ account_named kind.now }
{
    match *kind {
        Kind::Pay { to, .. } => Some(to),
        Kind::Create { id } => Some(id),
        Kind::Offer { .. } | Kind::Cancel { .. } => None,
    }
}

impl LedgerIndex {
    // Where the account that a transaction pays or creates stands.
    fn find_named(&self, kind: &Kind) -> Option<u32>
        ensures { IfSome (account_named kind.now) (λ id. IsFound self.now id.0 result) }
    {
        self.find(named_account(kind)?)
    }
}

impl Ledger {
    // The same, without an index.
    pub(crate) fn find_named(&self, kind: &Kind) -> Option<u32>
        ensures { IfSome (account_named kind.now) (λ id. IsFound (ids self.now.accounts) id.0 result) }
    {
        self.find(named_account(kind)?)
    }

    /// The static test of [`Ledger::static_check`], with the places that it found. The account of the
    /// transaction is looked for at the place `near` and at the one after it before it is searched
    /// for, so transactions by account cost next to no search; `near` may be any number. It takes no
    /// memory.
    pub fn places_of(&self, index: &LedgerIndex, near: u32, tx: &Tx) -> Result<Places, Static>
        requires { index.now ≡ ids self.now.accounts }
        ensures refused { IfErr result (λ why. static_of self.now tx.now ≡ Err why) }
        ensures passes { OnOk result (static_of self.now tx.now ≡ Ok tt) }
        ensures places { IfOk result (ArePlaces self.now tx.now) }
    {
        let account = index.find_near(near, tx.account);
        let named = index.find_named(&tx.kind);
        self.check(tx, account, named, Some(index.offers()))
    }
}
