//! The index of a ledger, to look many accounts and offers up.

ghost use Rattle.std.specs.Prelude.{◌≡◌, slice_get, IfOk, IfSome, IfNone, Some, Contains};
ghost use Rattle.std.specs.List.Sorted.{IsStrictlyIncreasing};
ghost use Rattle.sx_ledger.specs.Ledger.{ids};

use crate::index::AccountIndex;
use crate::ledger::Ledger;
use crate::offer_marks::OfferMarks;
use std::marker::Model;
use sx_base::AccountId;
use sx_bytes::NoMemory;

/// The index of a ledger: the ids of its accounts, and of every eighth offer a mark. Contracts see the
/// list of the ids.
///
/// The marks tell about where an offer stands. That is a guess, which a look-up tests before it believes
/// it, so no contract needs to speak of the marks.
#[derive(Debug, Drop)]
pub struct LedgerIndex {
    accounts: AccountIndex,
    offers: OfferMarks,
}

impl Model for LedgerIndex {
    ghost use Rattle.std.specs.Prelude.{ℕ, List};

    ghost Value = { List ℕ };

    ghost view = { λ index. index.accounts };
}

impl LedgerIndex {
    /// The place of the account of this id, or `None` if there is no such account. It takes as long as
    /// [`AccountIndex::find`].
    pub fn find(&self, id: AccountId) -> Option<u32>
        ensures found { IfSome result (λ place. slice_get self.now place ≡ Some id.0) }
        ensures absent { IfNone result (Contains self.now id.0 → ⊥) }
        ensures by_id { IsStrictlyIncreasing self.now }
    {
        self.accounts.find(id)
    }

    // The same as `find`, but the place `near` and the one after it are tried first.
    pub(crate) fn find_near(&self, near: u32, id: AccountId) -> Option<u32>
        ensures found { IfSome result (λ place. slice_get self.now place ≡ Some id.0) }
        ensures absent { IfNone result (Contains self.now id.0 → ⊥) }
    {
        self.accounts.find_near(near, id)
    }

    // The marks of the offers.
    pub(crate) fn offers(&self) -> &OfferMarks {
        &self.offers
    }
}

impl Ledger {
    /// The ids of the accounts and marks of the offers, to look many of them up.
    pub fn index(&self) -> Result<LedgerIndex, NoMemory>
        ensures { IfOk result (λ index. index ≡ ids self.now.accounts) }
    {
        let parts = self.parts();
        let alloc = parts.accounts.allocator();
        let accounts = AccountIndex::of(alloc, parts.accounts.items())?;
        let offers = OfferMarks::of(alloc, parts.offers.items())?;
        Ok(LedgerIndex { accounts, offers })
    }
}
