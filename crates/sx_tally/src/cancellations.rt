//! The offers that a body cancels.

ghost use Rattle.std.specs.Prelude.{◌≡◌, ℕ, ◌++◌, [], ◌∷◌, ◌<◌, List, None, Some, false, length, slice_get, IfOk};
ghost use Rattle.sx_tally.specs.Changes.{HasCancelled};
ghost use Rattle.sx_ledger.specs.declared.parts.Parts.{Parts};
ghost use Rattle.sx_ledger.specs.declared.places.Target.TheVariants as target_at;
ghost use Rattle.sx_ledger.specs.Ledger.{IsLedger};
ghost use Rattle.sx_ledger.specs.Places.{IsTarget};
ghost use Rattle.sx_tx.specs.declared.tx.Tx.{Tx};

use crate::repeats::first_again;
use std::alloc::Global;
use sx_bytes::NoMemory;
use sx_ledger::Target;

/// Which of a ledger's offers are cancelled, by their places, and the first transaction that cancels one
/// again.
#[derive(Debug, Drop)]
pub struct Cancellations {
    pub flags: Vec<bool>,
    pub again: Option<usize>,
}

impl Cancellations {
    /// None of these offers is cancelled.
    pub fn none(alloc: Global, offers: usize) -> Result<Cancellations, NoMemory>
        ensures as_many { IfOk result (λ cancellations. length cancellations.flags.items ≡ offers) }
        ensures unset { IfOk result (λ cancellations. (place : ℕ) → place < offers
            → slice_get cancellations.flags.items place ≡ Some false) }
        ensures never { IfOk result (λ cancellations. cancellations.again ≡ None) }
    {
        Ok(Cancellations {
            flags: vec![in alloc; false; offers]?,
            again: None,
        })
    }

    /// Enters the transaction at an index, which has this target.
    pub fn enter(&mut self, index: usize, target: &Target)
        requires within { (place : ℕ) → target.now ≡ target_at.Offer place
            → place < length self.old.flags.items }
        ensures as_many { length self.new.flags.items ≡ length self.old.flags.items }
        ensures entered { (parts : Parts) (tx : Tx) (before : List Tx) → IsLedger parts
            → length self.old.flags.items ≡ length parts.offers
            → IsTarget parts tx.account.0 tx.kind target.now → length before ≡ index
            → HasCancelled parts before self.old → HasCancelled parts (before ++ tx ∷ []) self.new }
    {
        if let Target::Offer(place) = *target {
            let flag = self.flags[place as usize];
            self.again = first_again(self.again, flag, index);
            self.flags[place as usize] = true;
        }
    }
}
