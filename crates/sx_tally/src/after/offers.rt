//! The offers of a ledger after a body.

ghost use Rattle.std.specs.Prelude.{◌≡◌, ◌++◌, [], ◌∷◌, List, length, drop, take, All, Bool, false, not, if◌then◌else◌, IfOk, OnOk};
ghost use Rattle.std.specs.Bool.{OnTrue};
ghost use Rattle.std.specs.List.{filter};
ghost use Rattle.sx_tally.specs.Merging.{count_before, merged};
ghost use Rattle.sx_tally.specs.OfferChanges.{changed_by};
ghost use Rattle.sx_tally.specs.Tally.{IsTally, IsTallyFor};
ghost use Rattle.sx_tally.specs.Changes.{AreFlags};
ghost use Rattle.sx_ledger.specs.declared.offer.Offer.{Offer as OneOffer};
ghost use Rattle.sx_ledger.specs.Body.{IsAdmissibleIn, offers_after as all_after};
ghost use Rattle.sx_tx.specs.declared.tx.Tx.{Tx as Transaction};

use crate::Tally;
use crate::after::sorting::sorted_copy;
use std::alloc::Global;
use sx_bytes::NoMemory;
use sx_ledger::{Ledger, Offer, Offers};

/// What a body changes the offers of a ledger to. Where it makes and cancels none, they stay where they are, and no
/// copy of them is made.
#[derive(Debug, Drop)]
pub enum OfferChange {
    /// They stay the same.
    Same,
    /// These are the offers after the body, in order of their keys.
    To(Offers),
}

impl OfferChange {
    /// The offers after the body on this ledger.
    pub fn after<'a>(&'a self, ledger: &'a Ledger) -> &'a [Offer]
        ensures { result.now ≡ changed_by self.now ledger.now.offers }
    {
        match self {
            OfferChange::Same => ledger.parts().offers.items(),
            OfferChange::To(after) => after.items(),
        }
    }

    /// The same for a caller that needs the offers before the body no more.
    pub fn applied(self, before: Offers) -> Offers
        ensures { result ≡ changed_by self before }
    {
        match self {
            OfferChange::Same => before,
            OfferChange::To(after) => after,
        }
    }
}

// Pushes the made offers, from the first one on, that stand before this offer. Answers those that are left.
fn push_before<'a>(
    all: &mut Vec<Offer>,
    made: &'a [Offer],
    offer: &Offer,
) -> Result<&'a [Offer], NoMemory>
    ensures pushed { OnOk result (all.new.items ≡ all.old.items ++ take (count_before offer.now made.now) made.now) }
    ensures left { IfOk result (λ left. left.now ≡ drop (count_before offer.now made.now) made.now) }
{
    let key = offer.key();
    for (count, one) in made.iter().enumerate() {
        if one.key() >= key {
            return Ok(&made[count..]);
        }
        all.push(*one)?;
    }
    Ok(&[])
}

// Unless the flag is set, pushes the made offers that stand before this one, and then this one. Answers
// the made ones that are left.
fn push_kept<'a>(
    all: &mut Vec<Offer>,
    made: &'a [Offer],
    flag: bool,
    offer: &Offer,
) -> Result<&'a [Offer], NoMemory>
    // what is pushed, with what is still to be merged behind it, stays the same list
    ensures { IfOk result (λ left. (others : List OneOffer) → all.new.items ++ merged others left.now
        ≡ all.old.items ++ merged ((if flag then [] else offer.now ∷ []) ++ others) made.now) }
{
    if flag {
        return Ok(made);
    }
    let left = push_before(all, made, offer)?;
    all.push(*offer)?;
    Ok(left)
}

// The offers whose flags, in the same order, are not set, and the made ones among them.
fn merge(
    alloc: Global,
    offers: &[Offer],
    flags: &[bool],
    made: &[Offer],
) -> Result<Vec<Offer>, NoMemory>
    requires { length flags.now ≡ length offers.now }
    ensures { (test : OneOffer → Bool) → AreFlags test offers.now flags.now
        → IfOk result (λ all. all.items ≡ merged (filter (λ offer. not (test offer)) offers.now) made.now) }
{
    let mut all = Vec::with_capacity(alloc, offers.len().saturating_add(made.len()))?;
    let mut left = made;
    for (place, offer) in offers.iter().enumerate() {
        left = push_kept(&mut all, left, flags[place], offer)?;
    }
    all.extend_from_slice(left)?;
    Ok(all)
}

// Whether no flag is set.
fn is_none_set(flags: &[bool]) -> bool
    ensures { OnTrue result (All (λ flag. flag ≡ false) flags.now) }
{
    for flag in flags {
        if *flag {
            return false;
        }
    }
    true
}

/// The offers after the body of a block: those of the ledger that are not cancelled, and those that
/// are made, in order of their keys. Only those that are made are sorted, since those of the ledger are
/// in order already. Where none is made or cancelled, nothing is copied.
pub fn offers_after(alloc: Global, ledger: &Ledger, tally: &Tally) -> Result<OfferChange, NoMemory>
    requires shape { IsTallyFor ledger.now tally.now }
    ensures { (txs : List Transaction) → IsAdmissibleIn 2 ledger.now txs → IsTally ledger.now txs tally.now
        → IfOk result (λ change. changed_by change ledger.now.offers ≡ all_after ledger.now txs) }
{
    let offers = ledger.parts().offers.items();
    let flags = tally.cancelled_flags();
    let made = tally.made_offers();
    if made.is_empty() && is_none_set(flags) {
        return Ok(OfferChange::Same);
    }
    let sorted = sorted_copy(alloc, made)?;
    let all = merge(alloc, offers, flags, &sorted)?;
    Ok(OfferChange::To(Offers::of(all)))
}
