//! What a body does to a ledger, added up.

ghost use Rattle.std.specs.Prelude.{◌≡◌, ◌++◌, [], ◌∷◌, List, Ok, nat_eq, length, IfNone, IfOk, IfSome, OnOk};
ghost use Rattle.std.specs.List.{IsDistinct};
ghost use Rattle.sx_tally.specs.Postings.{CanPost, IsNonePending, credit_at, debit_at};
ghost use Rattle.sx_ledger.specs.Repeats.{IsFirstRepeat, cancels, creates};
ghost use Rattle.sx_tally.specs.Tally.{IsTally, IsTallyFor, IsTallyWithPending};
ghost use Rattle.sx_ledger.specs.declared.parts.Parts.{Parts as Ledgers};
ghost use Rattle.sx_ledger.specs.Body.{cancelled, created as created_in, made as made_in};
ghost use Rattle.sx_ledger.specs.Ledger.{IsLedger};
ghost use Rattle.sx_ledger.specs.Order.{same_key};
ghost use Rattle.sx_ledger.specs.Places.{ArePlaces};
ghost use Rattle.sx_ledger.specs.Static.{static_of};
ghost use Rattle.sx_tx.specs.declared.tx.Tx.{Tx as Transaction};

use crate::cancellations::Cancellations;
use crate::creations::Creations;
use crate::entries::hold;
use crate::kinds::made_offer;
use crate::pending::Pending;
use crate::postings::Postings;
use crate::ranges::tx_ranges;
use crate::used::mark_used;
use std::alloc::Global;
use sx_bytes::NoMemory;
use sx_ledger::{Ledger, Offer, Places};
use sx_tx::Tx;

/// What transactions do to a ledger, added up: the debits and credits of each account and asset, the
/// sequence numbers that each account uses, the offers that are cancelled and made, and the accounts that
/// are created. Contracts relate it to the list of transactions (`IsTally`).
///
/// Where an account or an offer is meant, it is named by its place in the ledger. An account that no
/// transaction debits or credits has no sums of its own.
#[derive(Debug, Drop)]
pub struct Tally {
    pub(crate) postings: Postings,
    pub(crate) used: Vec<u64>,
    pub(crate) cancellations: Cancellations,
    pub(crate) creations: Creations,
    pub(crate) made: Vec<Offer>,
}

// Puts the offer that a transaction makes behind the others.
fn push_made(made: &mut Vec<Offer>, tx: &Tx) -> Result<(), NoMemory>
    ensures { OnOk result ((before : List Transaction) → made.old.items ≡ made_in before
        → made.new.items ≡ made_in (before ++ tx.now ∷ [])) }
{
    if let Some(offer) = made_offer(tx) {
        made.push(offer)?;
    }
    Ok(())
}

impl Tally {
    // The tally of no transaction, with room for the sums of so many that come. Each names two accounts at most.
    pub(crate) fn none(alloc: Global, ledger: &Ledger, many: usize) -> Result<Tally, NoMemory>
        ensures nothing { IfOk result (IsTally ledger.now []) }
        ensures kept { OnOk result (IsLedger ledger.now) }
    {
        let places = ledger.accounts() as usize;
        let named = many.saturating_mul(2).min(places);
        Ok(Tally {
            postings: Postings::zero(alloc, places, ledger.assets() as usize, named)?,
            used: vec![in alloc; 0; places]?,
            cancellations: Cancellations::none(alloc, ledger.offers() as usize)?,
            creations: Creations::none(alloc),
            made: Vec::new(alloc),
        })
    }

    // Enters a transaction, which is the one at this index and stands at these places. What it debits and credits is
    // pending afterwards.
    pub(crate) fn enter(
        &mut self,
        ledger: &Ledger,
        index: usize,
        tx: &Tx,
        places: &Places,
        pending: &mut Pending,
    ) -> Result<(), NoMemory>
        requires passes { static_of ledger.now tx.now ≡ Ok tt }
        requires places { ArePlaces ledger.now tx.now places.now }
        requires shape { IsTallyFor ledger.now self.old }
        ensures { OnOk result ((before : List Transaction) → length before ≡ index
            → IsTallyWithPending ledger.now before pending.old self.old
            → IsTallyWithPending ledger.now (before ++ tx.now ∷ []) pending.new self.new) }
    {
        tx_ranges(tx);
        let last = ledger.account(places.account).window.last;
        hold(pending, ledger, tx, places)?;
        mark_used(&mut self.used, places.account, last, tx.seq);
        self.cancellations.enter(index, &places.target);
        self.creations.enter(index, tx)?;
        push_made(&mut self.made, tx)
    }

    // Posts what is pending. Nothing is pending afterwards.
    pub(crate) fn post_pending(&mut self, pending: &mut Pending) -> Result<(), NoMemory>
        requires debits { CanPost self.old.postings debit_at pending.old.debits.items }
        requires credits { CanPost self.old.postings credit_at pending.old.credits.items }
        ensures none { OnOk result (IsNonePending pending.new) }
        ensures tally { OnOk result ((parts : Ledgers) (txs : List Transaction)
            → IsTallyWithPending parts txs pending.old self.old → IsTally parts txs self.new) }
    {
        self.postings.debit_all(&pending.debits, &mut pending.rows)?;
        self.postings
            .credit_all(&pending.credits, &mut pending.rows)?;
        pending.debits.clear();
        pending.credits.clear();
        Ok(())
    }

    /// The first transaction that cancels an offer that one before it cancels, by its index from 0, or
    /// `None` if no offer is cancelled twice.
    pub fn cancelled_again(&self) -> Option<usize>
        ensures first { (parts : Ledgers) (txs : List Transaction) → IsTally parts txs self.now
            → IfSome result (IsFirstRepeat cancels txs) }
        ensures none { (parts : Ledgers) (txs : List Transaction) → IsTally parts txs self.now
            → IfNone result (IsDistinct same_key (cancelled txs)) }
    {
        self.cancellations.again
    }

    /// The first transaction that creates an account that one before it creates, by its index from 0, or
    /// `None` if no account is created twice.
    pub fn created_again(&self) -> Option<usize>
        ensures first { (parts : Ledgers) (txs : List Transaction) → IsTally parts txs self.now
            → IfSome result (IsFirstRepeat creates txs) }
        ensures none { (parts : Ledgers) (txs : List Transaction) → IsTally parts txs self.now
            → IfNone result (IsDistinct nat_eq (created_in txs)) }
    {
        self.creations.again
    }

    /// How many accounts are created.
    pub fn created(&self) -> usize
        ensures { (parts : Ledgers) (txs : List Transaction) → IsTally parts txs self.now
            → result ≡ length (created_in txs) }
    {
        self.creations.ids.len()
    }

    /// How many offers are made.
    pub fn made(&self) -> usize
        ensures { (parts : Ledgers) (txs : List Transaction) → IsTally parts txs self.now
            → result ≡ length (made_in txs) }
    {
        self.made.len()
    }

    /// The debits and credits, of the accounts at their places.
    pub fn postings(&self) -> &Postings
        ensures { result.now ≡ self.now.postings }
    {
        &self.postings
    }

    /// For each account the map of the sequence numbers that it uses, at its place.
    pub fn used(&self) -> &[u64]
        ensures { result.now ≡ self.now.used.items }
    {
        &self.used
    }

    /// For each offer of the ledger whether it is cancelled, at its place.
    pub fn cancelled_flags(&self) -> &[bool]
        ensures { result.now ≡ self.now.cancellations.flags.items }
    {
        &self.cancellations.flags
    }

    /// The ids of the accounts that are created, in the order of their transactions.
    pub fn created_ids(&self) -> &[u64]
        ensures { result.now ≡ self.now.creations.ids.items }
    {
        &self.creations.ids
    }

    /// The offers that are made, in the order of their transactions.
    pub fn made_offers(&self) -> &[Offer]
        ensures { result.now ≡ self.now.made.items }
    {
        &self.made
    }
}
