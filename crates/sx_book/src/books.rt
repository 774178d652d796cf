//! The order books, as their callers see them.

ghost use Rattle.std.specs.Prelude.{◌≡◌, ◌<◌, ◌≤◌, ◌↔◌, ℕ, IsTrue, None, Err, All, length, slice_get, option_copied, IfOk, IfSome, IfNone, OnOk, OnErr, Contains, ◌==◌};
ghost use Rattle.std.specs.List.Sorted.{IsStrictlyIncreasing};
ghost use Rattle.sx_base.specs.Ranges.{most_assets};
ghost use Rattle.sx_book.specs.Books.{Fits, IsBook, IsListed, has_key, left_by, most_offers, places, without};
ghost use Rattle.sx_book.specs.declared.fault.BookFault.TheVariants as book_fault;
ghost use Rattle.sx_bytes.specs.Grammar.{in_order};
ghost use Rattle.sx_ledger.specs.Body.{put_offer};
ghost use Rattle.sx_ledger.specs.Bounds.{pair_of};
ghost use Rattle.sx_ledger.specs.Ledger.{keys};
ghost use Rattle.sx_ledger.specs.Order.{key_before, key_of};

use crate::fault::{Absent, BookFault};
use crate::store::Store;
use std::alloc::Global;
use std::marker::Model;
use sx_base::AssetId;
use sx_bytes::NoMemory;
use sx_ledger::{Fills, Key, Offer, Offers};

/// The order books of all ordered pairs of assets. Contracts see how many assets there are, and all
/// offers in the order of their keys, so those of one pair stand together.
#[derive(Drop)]
pub struct Books {
    assets: u32,
    store: Store,
}

impl Model for Books {
    ghost use Rattle.sx_book.specs.Books.{Book};
    ghost use Rattle.sx_book.specs.Store.{IsKept, offers_of};

    ghost Value = { Book };

    ghost view = { λ books. record { assets = books.assets; offers = offers_of books.store } };

    ghost invariant = { λ books. IsKept books.assets books.store };
}

/// Books have at most [`Books::MOST_OFFERS`] offers.
pub fn book_laws()
    ensures most { Books.MOST_OFFERS ≡ most_offers }
{}

impl Books {
    /// The most offers.
    pub const MOST_OFFERS: u32 = 1 << 31;

    /// The books of these offers, which stand in the order of their keys. It may answer `NoMemory` in
    /// place of any other answer.
    pub fn build(alloc: Global, assets: u32, offers: &[Offer]) -> Result<Books, NoMemory>
        requires some_asset { 1 ≤ assets }
        requires few_assets { assets ≤ most_assets }
        requires few_offers { length offers.now < most_offers }
        requires listed { All (IsListed assets) offers.now }
        requires by_key { IsTrue (in_order key_before None (keys offers.now)) }
        ensures { IfOk result (λ books. books ≡ record { assets = assets; offers = offers.now }) }
    {
        Ok(Books {
            assets,
            store: Store::of(alloc, offers)?,
        })
    }

    /// Puts an offer at its place in the book of its pair. `Present` comes exactly where an offer of the
    /// same key is there. It may answer `NoMemory` where none is. After either the books are as they were.
    pub fn add(&mut self, offer: Offer) -> Result<(), BookFault>
        requires listed { IsListed self.old.assets offer }
        requires few { length self.old.offers < most_offers }
        ensures ok { OnOk result (self.new ≡ record self.old { offers = put_offer offer self.old.offers }) }
        ensures present { (result ≡ Err book_fault.Present) ↔ has_key self.old (key_of offer) }
        ensures err { OnErr result (self.new ≡ self.old) }
        ensures kept { IsBook self.new }
    {
        if self.store.nodes.contains_key(&offer.key()) {
            return Err(BookFault::Present);
        }
        self.store.put(offer)?;
        Ok(())
    }

    /// Takes the offer of a key out, and answers it. `Absent` comes exactly where there is no such offer, and
    /// then the books are as they were. It takes no memory.
    pub fn cancel(&mut self, key: &Key) -> Result<Offer, Absent>
        ensures offer { IfOk result (λ offer. Contains self.old.offers offer) }
        ensures key { IfOk result (λ offer. key_of offer ≡ key.now) }
        ensures taken { OnOk result (self.new ≡ record self.old { offers = without key.now self.old.offers }) }
        ensures absent { OnErr result (has_key self.old key.now → ⊥) }
        ensures err { OnErr result (self.new ≡ self.old) }
        ensures kept { IsBook self.new }
    {
        self.store.take(key).ok_or(Absent)
    }

    /// The offers of a pair, in their order. It may answer `NoMemory` in place of any other answer.
    pub fn offers(&self, alloc: Global, sell: AssetId, buy: AssetId) -> Result<Offers, NoMemory>
        ensures { IfOk result (λ offers. offers ≡ pair_of sell buy self.now.offers) }
    {
        Ok(Offers::of(self.store.offers(alloc, sell, buy)?))
    }

    /// The first offer of a pair: the one of the lowest limit, of the lowest account among those, and of
    /// the lowest sequence number of that account.
    pub fn first(&self, sell: AssetId, buy: AssetId) -> Option<&Offer>
        ensures { option_copied result ≡ slice_get (pair_of sell buy self.now.offers) 0 }
    {
        self.store.first(sell, buy)
    }

    /// The offer of a key, or `None` if there is none.
    pub fn get(&self, key: &Key) -> Option<&Offer>
        ensures offer { IfSome result (λ offer. Contains self.now.offers offer.now) }
        ensures key { IfSome result (λ offer. key_of offer.now ≡ key.now) }
        ensures absent { IfNone result (has_key self.now key.now → ⊥) }
    {
        self.store.get(key)
    }

    /// Lets the offers of a pair trade: each offer at the place of a fill loses what the fill gives, and
    /// leaves the book where nothing is left of it. All other offers stay as they are. It takes no
    /// memory.
    pub fn reduce(&mut self, sell: AssetId, buy: AssetId, fills: &Fills)
        requires rising { IsStrictlyIncreasing (places fills.now) }
        requires within { All (Fits (pair_of sell buy self.old.offers)) fills.now }
        ensures pair { pair_of sell buy self.new.offers ≡ left_by fills.now (pair_of sell buy self.old.offers) }
        ensures others { (one other : ℕ) → ((one ≡ sell) × (other ≡ buy) → ⊥)
            → pair_of one other self.new.offers ≡ pair_of one other self.old.offers }
        ensures assets { self.new.assets ≡ self.old.assets }
        ensures kept { IsBook self.new }
    {
        self.store.reduce(sell, buy, fills.items());
    }

    /// How many assets there are, from 1 to 32.
    pub fn assets(&self) -> u32
        ensures number { result ≡ self.now.assets }
        ensures kept { IsBook self.now }
    {
        self.assets
    }

    /// How many offers there are, at most `2^31`.
    pub fn len(&self) -> u32
        ensures number { result ≡ length self.now.offers }
        ensures kept { IsBook self.now }
    {
        self.store.nodes.len() as u32
    }

    /// Whether there are no offers.
    pub fn is_empty(&self) -> bool
        ensures { result ≡ (length self.now.offers == 0) }
    {
        self.store.nodes.is_empty()
    }
}
