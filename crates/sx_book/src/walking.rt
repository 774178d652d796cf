//! What goes through the offers of one pair, from the first on.

ghost use Rattle.std.specs.Prelude.{◌≡◌, ◌≤◌, ◌+◌, ℕ, All, Some, length, slice_get, slice_set, option_copied, IfOk, IfSome, IfNone, Contains};
ghost use Rattle.std.specs.Option.{ForSome};
ghost use Rattle.std.specs.List.Sorted.{IsStrictlyIncreasing};
ghost use Rattle.sx_book.specs.Books.{Fits, places};
ghost use Rattle.sx_book.specs.Store.{Has, IsReduced, IsSound, given_by, offers_of};
ghost use Rattle.sx_ledger.specs.declared.offer.Offer.{Offer};
ghost use Rattle.sx_ledger.specs.Bounds.{pair_of};
ghost use Rattle.sx_ledger.specs.Ledger.{keys};
ghost use Rattle.sx_ledger.specs.Order.{key_of};
ghost use Rattle.sx_links.specs.Lists.{Stands, list_at, node_at};

use crate::store::{Store, list_of};
use std::alloc::Global;
use sx_base::{Amount, AssetId};
use sx_bytes::NoMemory;
use sx_ledger::{Fill, Key, Offer};

impl Store {
    // The offers of a pair, in their order.
    pub fn offers(&self, alloc: Global, sell: AssetId, buy: AssetId) -> Result<Vec<Offer>, NoMemory>
        requires { IsSound self.now }
        ensures { IfOk result (λ offers. offers.items ≡ pair_of sell buy (offers_of self.now)) }
    {
        let mut offers = Vec::new(alloc);
        let mut at = self.lists.first(list_of(sell, buy));
        while let Some(node) = at {
            offers.push(*self.lists.value(node))?;
            at = self.lists.next(node);
        }
        Ok(offers)
    }

    // The first offer of a pair.
    pub fn first(&self, sell: AssetId, buy: AssetId) -> Option<&Offer>
        requires { IsSound self.now }
        ensures { option_copied result ≡ slice_get (pair_of sell buy (offers_of self.now)) 0 }
    {
        let node = self.lists.first(list_of(sell, buy))?;
        Some(self.lists.value(node))
    }

    // The offer of a key.
    pub fn get(&self, key: &Key) -> Option<&Offer>
        requires { IsSound self.now }
        ensures offer { IfSome result (λ offer. Contains (offers_of self.now) offer.now) }
        ensures key { IfSome result (λ offer. key_of offer.now ≡ key.now) }
        ensures absent { IfNone result (Contains (keys (offers_of self.now)) key.now → ⊥) }
    {
        let node = self.nodes.get(key)?;
        Some(self.lists.value(*node))
    }

    // The node that is `steps` further on in its list, or nothing past its end.
    fn skip(&self, node: Option<u32>, steps: u32) -> Option<u32>
        requires { ForSome node (Stands self.now.lists.lists) }
        ensures { (list place : ℕ) → node ≡ node_at (list_at self.now.lists.lists list) place
            → result ≡ node_at (list_at self.now.lists.lists list) (place + steps) }
    {
        let mut at = node;
        for _step in 0..steps {
            if let Some(node) = at {
                at = self.lists.next(node);
            }
        }
        at
    }

    // Takes some units from the offer of a node, and the offer out where nothing is left of it.
    fn give(&mut self, node: u32, units: u64)
        requires sound { IsSound self.old }
        requires has { Has self.old.lists.lists node units }
        ensures sound { IsSound self.new }
        ensures given { (list place : ℕ) (offer : Offer)
            → slice_get (list_at self.old.lists.lists list) place ≡ Some (node, offer)
            → self.new.lists.lists ≡ slice_set self.old.lists.lists list
            (given_by (list_at self.old.lists.lists list) place (node, offer) units) }
    {
        let offer = *self.lists.value(node);
        match Amount::new(offer.amount.get() - units) {
            Ok(amount) => self.lists.set_value(node, Offer { amount, ..offer }),
            Err(_none) => {
                self.nodes.remove(&offer.key());
                self.lists.unlink(node);
            }
        }
    }

    // Lets the offers of a pair give what fills say, which stand by their places in the list before the call.
    pub fn reduce(&mut self, sell: AssetId, buy: AssetId, fills: &[Fill])
        requires sound { IsSound self.old }
        requires rising { IsStrictlyIncreasing (places fills.now) }
        requires within { All (Fits (pair_of sell buy (offers_of self.old))) fills.now }
        ensures sound { IsSound self.new }
        ensures reduced { IsReduced sell buy fills.now (offers_of self.old) (offers_of self.new) }
    {
        let mut at = self.lists.first(list_of(sell, buy));
        let mut place = 0;
        for fill in fills {
            at = self.skip(at, fill.place - place);
            if let Some(node) = at {
                at = self.lists.next(node);
                self.give(node, fill.gives);
            }
            place = fill.place + 1;
        }
    }
}
