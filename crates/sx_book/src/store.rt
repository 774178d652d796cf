//! Offers in a linked list for each pair, and the map that leads from a key to a node.

ghost use Rattle.std.specs.Prelude.{◌≡◌, ◌<◌, None, IsTrue, [], length, IfOk, OnOk, OnErr, IfSome, IfNone, Contains};
ghost use Rattle.sx_book.specs.Books.{most_offers, without};
ghost use Rattle.sx_book.specs.Store.{Gap, IsSound, list_count, list_of as number_of, offers_of};
ghost use Rattle.sx_bytes.specs.Grammar.{in_order};
ghost use Rattle.sx_ledger.specs.Body.{put_offer};
ghost use Rattle.sx_ledger.specs.Ledger.{keys};
ghost use Rattle.sx_ledger.specs.Order.{key_before, key_of};

use std::alloc::Global;
use std::collections::BTreeMap;
use std::collections::btree_map::Entry;
use sx_base::AssetId;
use sx_bytes::NoMemory;
use sx_ledger::{Key, Offer};
use sx_links::Links;

/// How many lists there are: one for each pair of asset numbers.
const LISTS: u32 = 1024;

// The list of a pair.
pub fn list_of(sell: AssetId, buy: AssetId) -> u32
    ensures number { result ≡ number_of sell buy }
    ensures within { result < list_count }
    ensures sell { sell < 32 }
    ensures buy { buy < 32 }
{
    u32::from(sell.get()) * 32 + u32::from(buy.get())
}

#[derive(Drop)]
pub struct Store {
    // A list for each pair, of its offers in their order.
    pub lists: Links<Offer>,
    // The node of each offer.
    pub nodes: BTreeMap<Key, u32>,
}

impl Store {
    // No offers.
    pub fn new(alloc: Global, count: u32) -> Result<Store, NoMemory>
        requires { count ≡ list_count }
        ensures sound { IfOk result IsSound }
        ensures empty { IfOk result (λ store. offers_of store ≡ []) }
    {
        Ok(Store {
            lists: Links::new(alloc, count)?,
            nodes: BTreeMap::new(alloc),
        })
    }

    // These offers, which stand in the order of their keys.
    pub fn of(alloc: Global, offers: &[Offer]) -> Result<Store, NoMemory>
        requires few { length offers.now < most_offers }
        requires by_key { IsTrue (in_order key_before None (keys offers.now)) }
        ensures sound { IfOk result IsSound }
        ensures offers { IfOk result (λ store. offers_of store ≡ offers.now) }
    {
        let mut store = Store::new(alloc, LISTS)?;
        store.lists.reserve(offers.len() as u32)?;
        for offer in offers {
            store.put(*offer)?;
        }
        Ok(store)
    }

    // The node after which an offer of this key belongs in the list of its pair; nothing where it belongs in
    // front.
    fn before(&self, key: &Key) -> Option<u32>
        requires sound { IsSound self.now }
        requires absent { Contains (keys (offers_of self.now)) key.now → ⊥ }
        requires sell { key.now.sell < 32 }
        requires buy { key.now.buy < 32 }
        ensures { Gap self.now.lists.lists key.now result }
    {
        let (last, node) = self.nodes.range(..*key).next_back()?;
        if last.sell == key.sell && last.buy == key.buy {
            Some(*node)
        } else {
            None
        }
    }

    // Puts an offer at its place.
    pub fn put(&mut self, offer: Offer) -> Result<(), NoMemory>
        requires sound { IsSound self.old }
        requires absent { Contains (keys (offers_of self.old)) (key_of offer) → ⊥ }
        requires few { length (offers_of self.old) < most_offers }
        ensures sound { IsSound self.new }
        ensures ok { OnOk result (offers_of self.new ≡ put_offer offer (offers_of self.old)) }
        ensures err { OnErr result (offers_of self.new ≡ offers_of self.old) }
    {
        self.lists.reserve(1)?;
        let _units = offer.amount.get();
        let list = list_of(offer.sell, offer.buy);
        let key = offer.key();
        let after = self.before(&key);
        if let Entry::Vacant(entry) = self.nodes.entry(key)? {
            entry.insert(self.lists.push_after(list, after, offer));
        }
        Ok(())
    }

    // Takes the offer of a key out.
    pub fn take(&mut self, key: &Key) -> Option<Offer>
        requires { IsSound self.old }
        ensures sound { IsSound self.new }
        ensures key { IfSome result (λ offer. key_of offer ≡ key.now) }
        ensures offer { IfSome result (λ offer. Contains (offers_of self.old) offer) }
        ensures absent { IfNone result (Contains (keys (offers_of self.old)) key.now → ⊥) }
        ensures offers { offers_of self.new ≡ without key.now (offers_of self.old) }
    {
        let node = self.nodes.remove(key)?;
        Some(self.lists.unlink(node))
    }
}
