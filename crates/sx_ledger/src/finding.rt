//! Where accounts and offers stand. Each search takes as many steps as the number of entries has
//! binary digits.

ghost use Rattle.std.specs.Prelude.{◌≡◌, ◌≢◌, ℕ, ◌<◌, ◌≤◌, length, map, slice_get, IfSome, IfNone, IsTrue, None, Some, Contains};
ghost use Rattle.std.specs.Bool.{OnTrue};
ghost use Rattle.std.specs.List.Sorted.{IsStrictlyIncreasing};
ghost use Rattle.sx_bytes.specs.Grammar.{in_order};
ghost use Rattle.sx_ledger.specs.Ledger.{has_owner as is_owned, holds_id, holds_key, ids, keys, most_offers};
ghost use Rattle.sx_ledger.specs.Order.{key_before};

use crate::account::Account;
use crate::index::AccountIndex;
use crate::key::Key;
use crate::ledger::Ledger;
use crate::offer::Offer;
use sx_base::AccountId;

// The place of the account of this id among accounts that stand by id.
pub fn find_account(accounts: &[Account], id: AccountId) -> Option<usize>
    requires { IsStrictlyIncreasing (ids accounts.now) }
    ensures found { IfSome result (λ place. slice_get (ids accounts.now) place ≡ Some id.0) }
    ensures absent { IfNone result (Contains (ids accounts.now) id.0 → ⊥) }
{
    accounts
        .binary_search_by_key(&id.0, |account| account.id.0)
        .ok()
}

// Whether a key stands before another.
fn is_before(one: &Key, other: &Key) -> bool
    ensures { result ≡ key_before one.now other.now }
{
    *one < *other
}

// Whether one look shows that every offer before a place stands before this key.
fn all_before(offers: &[Offer], begin: usize, key: &Key) -> bool
    requires { IsTrue (in_order key_before None (keys offers.now)) }
    ensures { OnTrue result ((k : ℕ) → k < begin → slice_get (keys offers.now) k ≢ Some key.now) }
{
    if begin == 0 {
        return true;
    }
    match offers.get(begin) {
        Some(offer) => !is_before(key, &offer.key()),
        None => false,
    }
}

// Whether one look shows that every offer from a place on stands after this key.
fn all_after(offers: &[Offer], end: usize, key: &Key) -> bool
    requires { IsTrue (in_order key_before None (keys offers.now)) }
    ensures { OnTrue result ((k : ℕ) → end ≤ k → slice_get (keys offers.now) k ≢ Some key.now) }
{
    match offers.get(end) {
        Some(offer) => is_before(key, &offer.key()),
        None => true,
    }
}

// The place of the offer of this key between two places.
fn find_between(offers: &[Offer], begin: usize, end: usize, key: &Key) -> Option<u32>
    requires ordered { begin ≤ end }
    requires within { end ≤ length offers.now }
    requires few { length offers.now ≤ most_offers }
    requires by_key { IsTrue (in_order key_before None (keys offers.now)) }
    ensures found { IfSome result (λ place. slice_get (keys offers.now) place ≡ Some key.now) }
    ensures absent { IfNone result ((k : ℕ) → begin ≤ k → k < end → slice_get (keys offers.now) k ≢ Some key.now) }
{
    match offers[begin..end].binary_search_by_key(key, |offer| offer.key()) {
        Ok(place) => Some((begin + place) as u32),
        Err(_) => None,
    }
}

impl Ledger {
    /// The place of the account of this id, or `None` if there is no such account.
    pub fn find(&self, id: AccountId) -> Option<u32>
        ensures found { IfSome result (λ place. slice_get (ids self.now.accounts) place ≡ Some id.0) }
        ensures absent { IfNone result (holds_id self.now id.0 → ⊥) }
    {
        let place = find_account(self.parts().accounts.items(), id)?;
        Some(place as u32)
    }

    /// The place of the offer of this key, or `None` if there is no such offer.
    pub fn find_offer(&self, key: &Key) -> Option<u32>
        ensures found { IfSome result (λ place. slice_get (keys self.now.offers) place ≡ Some key.now) }
        ensures absent { IfNone result (holds_key self.now key.now → ⊥) }
    {
        let entries = self.parts().offers.items();
        match entries.binary_search_by_key(key, |offer| offer.key()) {
            Ok(place) => Some(place as u32),
            Err(_) => None,
        }
    }

    // The same as `find_offer`, where the offer is guessed to stand from one place to before another. The guess may be
    // any: two looks test it, and where it is wrong, all offers are searched.
    pub(crate) fn find_offer_near(&self, range: (usize, usize), key: &Key) -> Option<u32>
        ensures found { IfSome result (λ place. slice_get (keys self.now.offers) place ≡ Some key.now) }
        ensures absent { IfNone result (holds_key self.now key.now → ⊥) }
    {
        let offers = self.parts().offers.items();
        let begin = range.0;
        let end = range.1.min(offers.len());
        if begin <= end && all_before(offers, begin, key) && all_after(offers, end, key) {
            return find_between(offers, begin, end, key);
        }
        self.find_offer(key)
    }
}
